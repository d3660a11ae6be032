// Numbers in a frame, one behind the other: read, passed over, measured and written.
#![tactic(auto)]

ghost use Rattle.std.specs.Prelude.{◌≡◌, ◌+◌, ◌≤◌, length};
ghost use Rattle.frame.specs.Job.{bytes_of};
ghost use Rattle.frame.specs.Services.{written};
ghost use Rattle.codec.specs.Numbers.{taken_at, skipped, numbers_at, Put, Divided, loaded_at, loaded, outcome};

use leb128::Number;
use limits::Refusal;

// Where a part of a frame stands.
#[derive(Clone, Copy)]
pub struct Part {
    pub offset: usize,
    pub length: usize,
}

// The number at a position; 0 and the position itself if there is none.
pub fn number_at(s: &[u8], at: usize) -> Number
    ensures { result ≡ taken_at s.now at }
{
    leb128::read_short(s, at).unwrap_or(Number { value: 0, next: at })
}

// The position behind so many numbers.
pub fn skip(s: &[u8], at: usize, count: usize) -> usize
    ensures { result ≡ skipped s.now count at }
{
    let mut next = at;
    for _ in 0..count {
        next = number_at(s, next).next;
    }
    next
}

// How many bytes the first `count` numbers take.
pub fn numbers_size(values: &[u32], count: usize) -> usize
    requires { count ≤ length values.now }
    ensures { result ≡ length (bytes_of (numbers_at count values.now)) }
{
    let mut total: usize = 0;
    for i in 0..count {
        total += leb128_write::size_short(values[i]);
    }
    total
}

// Puts the first `count` numbers at a position, one behind the other, and gives the position behind them.
pub fn write_numbers(area: &mut [u8], at: usize, values: &[u32], count: usize) -> usize
    requires count_in_bounds { count ≤ length values.now }
    requires values_in_bounds { at + length (bytes_of (numbers_at count values.now)) ≤ length area.old }
    ensures { Put area.old at (bytes_of (numbers_at count values.now)) result area.new }
{
    let mut next = at;
    for i in 0..count {
        next = leb128_write::write_short(area, next, values[i]);
    }
    next
}

// Writes the first `count` numbers at the front of the area; question 7. A number takes at most three bytes: where the area has
// room for that, they are not measured.
pub fn write_list(values: &[u32], count: usize, area: &mut [u8]) -> Result<usize, Refusal>
    requires { count ≤ length values.now }
    ensures { outcome result area.new ≡ written 0 (bytes_of (numbers_at count values.now)) 0 area.old }
{
    if area.len() / 3 < count {
        let total = numbers_size(values, count);
        if area.len() < total {
            return Err(Refusal::Room);
        }
    }
    Ok(write_numbers(area, 0, values, count))
}

// Reads so many numbers from a position on, each into its place, and gives the position behind them. They are known to stand
// there, and are read without tests.
pub fn read_numbers(s: &[u8], at: usize, values: &mut [u32], count: usize) -> usize
    requires places { count ≤ length values.old }
    requires numbers { Divided s.now at count }
    ensures { loaded_at result values.new ≡ loaded s.now at count values.old }
{
    let mut next = at;
    for i in 0..count {
        let n = leb128::read_known(s, next);
        values[i] = n.value;
        next = n.next;
    }
    next
}
