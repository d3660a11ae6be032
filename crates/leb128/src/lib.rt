// Canonical LEB128 numbers in slices, read at a position. The layout is that of specs/Number.antt in crate `number`.
#![tactic(auto)]

ghost use Rattle.std.specs.Prelude.{◌≡◌, ◌≤◌, Some};
ghost use Rattle.leb128.specs.Positions.{read_at, Stands};

// A number that stands at a position, and the position behind it.
#[derive(Clone, Copy)]
pub struct Number {
    pub value: u32,
    pub next: usize,
}

// The number of at most `most` bytes that stands at `at`; none if it is cut off, too long or not in shortest form. The first byte is
// read before the loop: most numbers have no other.
fn read(bytes: &[u8], at: usize, most: u32) -> Option<Number>
    requires { most ≤ 4 }
    ensures { result ≡ read_at most bytes.now at }
{
    if most == 0 || bytes.len() <= at {
        return None;
    }
    let first = bytes[at] as u32;
    let mut next = at + 1;
    if first < 128 {
        return Some(Number { value: first, next });
    }
    let mut value = first - 128;
    let mut weight: u32 = 128;
    for _ in 1..most {
        if bytes.len() <= next {
            return None;
        }
        let byte = bytes[next] as u32;
        value += weight * byte;
        next += 1;
        if byte < 128 {
            if byte == 0 {
                return None;
            }
            return Some(Number { value, next });
        }
        weight *= 128;
        value -= weight;
    }
    None
}

// The number of at most three bytes that stands at `at`.
pub fn read_short(bytes: &[u8], at: usize) -> Option<Number>
    ensures { result ≡ read_at 3 bytes.now at }
{
    read(bytes, at, 3)
}

// The number of at most four bytes that stands at `at`.
pub fn read_long(bytes: &[u8], at: usize) -> Option<Number>
    ensures { result ≡ read_at 4 bytes.now at }
{
    read(bytes, at, 4)
}

// The number of at most `most` bytes that is known to stand at `at`.
fn known(bytes: &[u8], at: usize, most: u32) -> Number
    requires few { most ≤ 4 }
    requires stands { Stands most bytes.now at }
    ensures { read_at most bytes.now at ≡ Some result }
{
    let first = bytes[at] as u32;
    let mut next = at + 1;
    if first < 128 {
        return Number { value: first, next };
    }
    let mut value = first - 128;
    let mut weight: u32 = 128;
    for _ in 1..most - 1 {
        value += weight * bytes[next] as u32;
        next += 1;
        weight *= 128;
        // So the byte was below 128.
        if value < weight {
            return Number { value, next };
        }
        value -= weight;
    }
    Number {
        value: value + weight * bytes[next] as u32,
        next: next + 1,
    }
}

// The number of at most three bytes that is known to stand at `at`: the same as `read_short`, without its tests.
pub fn read_known(bytes: &[u8], at: usize) -> Number
    requires { Stands 3 bytes.now at }
    ensures { read_at 3 bytes.now at ≡ Some result }
{
    known(bytes, at, 3)
}
