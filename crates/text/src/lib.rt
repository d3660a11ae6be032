// The lines of an answer as ASCII text, put one behind the other into a buffer.
#![tactic(auto)]

ghost use Rattle.std.specs.Prelude.{◌+◌, ◌*◌, ◌≤◌, ◌++◌, length, get_or};
ghost use Rattle.codec.specs.Numbers.{Put};
ghost use Rattle.records.specs.Records.{zero_link};
ghost use Rattle.text.specs.Text.{decimal, cost_line, pair_line, cost_lines, pair_lines};

use records::Link;

// Puts bytes at a position and gives the position behind them.
fn put(out: &mut [u8], at: usize, part: &[u8]) -> usize
    requires { at + length part.now ≤ length out.old }
    ensures { Put out.old at part.now result out.new }
{
    let end = at + part.len();
    out[at..end].copy_from_slice(part);
    end
}

// Puts a number, and what stands behind it.
fn put_number(out: &mut [u8], at: usize, n: u32, behind: &[u8]) -> usize
    requires { at + (20 + length behind.now) ≤ length out.old }
    ensures { Put out.old at (decimal n ++ behind.now) result out.new }
{
    let mut digits = itoa::Buffer::new();
    let next = put(out, at, digits.format(n).as_bytes());
    put(out, next, behind)
}

// Puts a word, a number, and what stands behind it.
pub fn put_word(out: &mut [u8], at: usize, word: &[u8], n: u32, behind: &[u8]) -> usize
    requires { at + (length word.now + (20 + length behind.now)) ≤ length out.old }
    ensures { Put out.old at (word.now ++ (decimal n ++ behind.now)) result out.new }
{
    let next = put(out, at, word);
    put_number(out, next, n, behind)
}

// Puts a link's line: its number, its old cost, its new cost.
fn put_costs(out: &mut [u8], at: usize, e: u32, old: u32, new: u32) -> usize
    requires { at + 63 ≤ length out.old }
    ensures { Put out.old at (cost_line e old new) result out.new }
{
    let p = put_number(out, at, e, b" ");
    let q = put_number(out, p, old, b" ");
    put_number(out, q, new, b"\n")
}

// Puts a pair's line, tree link first.
fn put_pair(out: &mut [u8], at: usize, tree: u32, spare: u32) -> usize
    requires { at + 47 ≤ length out.old }
    ensures { Put out.old at (pair_line tree spare) result out.new }
{
    let next = put_word(out, at, b"pair ", tree, b" ");
    put_number(out, next, spare, b"\n")
}

// Puts a line for each of the first `count` links.
pub fn put_links(
    out: &mut [u8],
    at: usize,
    count: usize,
    links: [Link; 256],
    costs: [u32; 256],
) -> usize
    requires count_bound { count ≤ 256 }
    requires count_in_bounds { at + 63 * count ≤ length out.old }
    ensures { Put out.old at (cost_lines count (λ e. (get_or links e zero_link).cost) (λ e. get_or costs e 0)) result out.new }
{
    let mut next = at;
    for e in 0..count {
        next = put_costs(out, next, e as u32, links[e].cost, costs[e]);
    }
    next
}

// Puts a line for each of the first `count` pairs, whose links stand by turns.
pub fn put_pairs(out: &mut [u8], at: usize, count: usize, pairs: [u32; 128]) -> usize
    requires count_bound { count ≤ 64 }
    requires count_in_bounds { at + 47 * count ≤ length out.old }
    ensures { Put out.old at (pair_lines count (λ i. get_or pairs (2 * i) 0) (λ i. get_or pairs (2 * i + 1) 0)) result out.new }
{
    let mut next = at;
    for i in 0..count {
        next = put_pair(out, next, pairs[2 * i], pairs[2 * i + 1]);
    }
    next
}
