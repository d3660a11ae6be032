// Question 1: how many numbers a frame divides into.
#![tactic(auto)]

ghost use Rattle.std.specs.Prelude.{◌≡◌, true, ◌+◌, ◌≤◌, ◌<◌, length};
ghost use Rattle.loops.specs.Below.{all_below, sum};
ghost use Rattle.frame.specs.Questions.{numbers};
ghost use Rattle.division.specs.Counting.{count_from, Counting, may_follow, followed, continued};

// A position of a frame and how many numbers end before it.
#[derive(Clone, Copy)]
struct Passed {
    at: usize,
    count: usize,
}

// May `b` and `c` stand behind `a`? A byte from 128 on wants one other than 0 behind it, and of three bytes one is below 128.
fn may_follow(a: u8, b: u8, c: u8) -> bool
    ensures { result ≡ may_follow a b c }
{
    if a < 128 {
        return true;
    }
    if b == 0 {
        return false;
    }
    if b < 128 {
        return true;
    }
    c < 128
}

// May each of 32 bytes have the two bytes behind it that it has? Here, as in every function over a block, the loop has a fixed number
// of turns and no early exit: the compiler makes vector code of it.
fn block_divides(frame: &[u8], at: usize) -> bool
    requires { at + 33 < length frame.now }
    ensures { result ≡ all_below 32 (λ k. followed frame.now (at + k)) }
{
    let mut holds = true;
    for k in 0..32 {
        let i = at + k;
        let follows = may_follow(frame[i], frame[i + 1], frame[i + 2]);
        holds = holds & follows;
    }
    holds
}

// How many of 32 bytes are not the last of their number.
fn block_firsts(frame: &[u8], at: usize) -> u8
    requires { at + 32 ≤ length frame.now }
    ensures { result ≡ sum 32 (λ k. continued frame.now (at + k)) }
{
    let mut firsts: u8 = 0;
    for k in 0..32 {
        firsts += frame[at + k] / 128;
    }
    firsts
}

// Counts in blocks of 32 bytes, up to the first that does not divide or has no two bytes behind it.
fn count_blocks(frame: &[u8]) -> Passed
    ensures { Counting frame.now result.at result.count (count_from 0 (numbers frame.now)) }
{
    let mut at: usize = 0;
    let mut firsts: usize = 0;
    while 33 < frame.len() - at {
        if !block_divides(frame, at) {
            break;
        }
        let more = block_firsts(frame, at);
        firsts += more as usize;
        at += 32;
    }
    Passed {
        at,
        count: at - firsts,
    }
}

// Question 1, put to the whole frame: how many numbers it divides into; none if it does not. In blocks as far as they go, then number
// by number.
pub fn count_numbers(frame: &[u8]) -> Option<usize>
    ensures { result ≡ count_from 0 (numbers frame.now) }
{
    let passed = count_blocks(frame);
    let mut at = passed.at;
    let mut count = passed.count;
    while at < frame.len() {
        at = leb128::read_short(frame, at)?.next;
        count += 1;
    }
    Some(count)
}
