// Refusals, verdicts and replies as results of functions for C.
#![tactic(auto)]

ghost use Rattle.std.specs.Prelude.{◌≡◌, pos};
ghost use Rattle.limits.specs.Refusals.{refusal_in, size_in};
ghost use Rattle.codes.specs.Exports.{told, told_verdict, code_in};

use limits::Refusal;

// A refusal's number as a result of C: up to 31 as it is. Any other, of which there is none, would be told as 31 and never as
// success.
pub fn number(refusal: u32) -> i32
    ensures { result ≡ pos (told refusal) }
{
    if 31 < refusal {
        return 31;
    }
    refusal as i32
}

// A verdict as a number: 0 for yes, -1 for no, else the refusal, which is given by its number.
pub fn code(verdict: Result<bool, u32>) -> i32
    ensures { result ≡ code_in (told_verdict verdict) }
{
    match verdict {
        Ok(true) => 0,
        Ok(false) => -1,
        Err(refusal) => number(refusal),
    }
}

// A reply as a number, 0 or the refusal, and the length written beside it: 0 for a refusal.
pub fn tell(reply: Result<usize, Refusal>, written: &mut usize) -> i32
    ensures number { result ≡ pos (refusal_in reply) }
    ensures length { written.new ≡ size_in reply }
{
    match reply {
        Ok(length) => {
            *written = length;
            0
        }
        Err(refusal) => {
            *written = 0;
            number(u32::from(refusal))
        }
    }
}
