// What the program prints for a job frame, put into a buffer: the answer, or why the frame is refused.
#![tactic(auto)]

ghost use Rattle.std.specs.Prelude.{◌≤◌, ◌≡◌, IfOk, IfErr, length, take};
ghost use Rattle.limits.specs.Refusals.{refusal_in};
ghost use Rattle.frame.specs.Questions.{refusal};
ghost use Rattle.codec.specs.Numbers.{Put};
ghost use Rattle.printing.specs.Printed.{text_most, IsPrefixLen, printed, lines_of};

use limits::{ANSWER_MOST, Refusal};
use reading::{AnswerRead, JobRead};

// The room that the buffer has to have, in bytes (`text_most`): enough for every text.
pub const TEXT_MOST: usize = 20480;

// Puts the lines of an answer into a buffer that is long enough for every answer, and gives where they end.
fn put_answer(out: &mut [u8], job: JobRead, answer: AnswerRead) -> usize
    requires count_bound { job.count ≤ 256 }
    requires count_bound_2 { answer.count ≤ 64 }
    requires text_most_in_bounds { text_most ≤ length out.old }
    ensures { Put out.old 0 (lines_of job answer) result out.new }
{
    let links = job.links;
    let costs = answer.costs;
    let pairs = answer.pairs;
    let p = text::put_word(out, 0, b"total ", answer.steps, b"\n");
    let q = text::put_links(out, p, job.count, links, costs);
    text::put_pairs(out, q, answer.count, pairs)
}

// Puts the lines of the answer to a job frame into the buffer and gives where they end, or refuses the frame and puts nothing.
fn put_accepted(frame: &[u8], out: &mut [u8]) -> Result<usize, Refusal>
    requires { text_most ≤ length out.old }
    ensures number { refusal_in result ≡ refusal frame.now }
    ensures lines { IfOk result (λ n. (take n out.new ≡ printed frame.now) × IsPrefixLen n out.new) }
    ensures untouched { IfErr result (λ _. out.new ≡ out.old) }
{
    let mut area = [0u8; ANSWER_MOST];
    let length = answering::answer(frame, &mut area)?;
    let job = reading::read_job(frame)?;
    let Some(answer) = reading::read_answer(frame, &area[..length])? else {
        unreachable!();
    };
    Ok(put_answer(out, job, answer))
}

// Puts what is to be printed for a job frame into the buffer: the answer's lines, or one that names the refusal.
pub fn put_reply(frame: &[u8], out: &mut [u8]) -> usize
    requires { text_most ≤ length out.old }
    ensures out_after { take result out.new ≡ printed frame.now }
    ensures prefix_len { IsPrefixLen result out.new }
{
    match put_accepted(frame, out) {
        Ok(end) => end,
        Err(refusal) => text::put_word(out, 0, b"refused ", u32::from(refusal), b"\n"),
    }
}
