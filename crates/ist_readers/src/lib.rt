// The readers for C, into arrays of the caller: each calls one service and carries its promise, with the reply or verdict in plain
// numbers. Crate `ist_c` exports them.
#![tactic(auto)]

ghost use Rattle.copying.specs.Copies.{JobCopied, AnswerCopied};
ghost use Rattle.std.specs.Prelude.{◌≡◌};
ghost use Rattle.codes.specs.Exports.{answer_counts, JobTold, AnswerTold};
ghost use Rattle.reading.specs.AnswersRead.{verdict_in};

use codes::{code, number};
use copying::AnswerCopy;
use limits::Refusal;

// Reads a job frame into the array, four numbers a link.
pub fn read_job(job: &[u8], links: &mut [u32], stations: &mut u32, count: &mut usize) -> i32
    ensures { JobTold (λ said. JobCopied job.now links.old said links.new) result stations.new
        count.new }
{
    match copying::copy_job(job, links) {
        Ok(copy) => {
            *stations = copy.nodes;
            *count = copy.count;
            0
        }
        Err(refusal) => {
            *stations = 0;
            *count = 0;
            number(u32::from(refusal))
        }
    }
}

// What is counted of an answer: nothing where nothing is copied.
fn counts(said: Result<Option<AnswerCopy>, Refusal>) -> AnswerCopy
    ensures { result ≡ answer_counts said }
{
    match said {
        Ok(Some(copy)) => copy,
        _ => AnswerCopy {
            steps: 0,
            costs: 0,
            pairs: 0,
        },
    }
}

// The verdict of a judge who hands on a copy of what he judges yes.
fn verdict(said: Result<Option<AnswerCopy>, Refusal>) -> Result<bool, Refusal>
    ensures { result ≡ verdict_in said }
{
    match said {
        Ok(copy) => Ok(copy.is_some()),
        Err(refusal) => Err(refusal),
    }
}

// Judges a frame as an answer to the job frame, and reads it into the arrays.
pub fn read_answer(
    job: &[u8],
    answer: &[u8],
    costs: &mut [u32],
    pairs: &mut [u32],
    steps: &mut u32,
    cost_count: &mut usize,
    pair_count: &mut usize,
) -> i32
    ensures { AnswerTold (λ said. AnswerCopied job.now answer.now costs.old pairs.old said
        costs.new pairs.new) result steps.new cost_count.new pair_count.new }
{
    let said = copying::copy_answer(job, answer, costs, pairs);
    let copy = counts(said);
    *steps = copy.steps;
    *cost_count = copy.costs;
    *pair_count = copy.pairs;
    code(verdict(said).map_err(u32::from))
}
