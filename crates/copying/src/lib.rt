// Reads a job frame, or an answer frame to a job, into arrays of the caller, of any length: the links four numbers each, the
// costs one each, the pairs two each.
#![tactic(auto)]

ghost use Rattle.std.specs.Prelude.{◌≡◌, ◌≤◌};
ghost use Rattle.reading.specs.AnswersRead.{answer_of_read};
ghost use Rattle.copying.specs.Copies.{JobCopied, copy_of, answer_into, AnswerCopied};

use limits::Refusal;
use reading::AnswerRead;

// What is said of a job that was copied: the station count and the link count.
#[derive(Clone, Copy)]
pub struct JobCopy {
    pub nodes: u32,
    pub count: usize,
}

// Reads a job frame into the array, four numbers a link, or refuses: by questions 1 to 6, or by 7 if the array is too short.
pub fn copy_job(frame: &[u8], links: &mut [u32]) -> Result<JobCopy, Refusal>
    ensures { JobCopied frame.now links.old result links.new }
{
    let read = reading::read_job(frame)?;
    let count = read.count;
    if links.len() / 4 < count {
        return Err(Refusal::Room);
    }
    filling::copy_links(read.links, count, links);
    Ok(JobCopy {
        nodes: read.nodes,
        count,
    })
}

// What is said of an answer that was copied: its steps, how many costs it has, one for each link, and how many pairs.
#[derive(Clone, Copy)]
pub struct AnswerCopy {
    pub steps: u32,
    pub costs: usize,
    pub pairs: usize,
}

// Puts an answer that was read, to a job of so many links, into the arrays. Refusal 7 if either is too short.
fn put_answer(
    read: AnswerRead,
    edges: usize,
    costs: &mut [u32],
    pairs: &mut [u32],
) -> Result<Option<AnswerCopy>, Refusal>
    requires edges_bound { edges ≤ 256 }
    requires count_bound { read.count ≤ 64 }
    ensures { copy_of result costs.new pairs.new ≡ answer_into (answer_of_read edges read) costs.old pairs.old }
{
    let count = read.count;
    if costs.len() < edges {
        return Err(Refusal::Room);
    }
    if pairs.len() / 2 < count {
        return Err(Refusal::Room);
    }
    // Each array on its own: lent as parts of `read`, they take a second one of it on the stack.
    let all = read.costs;
    filling::copy_numbers(&all, edges, costs);
    let numbers = read.pairs;
    filling::copy_numbers(&numbers, 2 * count, pairs);
    Ok(Some(AnswerCopy {
        steps: read.steps,
        costs: edges,
        pairs: count,
    }))
}

// Judges the second frame as an answer to the job of the first; if it is one, reads it into the arrays. Refusal 7 if either is
// too short.
pub fn copy_answer(
    frame: &[u8],
    offered: &[u8],
    costs: &mut [u32],
    pairs: &mut [u32],
) -> Result<Option<AnswerCopy>, Refusal>
    ensures { AnswerCopied frame.now offered.now costs.old pairs.old result costs.new
        pairs.new }
{
    match reading::read_answer(frame, offered)? {
        Some(read) => {
            let edges = job::read_counts(frame)?.edges as usize;
            put_answer(read, edges, costs, pairs)
        }
        None => Ok(None),
    }
}
