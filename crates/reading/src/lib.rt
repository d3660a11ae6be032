// Reads a job frame into link records, the type that hosts lend, and an answer frame into arrays.
#![tactic(auto)]

ghost use Rattle.std.specs.Prelude.{◌≡◌, ◌≤◌, Some, length};
ghost use Rattle.std.proofs.Math.Option as maybe;
ghost use Rattle.optimum.specs.Optimum.{Answer};
ghost use Rattle.frame.specs.Arrays.{columns};
ghost use Rattle.frame.specs.Answers.{read_answer};
ghost use Rattle.reading.specs.AnswersRead.{AnswerGiven, answer_read};
ghost use Rattle.reading.specs.JobsRead.{JobGiven, gathered};

use accept::accept;
use judging::judge_answer_held;
use limits::Refusal;
use records::Link;

// A job read from its frame: the station count, the link count and the links, zeros behind the last.
#[derive(Clone, Copy)]
pub struct JobRead {
    pub nodes: u32,
    pub count: usize,
    pub links: [Link; 256],
}

// The links of four arrays, as records.
fn gather(end1: &[u32; 256], end2: &[u32; 256], cost: &[u32; 256], mark: &[u32; 256]) -> [Link; 256]
    ensures { result ≡ gathered 256 (columns end1.now end2.now cost.now mark.now) }
{
    let mut links = [Link {
        end1: 0,
        end2: 0,
        cost: 0,
        mark: 0,
    }; 256];
    for (e, link) in links.iter_mut().enumerate() {
        *link = Link {
            end1: end1[e],
            end2: end2[e],
            cost: cost[e],
            mark: mark[e],
        };
    }
    links
}

// Reads a job frame into records, or refuses it by questions 1 to 6.
pub fn read_job(frame: &[u8]) -> Result<JobRead, Refusal>
    ensures { JobGiven frame.now result }
{
    let mut end1 = [0u32; 256];
    let mut end2 = [0u32; 256];
    let mut cost = [0u32; 256];
    let mut mark = [0u32; 256];
    let mut ts = [0u32; 256];
    let mut mask = [0u64; 64];
    let accepted = accept(
        frame, &mut end1, &mut end2, &mut cost, &mut mark, &mut ts, &mut mask, false,
    );
    match accepted {
        Ok(header) => Ok(JobRead {
            nodes: header.nodes,
            count: header.edges as usize,
            links: gather(&end1, &end2, &cost, &mark),
        }),
        Err(refusal) => Err(refusal),
    }
}

// An answer read from a frame: the steps, the new cost of each link, and so many pairs, tree link and spare link by turns; zeros
// behind the last.
#[derive(Clone, Copy)]
pub struct AnswerRead {
    pub steps: u32,
    pub costs: [u32; 256],
    pub count: usize,
    pub pairs: [u32; 128],
}

// The contents of an answer frame to a job of so many links, of at most 64 pairs.
fn read_contents(offered: &[u8], edges: usize) -> Option<AnswerRead>
    requires { edges ≤ 256 }
    ensures { (a : Answer) → read_answer edges offered.now ≡ maybe.some a → length a.pairs ≤ 64 → result ≡ Some (answer_read a) }
{
    let mut costs = [0u32; 256];
    let mut pairs = [0u32; 128];
    let found = answer_read::load_answer(offered, edges, &mut costs, &mut pairs)?;
    Some(AnswerRead {
        steps: found.steps,
        costs,
        count: found.count,
        pairs,
    })
}

// Judges the second frame as an answer to the job of the first; if it is one, reads it.
pub fn read_answer(frame: &[u8], offered: &[u8]) -> Result<Option<AnswerRead>, Refusal>
    ensures { AnswerGiven frame.now offered.now result }
{
    let mut end1 = [0u32; 256];
    let mut end2 = [0u32; 256];
    let mut cost = [0u32; 256];
    let mut mark = [0u32; 256];
    let mut ts = [0u32; 256];
    let mut mask = [0u64; 64];
    let accepted = accept(
        frame, &mut end1, &mut end2, &mut cost, &mut mark, &mut ts, &mut mask, true,
    );
    let counts = match accepted {
        Ok(counts) => counts,
        Err(refusal) => return Err(refusal),
    };
    let certified = judge_answer_held(accepted, &end1, &end2, &cost, &mark, &ts, &mask, offered)?;
    if !certified {
        return Ok(None);
    }
    Ok(read_contents(offered, counts.edges as usize))
}
