// Judges the marked tree of a job, and answer frames made elsewhere: yes, no, or the first refusal of questions 1 to 6.
#![tactic(auto)]

ghost use Rattle.std.specs.Prelude.{◌≡◌, List, ℕ, Ok, Err, IfOk, IfErr, IsOkAnd};
ghost use Rattle.frame.specs.Arrays.{arrays};
ghost use Rattle.accept.specs.Accepting.{Asked, SomeHeld};
ghost use Rattle.judging.specs.Verdicts.{TreeJudged, AnswerJudged};

use accept::accept;
use job::Header;
use limits::Refusal;

// Is the marked tree of a job in arrays cheapest?
pub fn judge_held<E: Copy + From<Refusal>>(
    accepted: Result<Header, E>,
    end1: &[u32; 256],
    end2: &[u32; 256],
    cost: &[u32; 256],
    mark: &[u32; 256],
    ts: &[u32; 256],
    mask: &[u64; 64],
) -> Result<bool, E>
    requires { SomeHeld accepted (arrays end1.now end2.now cost.now mark.now ts.now mask.now) }
    ensures judged { IfOk accepted (λ h. (s : List ℕ)
        → Asked s (Ok h) (arrays end1.now end2.now cost.now mark.now ts.now mask.now)
        → IsOkAnd result (λ b. TreeJudged s (Ok b))) }
    ensures refused { IfErr accepted (λ r. result ≡ Err r) }
{
    let header = match accepted {
        Ok(header) => header,
        Err(refusal) => return Err(refusal),
    };
    let edges = header.edges as usize;
    let count = header.nodes as usize - 1;
    // Tree ranks are by falling cost: none costs more than a lower one.
    let falling = u64::MAX;
    let holds = cheapest::judge_ranked(edges, ts, count, falling, end1, end2, cost, mark, mask);
    Ok(holds)
}

// Is the marked tree of a job frame cheapest?
pub fn judge(frame: &[u8]) -> Result<bool, Refusal>
    ensures { TreeJudged frame.now result }
{
    let mut end1 = [0u32; 256];
    let mut end2 = [0u32; 256];
    let mut cost = [0u32; 256];
    let mut mark = [0u32; 256];
    let mut ts = [0u32; 256];
    let mut mask = [0u64; 64];
    let accepted = accept(
        frame, &mut end1, &mut end2, &mut cost, &mut mark, &mut ts, &mut mask, true,
    );
    judge_held(accepted, &end1, &end2, &cost, &mark, &ts, &mask)
}

// Does a frame hold an answer to a job in arrays, with its costs and its pairing?
pub fn judge_answer_held<E: Copy + From<Refusal>>(
    accepted: Result<Header, E>,
    end1: &[u32; 256],
    end2: &[u32; 256],
    cost: &[u32; 256],
    mark: &[u32; 256],
    ts: &[u32; 256],
    mask: &[u64; 64],
    offered: &[u8],
) -> Result<bool, E>
    requires { SomeHeld accepted (arrays end1.now end2.now cost.now mark.now ts.now mask.now) }
    ensures judged { IfOk accepted (λ h. (s : List ℕ)
        → Asked s (Ok h) (arrays end1.now end2.now cost.now mark.now ts.now mask.now)
        → IsOkAnd result (λ b. AnswerJudged s offered.now (Ok b))) }
    ensures refused { IfErr accepted (λ r. result ≡ Err r) }
{
    let counts = match accepted {
        Ok(counts) => counts,
        Err(first) => return Err(first),
    };
    let nodes = counts.nodes;
    let edges = counts.edges as usize;
    let certified = certify::certify(offered, nodes, edges, ts, end1, end2, cost, mark, mask);
    Ok(certified)
}

// Does the second frame hold an answer to the job of the first?
pub fn judge_answer(frame: &[u8], offered: &[u8]) -> Result<bool, Refusal>
    ensures { AnswerJudged frame.now offered.now result }
{
    let mut end1 = [0u32; 256];
    let mut end2 = [0u32; 256];
    let mut cost = [0u32; 256];
    let mut mark = [0u32; 256];
    let mut ts = [0u32; 256];
    let mut mask = [0u64; 64];
    let accepted = accept(
        frame, &mut end1, &mut end2, &mut cost, &mut mark, &mut ts, &mut mask, true,
    );
    judge_answer_held(accepted, &end1, &end2, &cost, &mark, &ts, &mask, offered)
}
