// Finds one link's four numbers in a job frame and its new cost in an answer frame, as the frame's own bytes.
#![tactic(auto)]

ghost use Rattle.std.specs.Prelude.{◌≡◌, List, ℕ, Ok, IfOk, IfErr};
ghost use Rattle.frame.specs.Services.{nowhere};
ghost use Rattle.codec.specs.Numbers.{place_of};
ghost use Rattle.frame.specs.Arrays.{arrays};
ghost use Rattle.accept.specs.Accepting.{Asked, SomeHeld};
ghost use Rattle.finding.specs.Parts.{LinkFound, CostFound, LinkLocated, CostLocated};

use accept::accept;
use codec::Part;
use ids::Edge;
use job::Header;
use judging::judge_answer_held;
use limits::Refusal;

// Where a link's bytes stand; nowhere, of length 0, if the frame is refused or has no such link.
pub fn locate_link(frame: &[u8], edge: Edge) -> Part
    ensures { LinkLocated frame.now edge.0 (place_of result) }
{
    let mut end1 = [0u32; 256];
    let mut end2 = [0u32; 256];
    let mut cost = [0u32; 256];
    let mut mark = [0u32; 256];
    let mut ts = [0u32; 256];
    let mut mask = [0u64; 64];
    let accepted = accept(
        frame, &mut end1, &mut end2, &mut cost, &mut mark, &mut ts, &mut mask, false,
    );
    let Ok(header) = accepted else {
        return Part {
            offset: 0,
            length: 0,
        };
    };
    job::link_part(frame, Ok::<Header, Refusal>(header), edge)
}

// The bytes of a link; none if the frame is refused or has no such link.
pub fn find_link(frame: &[u8], edge: Edge) -> &[u8]
    ensures { LinkFound frame.now edge.0 result.now }
{
    let part = locate_link(frame, edge);
    let first = part.offset;
    let end = first + part.length;
    &frame[first..end]
}

// Where a link's new cost stands in the frame offered as an answer to a job in arrays; nowhere, of length 0, if the job was
// refused, has no such link, or the offered frame is not judged yes.
pub fn locate_cost_held<E: Copy + From<Refusal>>(
    accepted: Result<Header, E>,
    end1: &[u32; 256],
    end2: &[u32; 256],
    cost: &[u32; 256],
    mark: &[u32; 256],
    ts: &[u32; 256],
    mask: &[u64; 64],
    offered: &[u8],
    edge: Edge,
) -> Part
    requires { SomeHeld accepted (arrays end1.now end2.now cost.now mark.now ts.now mask.now) }
    ensures located { IfOk accepted (λ h. (s : List ℕ)
        → Asked s (Ok h) (arrays end1.now end2.now cost.now mark.now ts.now mask.now)
        → CostLocated s offered.now edge.0 (place_of result)) }
    ensures refused { IfErr accepted (λ _. place_of result ≡ nowhere) }
{
    let e = edge.0;
    let Ok(header) = accepted else {
        return Part {
            offset: 0,
            length: 0,
        };
    };
    if header.edges <= e {
        return Part {
            offset: 0,
            length: 0,
        };
    }
    let verdict = judge_answer_held(accepted, end1, end2, cost, mark, ts, mask, offered);
    let Ok(true) = verdict else {
        return Part {
            offset: 0,
            length: 0,
        };
    };
    answer_read::cost_part(offered, e as usize)
}

// Where a link's new cost stands in the frame offered as an answer; nowhere, of length 0, if the job frame is refused, has
// no such link, or the offered frame is not judged yes.
pub fn locate_cost(frame: &[u8], offered: &[u8], edge: Edge) -> Part
    ensures { CostLocated frame.now offered.now edge.0 (place_of result) }
{
    let mut end1 = [0u32; 256];
    let mut end2 = [0u32; 256];
    let mut cost = [0u32; 256];
    let mut mark = [0u32; 256];
    let mut ts = [0u32; 256];
    let mut mask = [0u64; 64];
    let accepted = accept(
        frame, &mut end1, &mut end2, &mut cost, &mut mark, &mut ts, &mut mask, true,
    );
    locate_cost_held(
        accepted, &end1, &end2, &cost, &mark, &ts, &mask, offered, edge,
    )
}

// The bytes of a link's new cost in the frame offered as an answer; none if the job frame is refused, has no such link, or
// the offered frame is not judged yes.
pub fn find_cost<'j, 'a>(frame: &'j [u8], offered: &'a [u8], edge: Edge) -> &'a [u8]
    ensures { CostFound frame.now offered.now edge.0 result.now }
{
    let part = locate_cost(frame, offered, edge);
    let first = part.offset;
    let end = first + part.length;
    &offered[first..end]
}
