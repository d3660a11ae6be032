// Services on lists of links that judge and find. The list comes as what a function over a lent list of records hands on: its
// length, the word that its numbers are small and its first 256 links. Each service promises its outcome for
// whatever it is given, be it of a list or not; links of the copy behind the length do not count.
#![tactic(auto)]

ghost use Rattle.std.specs.Prelude.{◌≡◌};
ghost use Rattle.limits.specs.Refusals.{refusal_in};
ghost use Rattle.judging.specs.Verdicts.{TreeJudged, AnswerJudged};
ghost use Rattle.frame.specs.Services.{nowhere};
ghost use Rattle.codec.specs.Numbers.{place_of};
ghost use Rattle.accept_lists.specs.Given.{Given};
ghost use Rattle.listed.specs.ListServices.{ListJudged, ListCostLocated};

use accept_lists::accept_links;
use codec::Part;
use finding::locate_cost_held;
use ids::Edge;
use judging::{judge_answer_held, judge_held};
use limits::Refusal;
use records::ListCopy;

// Is the marked tree of a list of records cheapest?
pub fn judge_links(nodes: u32, list: ListCopy) -> Result<bool, Refusal>
    ensures { Given nodes list (λ n. refusal_in result ≡ n) (λ j. ListJudged j TreeJudged result) }
{
    let mut end1 = [0u32; 256];
    let mut end2 = [0u32; 256];
    let mut cost = [0u32; 256];
    let mut mark = [0u32; 256];
    let mut ts = [0u32; 256];
    let mut mask = [0u64; 64];
    let accepted = accept_links(
        nodes, list, &mut end1, &mut end2, &mut cost, &mut mark, &mut ts, &mut mask,
    );
    judge_held(accepted, &end1, &end2, &cost, &mark, &ts, &mask)
}

// Does a frame hold an answer to a list of records?
pub fn judge_answer_links(nodes: u32, list: ListCopy, offered: &[u8]) -> Result<bool, Refusal>
    ensures { Given nodes list (λ n. refusal_in result ≡ n) (λ j. ListJudged j (λ s. AnswerJudged s offered.now) result) }
{
    let mut end1 = [0u32; 256];
    let mut end2 = [0u32; 256];
    let mut cost = [0u32; 256];
    let mut mark = [0u32; 256];
    let mut ts = [0u32; 256];
    let mut mask = [0u64; 64];
    let accepted = accept_links(
        nodes, list, &mut end1, &mut end2, &mut cost, &mut mark, &mut ts, &mut mask,
    );
    judge_answer_held(accepted, &end1, &end2, &cost, &mark, &ts, &mask, offered)
}

// Where a link's new cost stands in the frame offered as an answer to a list of records; nowhere, of length 0, if the list is
// refused, has no such link, or the offered frame is not judged yes.
pub fn locate_cost_links(nodes: u32, list: ListCopy, offered: &[u8], edge: Edge) -> Part
    ensures { Given nodes list (λ _. place_of result ≡ nowhere) (λ j. ListCostLocated j offered.now edge.0 (place_of result)) }
{
    let mut end1 = [0u32; 256];
    let mut end2 = [0u32; 256];
    let mut cost = [0u32; 256];
    let mut mark = [0u32; 256];
    let mut ts = [0u32; 256];
    let mut mask = [0u64; 64];
    let accepted = accept_links(
        nodes, list, &mut end1, &mut end2, &mut cost, &mut mark, &mut ts, &mut mask,
    );
    locate_cost_held(
        accepted, &end1, &end2, &cost, &mark, &ts, &mask, offered, edge,
    )
}
