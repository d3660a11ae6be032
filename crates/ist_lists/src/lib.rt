// The functions for C that judge a list of links or find a cost, by the copy that crate `ist` takes of a lent list: each calls
// one service and carries its promise, with the verdict in plain numbers.
#![tactic(auto)]

ghost use Rattle.judging.specs.Verdicts.{TreeJudged, AnswerJudged};
ghost use Rattle.accept.specs.ListJobs.{list_job};
ghost use Rattle.listed.specs.ListServices.{ListJudged, ListCostLocated};
ghost use Rattle.codes.specs.Exports.{Of, Said};

use codes::code;
use ids::Edge;
use records::ListCopy;

pub fn judge_copy(stations: u32, list: ListCopy) -> i32
    ensures { Of list (λ ys. Said (ListJudged (list_job stations ys) TreeJudged) result) }
{
    code(lists::judge_links(stations, list).map_err(u32::from))
}

pub fn judge_answer_copy(stations: u32, list: ListCopy, answer: &[u8]) -> i32
    ensures { Of list (λ ys. Said (ListJudged (list_job stations ys) (λ s. AnswerJudged s answer.now)) result) }
{
    code(lists::judge_answer_links(stations, list, answer).map_err(u32::from))
}

pub fn locate_copy(
    stations: u32,
    list: ListCopy,
    answer: &[u8],
    link: u32,
    offset: &mut usize,
    length: &mut usize,
)
    ensures { Of list (λ ys. ListCostLocated (list_job stations ys) answer.now link
        (record { offset = offset.exit.now; size = length.new })) }
{
    let cost = lists::locate_cost_links(stations, list, answer, Edge(link));
    *offset = cost.offset;
    *length = cost.length;
}
