// The functions for C over a lent list of link records: each hands a copy to its function of crate `ist_lists` or `ist_writers`.
ghost use Rattle.judging.specs.Verdicts.{TreeJudged, AnswerJudged};
ghost use Rattle.accept.specs.ListJobs.{list_job};
ghost use Rattle.listed.specs.ListServices.{ListWritten, ListAnswered, ListJudged, ListCostLocated};
ghost use Rattle.codes.specs.Exports.{Said, Replied};

use records::Link;

// Is the marked tree of a list cheapest?
pub fn ist_judge_list(stations: u32, list: &[Link]) -> i32
    ensures { Said (ListJudged (list_job stations list.now) TreeJudged) result }
{
    let copy = records::copy_list(list);
    ist_lists::judge_copy(stations, copy)
}

// Is a frame an answer to a list?
pub fn ist_judge_answer_list(stations: u32, list: &[Link], answer: &[u8]) -> i32
    ensures { Said (ListJudged (list_job stations list.now) (λ s. AnswerJudged s answer.now)) result }
{
    let copy = records::copy_list(list);
    ist_lists::judge_answer_copy(stations, copy, answer)
}

// Answers a list into the area.
pub fn ist_answer_list(stations: u32, list: &[Link], area: &mut [u8], written: &mut usize) -> i32
    ensures { Replied (λ reply. ListAnswered (list_job stations list.now) area.old reply area.new) result
        written.new }
{
    let copy = records::copy_list(list);
    ist_writers::answer_copy(stations, copy, area, written)
}

// Writes the job frame of a list into the area.
pub fn ist_write_job(stations: u32, list: &[Link], area: &mut [u8], written: &mut usize) -> i32
    ensures { Replied (λ reply. ListWritten (list_job stations list.now) area.old reply area.new) result
        written.new }
{
    let copy = records::copy_list(list);
    ist_writers::write_copy(stations, copy, area, written)
}

// Where a link's new cost stands in a frame that is offered as an answer to a list.
pub fn ist_find_cost_list(
    stations: u32,
    list: &[Link],
    answer: &[u8],
    link: u32,
    offset: &mut usize,
    length: &mut usize,
)
    ensures { ListCostLocated (list_job stations list.now) answer.now link
        (record { offset = offset.exit.now; size = length.new }) }
{
    let copy = records::copy_list(list);
    ist_lists::locate_copy(stations, copy, answer, link, offset, length);
}
