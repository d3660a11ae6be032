// The library's functions for C (include/ist.h), as a static library: each calls the function of crate `ist` of its name, with
// the same promise.
#![tactic(auto)]

ghost use Rattle.accept.specs.ListJobs.{list_job};
ghost use Rattle.answering.specs.Answering.{Answered};
ghost use Rattle.codes.specs.Exports.{Said, Replied, JobTold, AnswerTold};
ghost use Rattle.copying.specs.Copies.{JobCopied, AnswerCopied};
ghost use Rattle.finding.specs.Parts.{LinkLocated, CostLocated};
ghost use Rattle.ist_replays.specs.ReplayTold.{ReplayTold};
ghost use Rattle.judging.specs.Verdicts.{TreeJudged, AnswerJudged};
ghost use Rattle.listed.specs.ListServices.{ListWritten, ListAnswered, ListJudged, ListCostLocated};
ghost use Rattle.replaying.specs.Replayed.{LogReplayed};
ghost use Rattle.stepping.specs.Stepping.{SheetMade, SheetApplied};

use ist::list;
use records::Link;

// Answers a job frame into the area.
#[unsafe(no_mangle)]
pub extern "C" fn ist_answer(job: &[u8], area: &mut [u8], written: &mut usize) -> i32
    ensures { Replied (λ reply. Answered job.now area.old reply area.new) result written.new }
{
    ist::ist_answer(job, area, written)
}

// Is the marked tree of a job frame cheapest?
#[unsafe(no_mangle)]
pub extern "C" fn ist_judge(job: &[u8]) -> i32
    ensures { Said (TreeJudged job.now) result }
{
    ist::ist_judge(job)
}

// Is a frame an answer to the job frame?
#[unsafe(no_mangle)]
pub extern "C" fn ist_judge_answer(job: &[u8], answer: &[u8]) -> i32
    ensures { Said (AnswerJudged job.now answer.now) result }
{
    ist::ist_judge_answer(job, answer)
}

// Writes the sheet of the new costs of a job frame into the area.
#[unsafe(no_mangle)]
pub extern "C" fn ist_sheet(job: &[u8], costs: &[u8], area: &mut [u8], written: &mut usize) -> i32
    ensures { Replied (λ reply. SheetMade job.now costs.now area.old reply area.new) result
        written.new }
{
    ist::ist_sheet(job, costs, area, written)
}

// Writes the costs that a sheet leads to from those of a job frame into the area.
#[unsafe(no_mangle)]
pub extern "C" fn ist_apply_sheet(
    job: &[u8],
    sheet: &[u8],
    area: &mut [u8],
    written: &mut usize,
) -> i32
    ensures { Replied (λ reply. SheetApplied job.now sheet.now area.old reply area.new) result
        written.new }
{
    ist::ist_apply_sheet(job, sheet, area, written)
}

// Replays a packet log over the costs of a job frame, and writes the final costs into the area.
#[unsafe(no_mangle)]
pub extern "C" fn ist_replay(
    job: &[u8],
    log: &[u8],
    area: &mut [u8],
    written: &mut usize,
    first: &mut usize,
) -> i32
    ensures { ReplayTold (λ said. LogReplayed job.now log.now area.old said area.new) result
        written.new first.new }
{
    ist::ist_replay(job, log, area, written, first)
}

// Where a link's four numbers stand in its job frame.
#[unsafe(no_mangle)]
pub extern "C" fn ist_find_link(job: &[u8], link: u32, offset: &mut usize, length: &mut usize)
    ensures { LinkLocated job.now link (record { offset = offset.exit.now; size = length.new }) }
{
    ist::ist_find_link(job, link, offset, length);
}

// Where a link's new cost stands in an answer frame.
#[unsafe(no_mangle)]
pub extern "C" fn ist_find_cost(
    job: &[u8],
    answer: &[u8],
    link: u32,
    offset: &mut usize,
    length: &mut usize,
)
    ensures { CostLocated job.now answer.now link (record { offset = offset.exit.now; size = length.new }) }
{
    ist::ist_find_cost(job, answer, link, offset, length);
}

// Reads a job frame into the array, four numbers a link.
#[unsafe(no_mangle)]
pub extern "C" fn ist_read_job(
    job: &[u8],
    links: &mut [u32],
    stations: &mut u32,
    count: &mut usize,
) -> i32
    ensures { JobTold (λ said. JobCopied job.now links.old said links.new) result stations.new
        count.new }
{
    ist::ist_read_job(job, links, stations, count)
}

// Judges a frame as an answer to the job frame, and reads it into the arrays.
#[unsafe(no_mangle)]
pub extern "C" fn ist_read_answer(
    job: &[u8],
    answer: &[u8],
    costs: &mut [u32],
    pairs: &mut [u32],
    steps: &mut u32,
    cost_count: &mut usize,
    pair_count: &mut usize,
) -> i32
    ensures { AnswerTold (λ said. AnswerCopied job.now answer.now costs.old pairs.old said
        costs.new pairs.new) result steps.new cost_count.new pair_count.new }
{
    ist::ist_read_answer(job, answer, costs, pairs, steps, cost_count, pair_count)
}

// Is the marked tree of a list cheapest?
#[unsafe(no_mangle)]
pub extern "C" fn ist_judge_list(stations: u32, list: &[Link]) -> i32
    ensures { Said (ListJudged (list_job stations list.now) TreeJudged) result }
{
    list::ist_judge_list(stations, list)
}

// Is a frame an answer to a list?
#[unsafe(no_mangle)]
pub extern "C" fn ist_judge_answer_list(stations: u32, list: &[Link], answer: &[u8]) -> i32
    ensures { Said (ListJudged (list_job stations list.now) (λ s. AnswerJudged s answer.now)) result }
{
    list::ist_judge_answer_list(stations, list, answer)
}

// Answers a list into the area.
#[unsafe(no_mangle)]
pub extern "C" fn ist_answer_list(
    stations: u32,
    list: &[Link],
    area: &mut [u8],
    written: &mut usize,
) -> i32
    ensures { Replied (λ reply. ListAnswered (list_job stations list.now) area.old reply area.new) result
        written.new }
{
    list::ist_answer_list(stations, list, area, written)
}

// Writes the job frame of a list into the area.
#[unsafe(no_mangle)]
pub extern "C" fn ist_write_job(
    stations: u32,
    list: &[Link],
    area: &mut [u8],
    written: &mut usize,
) -> i32
    ensures { Replied (λ reply. ListWritten (list_job stations list.now) area.old reply area.new) result
        written.new }
{
    list::ist_write_job(stations, list, area, written)
}

// Where a link's new cost stands in a frame that is offered as an answer to a list.
#[unsafe(no_mangle)]
pub extern "C" fn ist_find_cost_list(
    stations: u32,
    list: &[Link],
    answer: &[u8],
    link: u32,
    offset: &mut usize,
    length: &mut usize,
)
    ensures { ListCostLocated (list_job stations list.now) answer.now link
        (record { offset = offset.exit.now; size = length.new }) }
{
    list::ist_find_cost_list(stations, list, answer, link, offset, length);
}
