// The library's functions for C, which crate `ist_c` exports (include/ist.h). Those on frames are handed on to the crates
// `ist_frames`, `ist_sheets`, `ist_replays`, `ist_finders` and `ist_readers`; those over a lent list of records are in list.rt.
#![tactic(auto)]

ghost use Rattle.answering.specs.Answering.{Answered};
ghost use Rattle.stepping.specs.Stepping.{SheetMade, SheetApplied};
ghost use Rattle.replaying.specs.Replayed.{LogReplayed};
ghost use Rattle.judging.specs.Verdicts.{TreeJudged, AnswerJudged};
ghost use Rattle.finding.specs.Parts.{LinkLocated, CostLocated};
ghost use Rattle.copying.specs.Copies.{JobCopied, AnswerCopied};
ghost use Rattle.codes.specs.Exports.{Said, Replied, JobTold, AnswerTold};
ghost use Rattle.ist_replays.specs.ReplayTold.{ReplayTold};

pub mod list;

// Answers a job frame into the area.
pub fn ist_answer(job: &[u8], area: &mut [u8], written: &mut usize) -> i32
    ensures { Replied (λ reply. Answered job.now area.old reply area.new) result written.new }
{
    ist_frames::answer(job, area, written)
}

// Is the marked tree of a job frame cheapest?
pub fn ist_judge(job: &[u8]) -> i32
    ensures { Said (TreeJudged job.now) result }
{
    ist_frames::judge(job)
}

// Is a frame an answer to the job frame?
pub fn ist_judge_answer(job: &[u8], answer: &[u8]) -> i32
    ensures { Said (AnswerJudged job.now answer.now) result }
{
    ist_frames::judge_answer(job, answer)
}

// Writes the sheet of the new costs of a job frame into the area.
pub fn ist_sheet(job: &[u8], costs: &[u8], area: &mut [u8], written: &mut usize) -> i32
    ensures { Replied (λ reply. SheetMade job.now costs.now area.old reply area.new) result
        written.new }
{
    ist_sheets::sheet(job, costs, area, written)
}

// Writes the costs that a sheet leads to from those of a job frame into the area.
pub fn ist_apply_sheet(job: &[u8], sheet: &[u8], area: &mut [u8], written: &mut usize) -> i32
    ensures { Replied (λ reply. SheetApplied job.now sheet.now area.old reply area.new) result
        written.new }
{
    ist_sheets::apply_sheet(job, sheet, area, written)
}

// Replays a packet log over the costs of a job frame, and writes the final costs into the area.
pub fn ist_replay(
    job: &[u8],
    log: &[u8],
    area: &mut [u8],
    written: &mut usize,
    first: &mut usize,
) -> i32
    ensures { ReplayTold (λ said. LogReplayed job.now log.now area.old said area.new) result
        written.new first.new }
{
    ist_replays::replay(job, log, area, written, first)
}

// Where a link's four numbers stand in its job frame.
pub fn ist_find_link(job: &[u8], link: u32, offset: &mut usize, length: &mut usize)
    ensures { LinkLocated job.now link (record { offset = offset.exit.now; size = length.new }) }
{
    ist_finders::find_link(job, link, offset, length);
}

// Where a link's new cost stands in an answer frame.
pub fn ist_find_cost(job: &[u8], answer: &[u8], link: u32, offset: &mut usize, length: &mut usize)
    ensures { CostLocated job.now answer.now link (record { offset = offset.exit.now; size = length.new }) }
{
    ist_finders::find_cost(job, answer, link, offset, length);
}

// Reads a job frame into the array, four numbers a link.
pub fn ist_read_job(job: &[u8], links: &mut [u32], stations: &mut u32, count: &mut usize) -> i32
    ensures { JobTold (λ said. JobCopied job.now links.old said links.new) result stations.new
        count.new }
{
    ist_readers::read_job(job, links, stations, count)
}

// Judges a frame as an answer to the job frame, and reads it into the arrays.
pub fn ist_read_answer(
    job: &[u8],
    answer: &[u8],
    costs: &mut [u32],
    pairs: &mut [u32],
    steps: &mut u32,
    cost_count: &mut usize,
    pair_count: &mut usize,
) -> i32
    ensures { AnswerTold (λ said. AnswerCopied job.now answer.now costs.old pairs.old said
        costs.new pairs.new) result steps.new cost_count.new pair_count.new }
{
    ist_readers::read_answer(job, answer, costs, pairs, steps, cost_count, pair_count)
}
