// The functions for C that answer and judge frames: each calls one service and carries its promise, with the reply or verdict in
// plain numbers. Crate `ist_c` exports them.
#![tactic(auto)]

ghost use Rattle.answering.specs.Answering.{Answered};
ghost use Rattle.judging.specs.Verdicts.{TreeJudged, AnswerJudged};
ghost use Rattle.codes.specs.Exports.{Said, Replied};

use codes::{code, tell};

// Answers a job frame into the area.
pub fn answer(job: &[u8], area: &mut [u8], written: &mut usize) -> i32
    ensures { Replied (λ reply. Answered job.now area.old reply area.new) result written.new }
{
    let reply = answering::answer(job, area);
    let told = tell(reply, written);
    told
}

// Is the marked tree of a job frame cheapest?
pub fn judge(job: &[u8]) -> i32
    ensures { Said (TreeJudged job.now) result }
{
    code(judging::judge(job).map_err(u32::from))
}

// Is a frame an answer to the job frame?
pub fn judge_answer(job: &[u8], answer: &[u8]) -> i32
    ensures { Said (AnswerJudged job.now answer.now) result }
{
    code(judging::judge_answer(job, answer).map_err(u32::from))
}
