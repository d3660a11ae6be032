// How a Rattle program uses the library: it answers the job of README's first minute, asks the judges, and prints the steps
// and the costs. It promises nothing but to be safe and to end; what it is given is what the services promise, and the gate
// holds what it prints to the file `stdout`.
#![tactic(auto)]

use ids::Edge;
use limits::{ANSWER_MOST, Refusal};
use reading::{AnswerRead, JobRead};
use std::io;

fn print_verdict(rt: &impl Print, name: &str, verdict: Result<bool, Refusal>) -> io::Result<()> {
    match verdict {
        Ok(true) => println!(rt; "{name}yes"),
        Ok(false) => println!(rt; "{name}no"),
        Err(refusal) => println!(rt; "{name}refused {refusal}"),
    }
}

// One new cost, read from the answer frame's own bytes: none are found if there is no such link. A link's number has a type of
// its own, so that no station is taken for it.
fn print_cost(rt: &impl Print, frame: &[u8], answer: &[u8], edge: Edge) -> io::Result<()> {
    let part = finding::find_cost(frame, answer, edge);
    let Some(number) = leb128::read_short(part, 0) else {
        return Ok(());
    };
    let link = edge.0;
    let cost = number.value;
    println!(rt; "link {link} costs {cost}")
}

// The steps, and the old and the new cost of each of the three links.
fn print_answer(rt: &impl Print, job: &JobRead, contents: &AnswerRead) -> io::Result<()> {
    let steps = contents.steps;
    println!(rt; "steps {steps}")?;
    for e in 0..3 {
        let old = job.links[e].cost;
        let new = contents.costs[e];
        println!(rt; "cost {old} becomes {new}")?;
    }
    Ok(())
}

// Judges the answer, reads its contents, and prints them.
fn show(rt: &impl Print, frame: &[u8], answer: &[u8]) -> io::Result<()> {
    print_verdict(
        rt,
        "answer proved best: ",
        judging::judge_answer(frame, answer),
    )?;
    let job = match reading::read_job(frame) {
        Ok(job) => job,
        Err(refusal) => return println!(rt; "refused {refusal}"),
    };
    let contents = match reading::read_answer(frame, answer) {
        Ok(Some(contents)) => contents,
        Ok(None) => return println!(rt; "no answer"),
        Err(refusal) => return println!(rt; "refused {refusal}"),
    };
    print_answer(rt, &job, &contents)?;
    print_cost(rt, frame, answer, Edge(2))
}

fn main(rt: HostRuntime) -> io::Result<()> {
    // three stations, three links; links 0 and 1 are the marked tree
    let frame = b"\x03\x03\x00\x01\x05\x01\x01\x02\x04\x01\x00\x02\x02\x00";
    print_verdict(&rt, "marked tree cheapest: ", judging::judge(frame))?;
    // long enough for every answer
    let mut area = [0u8; ANSWER_MOST];
    match answering::answer(frame, &mut area) {
        Ok(length) => show(&rt, frame, &area[..length]),
        Err(refusal) => println!(rt; "refused {refusal}"),
    }
}
