// Services on lists of links that write into an area: the list's job frame, or the answer to it. What is given of a list, and
// what is promised of it, is as in crate `lists`.
#![tactic(auto)]

ghost use Rattle.answering.specs.Answering.{Untouched};
ghost use Rattle.accept_lists.specs.Given.{Given};
ghost use Rattle.listed.specs.ListServices.{ListWritten, ListAnswered};

use accept_lists::accept_links;
use answering::answer_held;
use limits::Refusal;
use records::ListCopy;

// Writes the job frame of a list of records into the area and gives its length, or refuses it and writes nothing.
pub fn write_links(nodes: u32, list: ListCopy, area: &mut [u8]) -> Result<usize, Refusal>
    ensures { Given nodes list (λ n. Untouched n area.old result area.new)
        (λ j. ListWritten j area.old result area.new) }
{
    let mut end1 = [0u32; 256];
    let mut end2 = [0u32; 256];
    let mut cost = [0u32; 256];
    let mut mark = [0u32; 256];
    let mut ts = [0u32; 256];
    let mut mask = [0u64; 64];
    let accepted = accept_links(
        nodes, list, &mut end1, &mut end2, &mut cost, &mut mark, &mut ts, &mut mask,
    );
    let (earlier, nodes, edges) = match accepted {
        Ok(header) => (Ok(()), header.nodes, header.edges as usize),
        Err(refusal) => (Err(refusal), 0, 0),
    };
    job_write::write_job(earlier, nodes, edges, &end1, &end2, &cost, &mark, area, 0)
}

// Writes the answer to a list of records into the area and gives its length, or refuses it and writes nothing.
pub fn answer_links(nodes: u32, list: ListCopy, area: &mut [u8]) -> Result<usize, Refusal>
    ensures { Given nodes list (λ n. Untouched n area.old result area.new)
        (λ j. ListAnswered j area.old result area.new) }
{
    let mut end1 = [0u32; 256];
    let mut end2 = [0u32; 256];
    let mut cost = [0u32; 256];
    let mut mark = [0u32; 256];
    let mut ts = [0u32; 256];
    let mut mask = [0u64; 64];
    let accepted = accept_links(
        nodes, list, &mut end1, &mut end2, &mut cost, &mut mark, &mut ts, &mut mask,
    );
    answer_held(
        accepted, &mut end1, &mut end2, &mut cost, &mut mark, &ts, &mask, area,
    )
}
