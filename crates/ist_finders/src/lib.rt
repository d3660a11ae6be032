// The finders for C: each calls one service and carries its promise, with the place as an offset and a length. Crate `ist_c`
// exports them.
#![tactic(auto)]

ghost use Rattle.finding.specs.Parts.{LinkLocated, CostLocated};

use ids::Edge;

// Where a link's four numbers stand in its job frame.
pub fn find_link(job: &[u8], link: u32, offset: &mut usize, length: &mut usize)
    ensures { LinkLocated job.now link (record { offset = offset.exit.now; size = length.new }) }
{
    let numbers = finding::locate_link(job, Edge(link));
    *offset = numbers.offset;
    *length = numbers.length;
}

// Where a link's new cost stands in an answer frame.
pub fn find_cost(job: &[u8], answer: &[u8], link: u32, offset: &mut usize, length: &mut usize)
    ensures { CostLocated job.now answer.now link (record { offset = offset.exit.now; size = length.new }) }
{
    let cost = finding::locate_cost(job, answer, Edge(link));
    *offset = cost.offset;
    *length = cost.length;
}
