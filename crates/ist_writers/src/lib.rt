// The functions for C on a list of links that write into an area, by the copy that crate `ist` takes of a lent list: each calls
// one service and carries its promise, with the reply in plain numbers.
#![tactic(auto)]

ghost use Rattle.accept.specs.ListJobs.{list_job};
ghost use Rattle.listed.specs.ListServices.{ListWritten, ListAnswered};
ghost use Rattle.codes.specs.Exports.{Of, Replied};

use codes::tell;
use records::ListCopy;

pub fn answer_copy(stations: u32, list: ListCopy, area: &mut [u8], written: &mut usize) -> i32
    ensures { Of list (λ ys. Replied (λ reply. ListAnswered (list_job stations ys) area.old reply area.new) result
        written.new) }
{
    let reply = writing::answer_links(stations, list, area);
    let told = tell(reply, written);
    told
}

pub fn write_copy(stations: u32, list: ListCopy, area: &mut [u8], written: &mut usize) -> i32
    ensures { Of list (λ ys. Replied (λ reply. ListWritten (list_job stations ys) area.old reply area.new) result
        written.new) }
{
    let frame = writing::write_links(stations, list, area);
    let said = tell(frame, written);
    said
}
