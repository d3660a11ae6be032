// Step sheets for a job frame: the sheet of new costs, and the costs that a sheet leads to, into an area.
#![tactic(auto)]

ghost use Rattle.std.specs.Prelude.{List, ℕ};
ghost use Rattle.stepping.specs.Stepping.{SheetMade, SheetApplied, AskedCosts, SomeCosts};

use accept::accept;
use job::Header;
use limits::Refusal;

// Writes the sheet of new costs for a job whose old costs are in the array and gives its length, or refuses it and writes nothing.
// Question 8 here: are the costs in form?
fn sheet_held(
    accepted: Result<Header, Refusal>,
    cost: &[u32; 256],
    costs: &[u8],
    area: &mut [u8],
) -> Result<usize, Refusal>
    requires { SomeCosts accepted cost.now }
    ensures { (s : List ℕ) → AskedCosts s accepted cost.now → SheetMade s costs.now area.old result area.new }
{
    let header = match accepted {
        Ok(header) => header,
        Err(refusal) => return Err(refusal),
    };
    let edges = header.edges as usize;
    let mut new = [0u32; 256];
    if !sheet_read::read_costs(costs, edges, &mut new) {
        return Err(Refusal::Sheet);
    }
    sheet_write::write_sheet(edges, cost, &new, area)
}

// Writes the costs that a sheet leads to for such a job and gives their length, or refuses it and writes nothing. The array serves as
// room. Question 8 here: is the sheet in form, and the results in range?
fn costs_held(
    accepted: Result<Header, Refusal>,
    cost: &mut [u32; 256],
    sheet: &[u8],
    area: &mut [u8],
) -> Result<usize, Refusal>
    requires { SomeCosts accepted cost.old }
    ensures { (s : List ℕ) → AskedCosts s accepted cost.old → SheetApplied s sheet.now area.old result area.new }
{
    let header = match accepted {
        Ok(header) => header,
        Err(first) => return Err(first),
    };
    let edges = header.edges as usize;
    if !sheet_read::apply_moves(sheet, edges, cost) {
        return Err(Refusal::Sheet);
    }
    codec::write_list(cost, edges, area)
}

// Writes the sheet of the new costs of a job frame into the area and gives its length, or refuses it and writes nothing.
pub fn sheet_of_costs(frame: &[u8], costs: &[u8], area: &mut [u8]) -> Result<usize, Refusal>
    ensures { SheetMade frame.now costs.now area.old result area.new }
{
    let mut end1 = [0u32; 256];
    let mut end2 = [0u32; 256];
    let mut cost = [0u32; 256];
    let mut mark = [0u32; 256];
    let mut ts = [0u32; 256];
    let mut mask = [0u64; 64];
    let accepted = accept(
        frame, &mut end1, &mut end2, &mut cost, &mut mark, &mut ts, &mut mask, false,
    );
    sheet_held(accepted, &cost, costs, area)
}

// Writes the costs that a sheet leads to from those of a job frame into the area and gives their length, or refuses it and writes nothing.
pub fn costs_of_sheet(frame: &[u8], sheet: &[u8], area: &mut [u8]) -> Result<usize, Refusal>
    ensures { SheetApplied frame.now sheet.now area.old result area.new }
{
    let mut end1 = [0u32; 256];
    let mut end2 = [0u32; 256];
    let mut cost = [0u32; 256];
    let mut mark = [0u32; 256];
    let mut ts = [0u32; 256];
    let mut mask = [0u64; 64];
    let accepted = accept(
        frame, &mut end1, &mut end2, &mut cost, &mut mark, &mut ts, &mut mask, false,
    );
    costs_held(accepted, &mut cost, sheet, area)
}
