// The functions for C on step sheets: each calls one service and carries its promise, with the reply in plain numbers. Crate `ist_c`
// exports them.
#![tactic(auto)]

ghost use Rattle.stepping.specs.Stepping.{SheetMade, SheetApplied};
ghost use Rattle.codes.specs.Exports.{Replied};

use codes::tell;

// Writes the sheet of the new costs of a job frame into the area.
pub fn sheet(job: &[u8], costs: &[u8], area: &mut [u8], written: &mut usize) -> i32
    ensures { Replied (λ reply. SheetMade job.now costs.now area.old reply area.new) result
        written.new }
{
    let made = stepping::sheet_of_costs(job, costs, area);
    let said = tell(made, written);
    said
}

// Writes the costs that a sheet leads to from those of a job frame into the area.
pub fn apply_sheet(job: &[u8], sheet: &[u8], area: &mut [u8], written: &mut usize) -> i32
    ensures { Replied (λ reply. SheetApplied job.now sheet.now area.old reply area.new) result
        written.new }
{
    let applied = stepping::costs_of_sheet(job, sheet, area);
    let told = tell(applied, written);
    told
}
