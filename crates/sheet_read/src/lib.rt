// Reads what a host sends beside a job: new costs in link order, or a step sheet, which is applied to the costs.
#![tactic(auto)]

ghost use Rattle.std.specs.Prelude.{◌≡◌, ◌≤◌, pos, ◌+ℤ◌, length};
ghost use Rattle.limits.specs.Limits.{max_number};
ghost use Rattle.codec.specs.Numbers.{numbers_at};
ghost use Rattle.sheet.specs.Sheet.{InRange};
ghost use Rattle.sheet.specs.Reading.{change_from, cost_from, may_move, apply_sheet, read_costs, costs_at};
ghost use Rattle.sheet_read.specs.Applying.{entry_at, in_range, given};

use limits::MOST_NUMBER;

// An entry of a sheet: a link, the code of its change, and the position behind them.
#[derive(Clone, Copy)]
struct Entry {
    edge: u32,
    code: u32,
    next: usize,
}

// The entry at a position; none if no two numbers in shortest form stand there.
fn entry_at(sheet: &[u8], at: usize) -> Option<Entry>
    ensures { result ≡ entry_at sheet.now at }
{
    let link = leb128::read_long(sheet, at)?;
    let code = leb128::read_long(sheet, link.next)?;
    Some(Entry {
        edge: link.value,
        code: code.value,
        next: code.next,
    })
}

// May this link follow, with a change of this code? Links rise and are in the job, and no change is 0.
fn may_move(edges: usize, least: u32, edge: u32, code: u32) -> bool
    ensures { result ≡ may_move edges least edge code }
{
    least <= edge && (edge as usize) < edges && code != 0
}

// The cost that a change of this code leads to, an even one up, an odd one down; none if it is below 0 or above the largest.
fn moved_cost(old: u32, code: u32) -> Option<u32>
    requires { old ≤ max_number }
    ensures { result ≡ in_range (cost_from (pos old +ℤ change_from code)) }
{
    let half = code / 2;
    if code % 2 == 0 {
        if MOST_NUMBER - old < half {
            return None;
        }
        return Some(old + half);
    }
    if old <= half {
        return None;
    }
    Some(old - half - 1)
}

// Applies the moves of a sheet to the costs of the first `edges` links; false, if it is not in form or leads out of the range, and then the costs
// may be changed in part.
pub fn apply_moves(sheet: &[u8], edges: usize, costs: &mut [u32; 256]) -> bool
    requires edges_bound { edges ≤ 256 }
    requires costs_len { length costs.old ≡ 256 }
    requires in_range { InRange edges (costs_at costs.old) }
    ensures { given result (costs_at costs.new) ≡ apply_sheet edges (costs_at costs.old) sheet.now }
{
    let Some(count) = leb128::read_long(sheet, 0) else {
        return false;
    };
    let mut at = count.next;
    let mut least: u32 = 0;
    for _ in 0..count.value {
        let Some(entry) = entry_at(sheet, at) else {
            return false;
        };
        if !may_move(edges, least, entry.edge, entry.code) {
            return false;
        }
        let place = entry.edge as usize;
        let Some(cost) = moved_cost(costs[place], entry.code) else {
            return false;
        };
        costs[place] = cost;
        least = entry.edge + 1;
        at = entry.next;
    }
    at == sheet.len()
}

// Reads one cost for each of the links; false, if the frame does not hold just these.
#[tactic(auto, using(crate::specs::ApplyLaws::costs_wrong))]
pub fn read_costs(frame: &[u8], edges: usize, costs: &mut [u32; 256]) -> bool
    requires edges_bound { edges ≤ 256 }
    requires costs_len { length costs.old ≡ 256 }
    ensures { given result (numbers_at edges costs.new) ≡ read_costs edges frame.now }
{
    let Some(total) = division::count_numbers(frame) else {
        return false;
    };
    if total != edges {
        return false;
    }
    codec::read_numbers(frame, 0, costs, edges);
    true
}
