// Writes the step sheet of new costs.
#![tactic(auto)]

ghost use Rattle.std.specs.Prelude.{◌≡◌, ◌+◌, ◌≤◌, pos, ◌-ℤ◌, length};
ghost use Rattle.limits.specs.Limits.{max_number};
ghost use Rattle.frame.specs.Services.{written};
ghost use Rattle.codec.specs.Numbers.{Put, outcome};
ghost use Rattle.sheet.specs.Sheet.{InRange, coded, moves_of, sheet_frame};
ghost use Rattle.sheet.specs.Reading.{costs_at};
ghost use Rattle.sheet.proofs.EntryLaws.{entries_bytes};

use limits::Refusal;

// The code of a link's change; 0 if its cost stays.
fn change_code(old: u32, new: u32) -> u32
    requires le_max_number { old ≤ max_number }
    requires le_max_number_2 { new ≤ max_number }
    ensures { result ≡ coded (pos new -ℤ pos old) }
{
    if old <= new {
        return 2 * (new - old);
    }
    2 * (old - new) - 1
}

// How many of the first `edges` links move.
fn count_moved(edges: usize, old: &[u32; 256], new: &[u32; 256]) -> u32
    requires { edges ≤ 256 }
    ensures { result ≡ length (moves_of edges (costs_at old.now) (costs_at new.now)) }
{
    let mut count: u32 = 0;
    for e in 0..edges {
        if old[e] != new[e] {
            count += 1;
        }
    }
    count
}

// How many bytes the entries of the first `edges` links take.
fn entries_size(edges: usize, old: &[u32; 256], new: &[u32; 256]) -> usize
    requires edges_bound { edges ≤ 256 }
    requires in_range { InRange edges (costs_at old.now) }
    requires in_range_2 { InRange edges (costs_at new.now) }
    ensures { result ≡ length (entries_bytes (moves_of edges (costs_at old.now) (costs_at new.now))) }
{
    let mut length: usize = 0;
    for e in 0..edges {
        if old[e] != new[e] {
            let code = change_code(old[e], new[e]);
            length += leb128_write::size_long(e as u32);
            length += leb128_write::size_long(code);
        }
    }
    length
}

// Puts the entries of the first `edges` links at a position and gives the position behind them.
fn put_moves(area: &mut [u8], at: usize, edges: usize, old: &[u32; 256], new: &[u32; 256]) -> usize
    requires edges_bound { edges ≤ 256 }
    requires in_range { InRange edges (costs_at old.now) }
    requires in_range_2 { InRange edges (costs_at new.now) }
    requires in_bounds { at + length (entries_bytes (moves_of edges (costs_at old.now) (costs_at new.now))) ≤ length area.old }
    ensures { Put area.old at (entries_bytes (moves_of edges (costs_at old.now) (costs_at new.now))) result
        area.new }
{
    let mut next = at;
    for e in 0..edges {
        if old[e] != new[e] {
            let code = change_code(old[e], new[e]);
            let middle = leb128_write::write_long(area, next, e as u32);
            next = leb128_write::write_long(area, middle, code);
        }
    }
    next
}

// Writes the sheet of the new costs of the first `edges` links; question 7. A link below 256 takes at most two bytes, the code of
// a change four, the count two: where the area has room for that, the entries are not measured.
pub fn write_sheet(
    edges: usize,
    old: &[u32; 256],
    new: &[u32; 256],
    area: &mut [u8],
) -> Result<usize, Refusal>
    requires edges_bound { edges ≤ 256 }
    requires in_range { InRange edges (costs_at old.now) }
    requires in_range_2 { InRange edges (costs_at new.now) }
    ensures { outcome result area.new
        ≡ written 0 (sheet_frame (moves_of edges (costs_at old.now) (costs_at new.now))) 0 area.old }
{
    let count = count_moved(edges, old, new);
    if area.len() < 6 * count as usize + 2 {
        let front = leb128_write::size_long(count);
        if area.len() < front + entries_size(edges, old, new) {
            return Err(Refusal::Room);
        }
    }
    let behind = leb128_write::write_long(area, 0, count);
    Ok(put_moves(area, behind, edges, old, new))
}
