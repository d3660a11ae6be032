// Links and lists of numbers from the library's arrays into the first places of an array of any length.
#![tactic(auto)]

ghost use Rattle.std.specs.Prelude.{◌≡◌, ◌*◌, ◌≤◌, length, take};
ghost use Rattle.std.proofs.lemmas.List.Edits.{sets};
ghost use Rattle.codec.specs.Numbers.{numbers_at};
ghost use Rattle.filling.specs.Filling.{link_numbers};

use records::Link;

// The numbers of the first so many links, in the first places of the array.
pub fn copy_links(links: [Link; 256], count: usize, room: &mut [u32])
    requires count_bound { count ≤ 256 }
    requires count_in_bounds { 4 * count ≤ length room.old }
    ensures { room.new ≡ sets room.old 0 (link_numbers (take count links)) }
{
    for (e, l) in links[..count].iter().enumerate() {
        room[4 * e] = l.end1;
        room[4 * e + 1] = l.end2;
        room[4 * e + 2] = l.cost;
        room[4 * e + 3] = l.mark;
    }
}

// The first so many numbers, in the first places of the array.
pub fn copy_numbers(values: &[u32], count: usize, room: &mut [u32])
    requires count_in_bounds { count ≤ length values.now }
    requires count_in_bounds_2 { count ≤ length room.old }
    ensures { room.new ≡ sets room.old 0 (numbers_at count values.now) }
{
    for (i, value) in values[..count].iter().enumerate() {
        room[i] = *value;
    }
}
