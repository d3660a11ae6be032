// Answer frames: the writer of an answer held in arrays, costs in link order, tree link and spare link of the pairs by turns.
#![tactic(auto)]

ghost use Rattle.std.specs.Prelude.{◌≡◌, ◌+◌, ◌*◌, ◌<◌, ◌≤◌, Err, IfErr, OnOk, leb, length, set};
ghost use Rattle.frame.specs.AnswerMeaning.{answer_frame};
ghost use Rattle.frame.specs.Services.{written};
ghost use Rattle.codec.specs.Numbers.{Put, Told, outcome};
ghost use Rattle.codec.specs.Held.{answer_front, answer_at};
ghost use Rattle.answer.specs.Contents.{mate_pairs, PairsListed};

use ids::Edge;
use limits::Refusal;

// How many bytes of the answer frame stand before its pairs.
fn front_size(steps: u32, edges: usize, costs: &[u32; 256], count: usize) -> usize
    requires edges_bound { edges ≤ 256 }
    requires count_bound { count ≤ 64 }
    ensures { result ≡ length (answer_front steps edges costs.now count) }
{
    leb128_write::size_long(steps)
        + codec::numbers_size(costs, edges)
        + leb128_write::size_short(count as u32)
}

// Does the answer frame fit into so many bytes? Steps take at most four, a cost three, a count of at most 64 one: where the pairs
// leave room for that, only they are measured.
fn fits(
    steps: u32,
    edges: usize,
    costs: &[u32; 256],
    count: usize,
    pairs: &[u32; 128],
    room: usize,
) -> bool
    requires edges_bound { edges ≤ 256 }
    requires count_bound { count ≤ 64 }
    ensures { result ≡ leb (length (answer_frame (answer_at steps edges costs.now count pairs.now))) room }
{
    let behind = codec::numbers_size(pairs, 2 * count);
    if room < behind {
        return false;
    }
    let left = room - behind;
    if 5 + 3 * edges <= left {
        return true;
    }
    front_size(steps, edges, costs, count) <= left
}

// Puts the answer frame at a position and gives the position behind it.
fn put_answer(
    area: &mut [u8],
    at: usize,
    steps: u32,
    edges: usize,
    costs: &[u32; 256],
    count: usize,
    pairs: &[u32; 128],
) -> usize
    requires edges_bound { edges ≤ 256 }
    requires count_bound { count ≤ 64 }
    requires pairs_in_bounds { at + length (answer_frame (answer_at steps edges costs.now count pairs.now)) ≤ length area.old }
    ensures { Put area.old at (answer_frame (answer_at steps edges costs.now count pairs.now)) result area.new }
{
    let first = leb128_write::write_long(area, at, steps);
    let middle = codec::write_numbers(area, first, costs, edges);
    let last = leb128_write::write_short(area, middle, count as u32);
    codec::write_numbers(area, last, pairs, 2 * count)
}

// Writes the answer frame at a position of the area; question 7.
fn write_frame(
    steps: u32,
    edges: usize,
    costs: &[u32; 256],
    count: usize,
    pairs: &[u32; 128],
    area: &mut [u8],
    at: usize,
) -> Result<usize, Refusal>
    requires edges_bound { edges ≤ 256 }
    requires count_bound { count ≤ 64 }
    ensures { outcome result area.new
        ≡ written 0 (answer_frame (answer_at steps edges costs.now count pairs.now)) at area.old }
{
    if area.len() < at {
        return Err(Refusal::Room);
    }
    if !fits(steps, edges, costs, count, pairs, area.len() - at) {
        return Err(Refusal::Room);
    }
    let behind = put_answer(area, at, steps, edges, costs, count, pairs);
    Ok(behind - at)
}

// Writes the answer frame at a position of the area, unless there was an error before, which is handed on; question 7, in the
// caller's own errors.
pub fn write_answer<E: Copy + From<Refusal>>(
    earlier: Result<(), E>,
    steps: u32,
    edges: usize,
    costs: &[u32; 256],
    count: usize,
    pairs: &[u32; 128],
    area: &mut [u8],
    at: usize,
) -> Result<usize, E>
    requires { OnOk earlier ((edges ≤ 256) × (count ≤ 64)) }
    ensures refused { IfErr earlier (λ e. (result ≡ Err e) × (area.new ≡ area.old)) }
    ensures written { OnOk earlier (Told E.from_gives result (λ r. outcome r area.new
        ≡ written 0 (answer_frame (answer_at steps edges costs.now count pairs.now)) at area.old)) }
{
    if earlier.is_err() {
        return earlier.map(|_| 0);
    }
    let length = write_frame(steps, edges, costs, count, pairs, area, at)?;
    Ok(length)
}

// Puts a pair at a place of the list.
fn put_pair(place: usize, tree: Edge, spare: Edge, pairs: &mut [u32; 128])
    requires { place < 64 }
    ensures { pairs.new ≡ set (set pairs.old (2 * place) tree.0) (2 * place + 1) spare.0 }
{
    pairs[2 * place] = tree.0;
    pairs[2 * place + 1] = spare.0;
}

// Lists the pairs of `mate`, rising by tree edge: mate[e] is s + 1 for the spare edge s paired with tree edge e, 0 for
// none. Gives how many there are.
pub fn list_pairs(edges: usize, mate: &[u32; 256], pairs: &mut [u32; 128]) -> usize
    requires edges_bound { edges ≤ 256 }
    requires mate_len_bound { length (mate_pairs edges mate.now) ≤ 64 }
    requires pairs_len { length pairs.old ≡ 128 }
    ensures { PairsListed (mate_pairs edges mate.now) result pairs.new }
{
    let mut count: usize = 0;
    for (e, m) in mate[..edges].iter().enumerate() {
        if 0 < *m {
            let tree = e as u32;
            let spare = *m - 1;
            put_pair(count, Edge(tree), Edge(spare), pairs);
            count += 1;
        }
    }
    count
}
