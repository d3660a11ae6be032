// The exploration of alternating paths over the pairs so far (specs/Board.antt; the model is in optimum's specs/Search.antt).
// `words` holds at 0..63 for each tree rank the slots over it, at 64 the tree ranks seen, at 65 those at which an
// exploration ends. `links` holds at 0..63 the tree rank of each slot, at 64 + u the way back of tree rank u: 64 times the
// slot, and the tree rank before. The live slots go by value: those that are left are handed back.
#![tactic(auto)]

ghost use Rattle.std.specs.Prelude.{◌≡◌, true, ◌<◌};
ghost use Rattle.bits.specs.Bit.{bit};
ghost use Rattle.search.specs.Board.{Ready, TreeTried, SlotTried, Explored};

use ids::{Slot, TreeRank};

// Tree rank `t` tries the live slots over it, the last first.
#[cycle(try_slot_try_tree)]
fn try_tree(t: TreeRank, live: u64, words: &mut [u64; 66], links: &mut [u32; 128]) -> u64
    requires { Ready t.0 words.old links.old }
    ensures { TreeTried t.0 live words.old links.old words.new links.new result }
{
    let mut left = live;
    loop {
        let over = bits::both(words[t.0 as usize], left);
        if over == 0 {
            return left;
        }
        left = try_slot(t, Slot(bits::highest(over)), left, words, links);
    }
}

// The live slot `k`, tried from tree rank `t`, leads to its own tree rank, and on from there unless the exploration ends.
#[cycle(try_slot_try_tree)]
fn try_slot(t: TreeRank, k: Slot, live: u64, words: &mut [u64; 66], links: &mut [u32; 128]) -> u64
    requires { (k.0 < 64) × (bit live k.0 ≡ true) × Ready t.0 words.old links.old }
    ensures { SlotTried t.0 k.0 live words.old links.old words.new links.new result }
{
    let u = links[k.0 as usize];
    links[(64 + u) as usize] = 64 * k.0 + t.0;
    words[64] = bits::with(words[64], u);
    if bits::has(words[65], u) {
        return 0;
    }
    let left = bits::without(live, k.0);
    if bits::both(words[u as usize], left) == 0 {
        return left;
    }
    try_tree(TreeRank(u), left, words, links)
}

// An exploration from tree rank `t` over the live slots, which ends at the first of the tree ranks `ends` that it comes to.
pub fn explore(
    t: TreeRank,
    live: u64,
    ends: u64,
    words: &mut [u64; 66],
    links: &mut [u32; 128],
) -> u64
    requires { Ready t.0 words.old links.old }
    ensures { Explored t.0 live ends words.old links.old words.new links.new result }
{
    words[64] = bits::with(0, t.0);
    words[65] = ends;
    if bits::has(ends, t.0) {
        return 0;
    }
    try_tree(t, live, words, links)
}
