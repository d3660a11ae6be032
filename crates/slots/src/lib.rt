// A pair gets its slot, and the way back from its spare rank is turned (specs/Paired.antt; the model is in optimum's
// specs/Search.antt). The arrays are those of an exploration: `words` holds at 0..63 for each tree rank the slots over it; `links`
// at 0..63 the tree rank of each slot, and at 64 + u the way back of tree rank u, 64 times the slot, and the tree rank before.
#![tactic(auto)]

ghost use Rattle.std.specs.Prelude.{◌≡◌, ◌<◌, length};
ghost use Rattle.search.specs.Board.{Partners};
ghost use Rattle.slots.specs.Paired.{Filled, Turned, Pairing, PairPut};

use ids::{Slot, SpareRank, TreeRank};

// Puts a slot into the rows of a set of tree ranks.
fn fill(k: Slot, trees: u64, words: &mut [u64; 66])
    requires { (k.0 < 64) × (length words.old ≡ 66) }
    ensures { Filled k.0 trees words.old words.new }
{
    let mut left = trees;
    while left != 0 {
        let t = bits::lowest(left) as usize;
        words[t] = bits::with(words[t], k.0);
        left = bits::without_lowest(left);
    }
}

// Turns the way from tree rank `hit` back to `root`: the new slot is paired with `hit`, the slot that this had with the tree rank from
// which it was reached, and so on. As many turns as there are slots are enough.
fn turn(root: TreeRank, hit: TreeRank, slot: Slot, links: &mut [u32; 128])
    requires { (root.0 < 64) × (hit.0 < 64) × (slot.0 < 64) × (length links.old ≡ 128) × Partners links.old }
    ensures { Turned root.0 hit.0 slot.0 links.old links.new }
{
    let mut v = hit.0;
    let mut k = slot.0;
    for _ in 0..=slot.0 {
        links[k as usize] = v;
        if v == root.0 {
            return;
        }
        let way = links[(64 + v) as usize];
        v = way % 64;
        k = way / 64 % 64;
    }
}

// The goal gets a slot, and the way back is turned.
pub fn pair(
    t: TreeRank,
    goal: SpareRank,
    n: Slot,
    seen: u64,
    cols: &mut [u64; 256],
    words: &mut [u64; 66],
    links: &mut [u32; 128],
    spare: &mut [u32; 128],
    slot: &mut [u32; 256],
)
    requires { Pairing t.0 goal.0 n.0 seen cols.old words.old links.old spare.old slot.old }
    ensures { PairPut t.0 goal.0 n.0 seen cols.old words.old links.old spare.old
        slot.old cols.new words.new links.new spare.new slot.new }
{
    let g = goal.0 as usize;
    let column = cols[g];
    fill(n, column, words);
    cols[g] = 0;
    spare[n.0 as usize] = goal.0;
    slot[g] = n.0;
    turn(
        t,
        TreeRank(bits::lowest(bits::both(column, seen))),
        n,
        links,
    );
}
