// The labels of the pairs: the lowest costs (specs/Labels.antt; the model is in optimum's specs/Lowest.antt).
#![tactic(auto)]

ghost use Rattle.std.specs.Prelude.{◌≡◌, ℕ, ◌-◌, ◌<◌, ◌≤◌, get_or, length};
ghost use Rattle.bits.specs.Bit.{bit};
ghost use Rattle.graph.specs.Rank.{cost_at};
ghost use Rattle.search.specs.Board.{Partners};
ghost use Rattle.labels.specs.Labels.{paired_below, LabelPut, LabelRoom, LabelledFrom, SpareLabelled, SparesRead, SparesLabelled, Labellable, Labelled};

use ids::{SpareRank, TreeRank};
use matching::cost_at;

// The tree ranks that are in a pair.
fn paired_trees(slots: u32, links: &[u32; 128]) -> u64
    requires { (slots ≤ 64) × Partners links.now }
    ensures { (t : ℕ) → bit result t ≡ paired_below slots links.now t }
{
    let mut w = 0u64;
    for t in &links[..slots as usize] {
        w = bits::with(w, *t);
    }
    w
}

// Gives the slots of a set the label `x`.
fn put_label(set: u64, x: u32, label: &mut [u32; 64])
    requires { length label.old ≡ 64 }
    ensures { LabelPut set x label.old label.new }
{
    let mut left = set;
    while left != 0 {
        label[bits::lowest(left) as usize] = x;
        left = bits::without_lowest(left);
    }
}

// Gives the label `x` to the slots of `live` that are not in `left` or that an exploration from tree rank `t` reaches among these.
// Hands back those that have no label yet.
fn label_from(
    t: TreeRank,
    x: u32,
    live: u64,
    left: u64,
    words: &mut [u64; 66],
    links: &mut [u32; 128],
    label: &mut [u32; 64],
) -> u64
    requires { (t.0 < 64) × LabelRoom words.old links.old label.old }
    ensures { LabelledFrom t.0 x live left words.old links.old label.old words.new
        links.new label.new result }
{
    let after = search::explore(t, left, 0, words, links);
    put_label(bits::less(live, after), x, label);
    after
}

// Spare rank `s` as an origin, if it has a slot without a label.
fn label_spare(
    s: SpareRank,
    live: u64,
    cost: &[u32; 256],
    ss: &[u32; 256],
    cols: &[u64; 256],
    slot: &[u32; 256],
    words: &mut [u64; 66],
    links: &mut [u32; 128],
    label: &mut [u32; 64],
) -> u64
    requires edge { (s.0 < 256) × (get_or ss.now s.0 0 < 256) }
    requires slot { get_or cols.now s.0 0 ≡ 0 → get_or slot.now s.0 0 < 64 }
    requires room { LabelRoom words.old links.old label.old }
    ensures { SpareLabelled s.0 live cost.now ss.now cols.now slot.now words.old
        links.old label.old words.new links.new label.new result }
{
    if cols[s.0 as usize] != 0 {
        return live;
    }
    let k = slot[s.0 as usize];
    if !bits::has(live, k) {
        return live;
    }
    let t = links[k as usize];
    let x = cost_at(s.0, cost, ss);
    let left = bits::without(live, k);
    label_from(TreeRank(t), x, live, left, words, links, label)
}

// How many spare ranks, from the lowest on, are left as origins, and the slots that have no label yet.
#[derive(Clone, Copy)]
pub struct Origins {
    pub spares: u32,
    pub live: u64,
}

// The spare ranks left that cost at least `least` as origins, the dearest first.
fn label_spares(
    from: Origins,
    least: u32,
    cost: &[u32; 256],
    ss: &[u32; 256],
    cols: &[u64; 256],
    slot: &[u32; 256],
    words: &mut [u64; 66],
    links: &mut [u32; 128],
    label: &mut [u32; 64],
) -> Origins
    requires spares { SparesRead from.spares ss.now cols.now slot.now }
    requires room { LabelRoom words.old links.old label.old }
    ensures labelled { SparesLabelled from.spares from.live least cost.now ss.now cols.now slot.now
        words.old links.old label.old words.new links.new label.new result.spares result.live }
    ensures cheaper { 0 < result.spares → cost_at cost.now ss.now (result.spares - 1) < least }
{
    let mut live = from.live;
    for s in (0..from.spares).rev() {
        if cost_at(s, cost, ss) < least {
            return Origins {
                spares: s + 1,
                live: live,
            };
        }
        live = label_spare(
            SpareRank(s),
            live,
            cost,
            ss,
            cols,
            slot,
            words,
            links,
            label,
        );
    }
    Origins {
        spares: 0,
        live: live,
    }
}

// Labels every slot: the origins in turn, by falling cost; a tree rank in no pair before spare ranks of the same cost.
pub fn label(
    trees: u32,
    spares: u32,
    cost: &[u32; 256],
    ts: &[u32; 256],
    ss: &[u32; 256],
    slots: u32,
    cols: &[u64; 256],
    slot: &[u32; 256],
    words: &mut [u64; 66],
    links: &mut [u32; 128],
    label: &mut [u32; 64],
)
    requires { Labellable trees spares slots cost.now ts.now ss.now cols.now slot.now words.old links.old label.old }
    ensures { Labelled trees spares slots cost.now ts.now ss.now cols.now slot.now
        words.old links.old words.new links.new label.new }
{
    let mut free = bits::less(bits::below(trees), paired_trees(slots, links));
    let mut at = Origins {
        spares: spares,
        live: bits::below(slots),
    };
    while free != 0 {
        if at.live == 0 {
            return;
        }
        let t = bits::lowest(free);
        let x = cost_at(t, cost, ts);
        at = label_spares(at, x + 1, cost, ss, cols, slot, words, links, label);
        at.live = label_from(TreeRank(t), x, at.live, at.live, words, links, label);
        free = bits::without_lowest(free);
    }
    label_spares(at, 0, cost, ss, cols, slot, words, links, label);
}
