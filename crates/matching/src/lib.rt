// The matching, built one tree rank at a time, and its running weight (specs/Tables.antt; the model is in optimum's
// specs/Search.antt).
#![tactic(auto)]

ghost use Rattle.std.specs.Prelude.{◌≡◌, ◌<◌, ◌≤◌, get_or};
ghost use Rattle.graph.specs.Rank.{cost_at};
ghost use Rattle.matching.specs.Tables.{Edges, tables};
ghost use Rattle.matching.specs.Build.{goal_cost, Augmentable, Augmented, Buildable, Built};

use ids::{Edge, Slot, SpareRank, TreeRank};

// The cost of place `k` of a list of ranks.
pub fn cost_at(k: u32, cost: &[u32; 256], ranks: &[u32; 256]) -> u32
    requires { (k < 256) × (get_or ranks.now k 0 < 256) }
    ensures { result ≡ cost_at cost.now ranks.now k }
{
    let e = Edge(ranks[k as usize]);
    cost[e.0 as usize]
}

// What the goal costs. Where there is no such spare rank, the largest number: no tree rank costs more.
fn goal_cost(goal: SpareRank, spares: u32, cost: &[u32; 256], ss: &[u32; 256]) -> u32
    requires { (spares ≤ 256) × Edges spares ss.now }
    ensures { result ≡ goal_cost spares cost.now ss.now goal.0 }
{
    if spares <= goal.0 {
        return 4294967295;
    }
    cost_at(goal.0, cost, ss)
}

// How many pairs there are, the lowest spare rank that may be in none, the slots that no failed exploration has visited, and the
// weight of the pairs.
#[derive(Clone, Copy)]
pub struct Progress {
    pub slots: u32,
    pub low: u32,
    pub live: u64,
    pub weight: u64,
}

// Matches tree rank `t`, if the cheapest spare rank in no pair that alternating paths lead to costs less. An exploration ends under
// the cheapest of all; if it comes to none that gains, the slots that it has visited are given up for good. A path corrects the
// weight by what `t` costs above its goal.
fn augment(
    t: TreeRank,
    at: Progress,
    trees: u32,
    spares: u32,
    cost: &[u32; 256],
    ts: &[u32; 256],
    ss: &[u32; 256],
    cols: &mut [u64; 256],
    words: &mut [u64; 66],
    links: &mut [u32; 128],
    spare: &mut [u32; 128],
    slot: &mut [u32; 256],
) -> Progress
    requires { Augmentable t.0 at.slots at.low at.weight trees spares ts.now ss.now
        (tables cols.old words.old links.old spare.old slot.old) }
    ensures { Augmented t.0 at.slots at.low at.live at.weight trees spares cost.now ts.now ss.now
        (tables cols.old words.old links.old spare.old slot.old)
        result.slots result.low result.live result.weight
        (tables cols.new words.new links.new spare.new slot.new) }
{
    let n = at.slots;
    let low = goals::first_over(at.low, spares, bits::below(trees), cols);
    let high = cost_at(t.0, cost, ts);
    if high <= goal_cost(SpareRank(low), spares, cost, ss) {
        return Progress {
            slots: n,
            low: low,
            live: at.live,
            weight: at.weight,
        };
    }
    let live = search::explore(t, at.live, cols[low as usize], words, links);
    let seen = words[64];
    let goal = goals::goal_over(low, spares, seen, cols);
    let least = goal_cost(SpareRank(goal), spares, cost, ss);
    if high <= least {
        return Progress {
            slots: n,
            low: low,
            live: live,
            weight: at.weight,
        };
    }
    slots::pair(
        t,
        SpareRank(goal),
        Slot(n),
        seen,
        cols,
        words,
        links,
        spare,
        slot,
    );
    Progress {
        slots: n + 1,
        low: low,
        live: bits::with(at.live, n),
        weight: at.weight + (high - least) as u64,
    }
}

// Builds the matching from nothing: every tree rank in turn.
pub fn build(
    trees: u32,
    spares: u32,
    cost: &[u32; 256],
    ts: &[u32; 256],
    ss: &[u32; 256],
    cols: &mut [u64; 256],
    words: &mut [u64; 66],
    links: &mut [u32; 128],
    spare: &mut [u32; 128],
    slot: &mut [u32; 256],
) -> Progress
    requires { Buildable trees spares ts.now ss.now (tables cols.old words.old links.old spare.old slot.old) }
    ensures { Built trees spares cost.now ts.now ss.now cols.old result.slots result.low result.live result.weight
        (tables cols.new words.new links.new spare.new slot.new) }
{
    let mut at = Progress {
        slots: 0,
        low: 0,
        live: 0,
        weight: 0,
    };
    for t in 0..trees {
        at = augment(
            TreeRank(t),
            at,
            trees,
            spares,
            cost,
            ts,
            ss,
            cols,
            words,
            links,
            spare,
            slot,
        );
    }
    at
}
