// The spares that cost less than a tree edge that they cover, by rank; and for each of these ranks the tree ranks that it covers
// and undercuts, as a column (specs/Covers.antt).
#![tactic(auto)]

ghost use Rattle.std.specs.Prelude.{◌≡◌, false, ℕ, ◌<◌, ◌≤◌, ltb, length, get_or};
ghost use Rattle.bits.specs.Bit.{bit};
ghost use Rattle.graph.specs.Rank.{Ranks, cost_at};
ghost use Rattle.ranks.specs.Keys.{SmallCosts, Collected, key_at};
ghost use Rattle.covering.specs.Covers.{covers, dearest_of, undercutting, is_low, ColumnsHold, RanksFall, RanksRise, Ends, Crossed, LowRanked};

use ids::{Edge, Node};
use limits::is_spare;

// The set of the tree ranks that an edge covers.
fn covered(e: Edge, end1: &[u32; 256], end2: &[u32; 256], mask: &[u64; 64]) -> u64
    requires { (e.0 < 256) × (get_or end1.now e.0 0 < 64) × (get_or end2.now e.0 0 < 64) }
    ensures { (t : ℕ) → bit result t ≡ covers end1.now end2.now mask.now e.0 t }
{
    let k = e.0 as usize;
    let a = end1[k];
    let b = end2[k];
    paths::crossing(mask, Node(a), Node(b))
}

// The cost of the dearest tree edge, which has rank 0; 0 if there is none.
fn dearest(trees: u32, cost: &[u32; 256], ts: &[u32; 256]) -> u32
    requires { 0 < trees → get_or ts.now 0 0 < 256 }
    ensures { result ≡ dearest_of trees cost.now ts.now }
{
    if trees == 0 {
        return 0;
    }
    let t = Edge(ts[0]);
    cost[t.0 as usize]
}

// Does an edge cost less than a tree edge that it covers? Not if it costs as much as the dearest of all. Costs fall by rank: else the
// lowest rank that it covers tells.
fn undercuts(
    e: Edge,
    top: u32,
    cost: &[u32; 256],
    ts: &[u32; 256],
    end1: &[u32; 256],
    end2: &[u32; 256],
    mask: &[u64; 64],
) -> bool
    requires { (trees : ℕ) × (edges : ℕ) × (e.0 < edges) × (top ≡ dearest_of trees cost.now ts.now)
        × Crossed trees edges cost.now ts.now end1.now end2.now mask.now }
    ensures { result ≡ undercutting 64 cost.now ts.now end1.now end2.now mask.now e.0 }
{
    let x = cost[e.0 as usize];
    if top <= x {
        return false;
    }
    let over = covered(e, end1, end2, mask);
    if over == 0 {
        return false;
    }
    let number = ts[bits::lowest(over) as usize];
    let t = Edge(number);
    x < cost[t.0 as usize]
}

// Collects the keys of the spares that undercut, in place of the marks: their count, and the keys at the first places. A mark is
// read before its place is written.
fn collect_low(
    edges: usize,
    top: u32,
    cost: &[u32; 256],
    ts: &[u32; 256],
    end1: &[u32; 256],
    end2: &[u32; 256],
    mask: &[u64; 64],
    mark: &mut [u32; 256],
) -> usize
    requires arrays { (trees : ℕ) × (top ≡ dearest_of trees cost.now ts.now) × Crossed trees edges cost.now ts.now end1.now end2.now
        mask.now }
    requires costs { SmallCosts edges cost.now × (length mark.old ≡ 256) }
    ensures { Collected (key_at false cost.now)
        (is_low 64 cost.now mark.old ts.now end1.now end2.now mask.now)
        mark.new result edges }
{
    let mut n: usize = 0;
    for e in 0..edges {
        if is_spare(mark[e]) {
            let number = e as u32;
            if undercuts(Edge(number), top, cost, ts, end1, end2, mask) {
                mark[n] = ranks::spare_key(cost[e], e);
                n += 1;
            }
        }
    }
    n
}

// The spares that undercut by rising cost, in place of the marks: their count, and the edges at the first places.
pub fn low_ranks(
    trees: u32,
    edges: usize,
    cost: &[u32; 256],
    ts: &[u32; 256],
    end1: &[u32; 256],
    end2: &[u32; 256],
    mask: &[u64; 64],
    mark: &mut [u32; 256],
) -> usize
    requires arrays { Crossed trees edges cost.now ts.now end1.now end2.now mask.now }
    requires costs { SmallCosts edges cost.now × (length mark.old ≡ 256) }
    ensures { LowRanked trees edges cost.now mark.old ts.now end1.now end2.now
        mask.now result mark.new }
{
    let top = dearest(trees, cost, ts);
    let n = collect_low(edges, top, cost, ts, end1, end2, mask, mark);
    ranks::rank_keys(mark, n);
    n
}

// How many of the first `limit` tree ranks cost more than x. Costs fall by rank: these are the lowest ranks.
fn dearer(limit: u32, x: u32, cost: &[u32; 256], ts: &[u32; 256]) -> u32
    requires { Ranks limit ts.now × RanksFall limit cost.now ts.now }
    ensures few { result ≤ limit }
    ensures ranks { (t : ℕ) → t < limit → ltb x (cost_at cost.now ts.now t) ≡ ltb t result }
{
    for t in (0..limit).rev() {
        let number = ts[t as usize];
        let e = Edge(number);
        if x < cost[e.0 as usize] {
            return t + 1;
        }
    }
    0
}

// Writes the column of each spare rank: the tree ranks that its edge covers and that cost more. Spare ranks go by rising cost:
// what no longer costs more never does again.
pub fn columns(
    trees: u32,
    spares: usize,
    cost: &[u32; 256],
    ts: &[u32; 256],
    ss: &[u32; 256],
    end1: &[u32; 256],
    end2: &[u32; 256],
    mask: &[u64; 64],
    cols: &mut [u64; 256],
)
    requires trees { (trees < 64) × Ranks trees ts.now × RanksFall trees cost.now ts.now }
    requires spares { Ranks spares ss.now × RanksRise spares cost.now ss.now }
    requires ends { Ends spares ss.now end1.now end2.now }
    requires places { length cols.old ≡ 256 }
    ensures columns { ColumnsHold trees spares cost.now ts.now ss.now end1.now end2.now
        mask.now cols.new }
    ensures length { length cols.new ≡ 256 }
{
    let mut limit = trees;
    for s in 0..spares {
        let e = Edge(ss[s]);
        limit = dearer(limit, cost[e.0 as usize], cost, ts);
        let over = covered(e, end1, end2, mask);
        cols[s] = bits::both(over, bits::below(limit));
    }
}
