// The pairs of a spare and a tree edge that violate the test: how many there are, and how many after a step of one cost
// (specs/Counting.antt).
#![tactic(auto)]

ghost use Rattle.std.specs.Prelude.{◌≡◌, Bool, true, ◌&&◌, ℕ, ◌≤◌, ◌<◌, eqb, get_or, set};
ghost use Rattle.bits.specs.Bit.{bit};
ghost use Rattle.paths.specs.Arrays.{across};
ghost use Rattle.violations.specs.Counting.{over_at, violations_at, spares_at, costs_within, AsksWithin, ranks_that, Joins, Countable, StepOf};

use cheapest::cost_at;
use ids::{Edge, Node, TreeRank};
use limits::{is_spare, is_tree};
use paths::crossing;

// The ranks of the tree edges between the ends of a link.
fn between_ends(link: Edge, end1: &[u32; 256], end2: &[u32; 256], mask: &[u64; 64]) -> u64
    requires { Joins link.0 end1.now end2.now }
    ensures { (k : ℕ) → bit result k ≡ across mask.now (get_or end1.now link.0 0) (get_or end2.now link.0 0) k }
{
    let s = link.0 as usize;
    let a = end1[s];
    let b = end2[s];
    crossing(mask, Node(a), Node(b))
}

// Does a link cost x, is it spare, and does it lie over the tree edge of rank k?
fn meets(
    link: Edge,
    k: TreeRank,
    x: u32,
    end1: &[u32; 256],
    end2: &[u32; 256],
    cost: &[u32; 256],
    mark: &[u32; 256],
    mask: &[u64; 64],
) -> bool
    requires { Joins link.0 end1.now end2.now × (k.0 < 64) }
    ensures { result ≡ (over_at end1.now end2.now mark.now mask.now link.0 k.0
        && eqb (get_or cost.now link.0 0) x) }
{
    let s = link.0 as usize;
    if cost[s] != x {
        return false;
    }
    if !is_spare(mark[s]) {
        return false;
    }
    bits::has(between_ends(link, end1, end2, mask), k.0)
}

// How many spares over the tree edge of rank k cost x?
fn spares_at(
    k: TreeRank,
    x: u32,
    edges: usize,
    end1: &[u32; 256],
    end2: &[u32; 256],
    cost: &[u32; 256],
    mark: &[u32; 256],
    mask: &[u64; 64],
) -> u32
    requires { (edges ≤ 256) × (k.0 < 64) × ((s : ℕ) → s < edges → Joins s end1.now end2.now) }
    ensures { result ≡ spares_at edges end1.now end2.now cost.now mark.now mask.now k.0 x }
{
    let mut found: u32 = 0;
    for at in 0..edges {
        let s = at as u32;
        if meets(Edge(s), k, x, end1, end2, cost, mark, mask) {
            found += 1;
        }
    }
    found
}

// Is a cost above `low` and at most `high`?
fn is_within(low: u32, high: u32, price: u32) -> bool
    ensures { result ≡ costs_within low high price }
{
    if low < price {
        return price <= high;
    }
    false
}

// How many tree edges between the ends of a link have such a cost?
fn ranks_within(
    link: Edge,
    low: u32,
    high: u32,
    ranks: &[u32; 256],
    end1: &[u32; 256],
    end2: &[u32; 256],
    cost: &[u32; 256],
    mask: &[u64; 64],
) -> u32
    requires joins { Joins link.0 end1.now end2.now }
    requires by_index { (k : ℕ) → across mask.now (get_or end1.now link.0 0) (get_or end2.now link.0 0) k ≡ true → get_or ranks.now k 0 < 256 }
    ensures { (p : ℕ → Bool) → AsksWithin low high p
        → result ≡ ranks_that ranks.now end1.now end2.now cost.now mask.now p link.0 }
{
    let mut left = between_ends(link, end1, end2, mask);
    let mut found: u32 = 0;
    while left != 0 {
        let k = bits::lowest(left);
        if is_within(low, high, cost_at(TreeRank(k), ranks, cost)) {
            found += 1;
        }
        left = bits::without_lowest(left);
    }
    found
}

// How many violations are there?
pub fn count_all(
    edges: usize,
    ranks: &[u32; 256],
    end1: &[u32; 256],
    end2: &[u32; 256],
    cost: &[u32; 256],
    mark: &[u32; 256],
    mask: &[u64; 64],
) -> u32
    requires { (count : ℕ) × Countable edges count ranks.now end1.now end2.now mark.now mask.now }
    ensures { result ≡ violations_at edges ranks.now end1.now end2.now cost.now mark.now
        mask.now }
{
    let mut total: u32 = 0;
    for e in 0..edges {
        if is_spare(mark[e]) {
            let s = e as u32;
            total += ranks_within(Edge(s), cost[e], 4294967295, ranks, end1, end2, cost, mask);
        }
    }
    total
}

// How many violations are there after a step of one link's cost? The array has the cost before it.
pub fn after_step(
    before: u32,
    edge: Edge,
    old: u32,
    new: u32,
    edges: usize,
    ranks: &[u32; 256],
    end1: &[u32; 256],
    end2: &[u32; 256],
    cost: &[u32; 256],
    mark: &[u32; 256],
    mask: &[u64; 64],
) -> u32
    requires by_index { (count : ℕ) × Countable edges count ranks.now end1.now end2.now mark.now mask.now }
    requires step_of { StepOf edges before edge.0 old new ranks.now end1.now end2.now cost.now mark.now mask.now }
    ensures { result ≡ violations_at edges ranks.now end1.now end2.now (set cost.now edge.0 new)
        mark.now mask.now }
{
    let own = mark[edge.0 as usize];
    if is_tree(own) {
        // Its own rank is the only one between its ends.
        let k = bits::lowest(between_ends(edge, end1, end2, mask));
        if old < new {
            return before + spares_at(TreeRank(k), old, edges, end1, end2, cost, mark, mask);
        }
        return before - spares_at(TreeRank(k), new, edges, end1, end2, cost, mark, mask);
    }
    if is_spare(own) {
        if new < old {
            return before + ranks_within(edge, new, old, ranks, end1, end2, cost, mask);
        }
        return before - ranks_within(edge, old, new, ranks, end1, end2, cost, mask);
    }
    before
}
