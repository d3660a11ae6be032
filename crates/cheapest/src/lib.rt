// The judge of trees, over links held in arrays (specs/Judge.antt).
#![tactic(auto)]

ghost use Rattle.std.specs.Prelude.{◌≡◌, ℕ, ◌<◌, get_or, take};
ghost use Rattle.bits.specs.Bit.{bit};
ghost use Rattle.graph.specs.Rank.{cost_at};
ghost use Rattle.graph.specs.Paths.{rooted, judge as judged};
ghost use Rattle.paths.specs.Arrays.{array_graph, array_tree, array_cost, paths};
ghost use Rattle.cheapest.specs.Judge.{spare_holds, not_dearer, may_lead, Priced, Spare, FallAlong, Judged};

use ids::{Edge, Node, TreeRank};
use limits::is_spare;
use paths::crossing;

// The cost of the tree edge of rank k.
pub fn cost_at(k: TreeRank, ranks: &[u32; 256], cost: &[u32; 256]) -> u32
    requires { (k.0 < 64) × (get_or ranks.now k.0 0 < 256) }
    ensures { result ≡ cost_at cost.now ranks.now k.0 }
{
    let number = ranks[k.0 as usize];
    let t = Edge(number);
    cost[t.0 as usize]
}

// The ranks whose tree edges cost no more than any tree edge of a lower rank. If the ranks are by falling cost, all of them.
fn falling_ranks(ranks: &[u32; 256], count: usize, cost: &[u32; 256]) -> u64
    requires { Priced count ranks.now }
    ensures { (k : ℕ) → bit result k ≡ not_dearer count ranks.now cost.now k }
{
    let mut falling = 0u64;
    let mut least = 4294967295u32;
    for k in 0..count {
        let rank = k as u32;
        let price = cost_at(TreeRank(rank), ranks, cost);
        if price <= least {
            least = price;
            falling = bits::with(falling, rank);
        }
    }
    falling
}

// The ranks of a word that may be its dearest: the lowest, and those that may cost more than a lower one.
fn leaders(word: u64, falling: u64) -> u64
    ensures { (k : ℕ) → bit result k ≡ may_lead word falling k }
{
    if word == 0 {
        return 0;
    }
    bits::with(bits::less(word, falling), bits::lowest(word))
}

// Does a spare cost at least as much as every tree edge that it covers?
fn spare_holds(
    spare: Edge,
    falling: u64,
    ranks: &[u32; 256],
    end1: &[u32; 256],
    end2: &[u32; 256],
    cost: &[u32; 256],
    mask: &[u64; 64],
) -> bool
    requires { Spare spare.0 falling ranks.now end1.now end2.now cost.now mask.now }
    ensures { result ≡ spare_holds ranks.now end1.now end2.now cost.now mask.now spare.0 }
{
    let s = spare.0 as usize;
    let limit = cost[s];
    let a = end1[s];
    let b = end2[s];
    let word = crossing(mask, Node(a), Node(b));
    let mut left = leaders(word, falling);
    while left != 0 {
        let k = bits::lowest(left);
        if limit < cost_at(TreeRank(k), ranks, cost) {
            return false;
        }
        left = bits::without_lowest(left);
    }
    true
}

// Does every spare cost at least as much as every tree edge that it covers? The masks hold the tree paths, and the
// ranks in `falling` cost no more than any lower one.
pub fn judge_ranked(
    edges: usize,
    ranks: &[u32; 256],
    count: usize,
    falling: u64,
    end1: &[u32; 256],
    end2: &[u32; 256],
    cost: &[u32; 256],
    mark: &[u32; 256],
    mask: &[u64; 64],
) -> bool
    requires judged { Judged edges count ranks.now end1.now end2.now mask.now }
    requires fall_along { FallAlong count falling ranks.now cost.now }
    ensures { (nodes : ℕ)
        → paths mask.now
        ≡ (rooted (array_graph nodes edges end1.now end2.now mark.now) (take count ranks.now)).path
        → result ≡ judged (array_graph nodes edges end1.now end2.now mark.now)
        (array_tree mark.now) (array_cost cost.now) (take count ranks.now) }
{
    for (e, m) in mark[..edges].iter().enumerate() {
        if is_spare(*m) {
            let s = e as u32;
            if !spare_holds(Edge(s), falling, ranks, end1, end2, cost, mask) {
                return false;
            }
        }
    }
    true
}

// Does every spare cost at least as much as every tree edge that it covers? The costs may be in any
// order along the ranks.
pub fn judge_unsorted(
    edges: usize,
    ranks: &[u32; 256],
    count: usize,
    end1: &[u32; 256],
    end2: &[u32; 256],
    cost: &[u32; 256],
    mark: &[u32; 256],
    mask: &[u64; 64],
) -> bool
    requires { Judged edges count ranks.now end1.now end2.now mask.now }
    ensures { (nodes : ℕ)
        → paths mask.now
        ≡ (rooted (array_graph nodes edges end1.now end2.now mark.now) (take count ranks.now)).path
        → result ≡ judged (array_graph nodes edges end1.now end2.now mark.now)
        (array_tree mark.now) (array_cost cost.now) (take count ranks.now) }
{
    let falling = falling_ranks(ranks, count, cost);
    judge_ranked(edges, ranks, count, falling, end1, end2, cost, mark, mask)
}
