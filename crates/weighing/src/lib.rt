// The steps of the costs that an answer names, the order and the weight of the pairs that it lists (specs/Weighing.antt).
#![tactic(auto)]

ghost use Rattle.std.specs.Prelude.{◌≡◌, ◌-◌, ◌≤◌, ◌<◌, get_or};
ghost use Rattle.loops.specs.Below.{all_below, sum};
ghost use Rattle.frame.specs.Answers.{gap};
ghost use Rattle.weighing.specs.Weighing.{pair_rises, fall, Falling};

use ids::Edge;

// The absolute difference.
fn gap(x: u32, y: u32) -> u32
    ensures { result ≡ gap x y }
{
    if x < y {
        return y - x;
    }
    x - y
}

// The sum, over all edges, of the absolute difference between new and old cost.
#[tactic(auto, using(loops::specs::SumLaws::sum_more), unfolding(loops::specs::Below::sum))]
pub fn steps(edges: usize, cost: &[u32; 256], costs: &[u32; 256]) -> u64
    requires { edges ≤ 256 }
    ensures { result ≡ sum edges (λ e. gap (get_or costs.now e 0) (get_or cost.now e 0)) }
{
    let mut steps: u64 = 0;
    for e in 0..edges {
        steps += gap(costs[e], cost[e]) as u64;
    }
    steps
}

// Every pair before pair i has a lower tree edge and another spare.
fn pair_rises(i: usize, pairs: &[u32; 128]) -> bool
    requires { i < 64 }
    ensures { result ≡ pair_rises pairs.now i }
{
    let t = pairs[2 * i];
    let s = pairs[2 * i + 1];
    (0..i).all(|k| pairs[2 * k] < t && pairs[2 * k + 1] != s)
}

// So for every pair.
pub fn pairs_rise(count: usize, pairs: &[u32; 128]) -> bool
    requires { count ≤ 64 }
    ensures { result ≡ all_below count (pair_rises pairs.now) }
{
    (0..count).all(|i| pair_rises(i, pairs))
}

// Old tree cost less old spare cost.
fn pair_fall(t: Edge, s: Edge, cost: &[u32; 256]) -> u32
    requires { (t.0 < 256) × (s.0 < 256) × (get_or cost.now s.0 0 ≤ get_or cost.now t.0 0) }
    ensures { result ≡ get_or cost.now t.0 0 - get_or cost.now s.0 0 }
{
    cost[t.0 as usize] - cost[s.0 as usize]
}

// The sum of it over all pairs.
#[tactic(auto, using(loops::specs::SumLaws::sum_more), unfolding(loops::specs::Below::sum))]
pub fn pairs_weight(count: usize, pairs: &[u32; 128], cost: &[u32; 256]) -> u64
    requires { Falling count pairs.now cost.now }
    ensures { result ≡ sum count (fall pairs.now cost.now) }
{
    let mut total: u64 = 0;
    for i in 0..count {
        let t = pairs[2 * i];
        let s = pairs[2 * i + 1];
        total += pair_fall(Edge(t), Edge(s), cost) as u64;
    }
    total
}
