// The test of the pairs that an answer lists, each by itself, over a job held in arrays (specs/Pairs.antt).
#![tactic(auto)]

ghost use Rattle.std.specs.Prelude.{◌≡◌, ◌≤◌, length, take};
ghost use Rattle.cheapest.specs.Judge.{Judged};
ghost use Rattle.frame.specs.Arrays.{arrays};
ghost use Rattle.frame.specs.Answers.{rank_of};
ghost use Rattle.pairing.specs.Pairs.{pair_held, pairs_held};

use ids::{Edge, Node, TreeRank};
use limits::{is_spare, is_tree};

// The rank of a tree edge; the number of ranks if it has none.
fn rank_of(ts: &[u32; 256], trees: usize, t: Edge) -> TreeRank
    requires trees_bound { trees ≤ 63 }
    requires places { trees ≤ length ts.now }
    ensures result_value { result.0 ≡ rank_of (take trees ts.now) t.0 }
    ensures small { result.0 ≤ 63 }
{
    let found = ts[..trees].iter().position(|e| *e == t.0);
    TreeRank(found.unwrap_or(trees) as u32)
}

// One pair: a tree edge, a dearer one than the spare that covers it.
#[tactic(auto, unfolding(crate::specs::Pairs::pair_held))]
fn pair_holds(
    t: Edge,
    s: Edge,
    edges: usize,
    ts: &[u32; 256],
    trees: usize,
    end1: &[u32; 256],
    end2: &[u32; 256],
    cost: &[u32; 256],
    mark: &[u32; 256],
    mask: &[u64; 64],
) -> bool
    requires { Judged edges trees ts.now end1.now end2.now mask.now }
    ensures { result ≡ pair_held edges trees (arrays end1.now end2.now cost.now mark.now
        ts.now mask.now) t.0 s.0 }
{
    let tree = t.0 as usize;
    let spare = s.0 as usize;
    if edges <= tree {
        return false;
    }
    if !is_tree(mark[tree]) {
        return false;
    }
    if edges <= spare {
        return false;
    }
    if !is_spare(mark[spare]) {
        return false;
    }
    let k = rank_of(ts, trees, t);
    let a = end1[spare];
    let b = end2[spare];
    if !paths::covers(mask, Node(a), Node(b), k) {
        return false;
    }
    cost[spare] < cost[tree]
}

// Every pair.
pub fn pairs_hold(
    count: usize,
    pairs: &[u32; 128],
    edges: usize,
    ts: &[u32; 256],
    trees: usize,
    end1: &[u32; 256],
    end2: &[u32; 256],
    cost: &[u32; 256],
    mark: &[u32; 256],
    mask: &[u64; 64],
) -> bool
    requires count_bound { count ≤ 64 }
    requires job { Judged edges trees ts.now end1.now end2.now mask.now }
    ensures { result ≡ pairs_held edges trees (arrays end1.now end2.now cost.now mark.now
        ts.now mask.now) count pairs.now }
{
    (0..count).all(|i| {
        pair_holds(
            Edge(pairs[2 * i]),
            Edge(pairs[2 * i + 1]),
            edges,
            ts,
            trees,
            end1,
            end2,
            cost,
            mark,
            mask,
        )
    })
}
