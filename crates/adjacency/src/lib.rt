// The words of the tree: for each node the ranks of the tree edges at it, over links held in arrays (specs/Words.antt).
#![tactic(auto)]

ghost use Rattle.std.specs.Prelude.{◌≡◌, ◌<◌, eqb, length};
ghost use Rattle.adjacency.specs.Words.{end_of, RankPut, Placed, RankedEnds, Adjacency};

use ids::{Edge, Node, TreeRank};

// Puts a rank into the word of one node.
fn put_rank(k: TreeRank, u: Node, adj: &mut [u64; 64])
    requires { (k.0 < 64) × (u.0 < 64) × (length adj.old ≡ 64) }
    ensures { RankPut k.0 (eqb u.0) adj.old adj.new }
{
    let at = u.0 as usize;
    adj[at] = bits::with(adj[at], k.0);
}

// Puts the rank of a tree edge into the words of its two ends.
fn put_edge(k: TreeRank, e: Edge, end1: &[u32; 256], end2: &[u32; 256], adj: &mut [u64; 64])
    requires { Placed k.0 e.0 end1.now end2.now adj.old }
    ensures { RankPut k.0 (end_of end1.now end2.now e.0) adj.old adj.new }
{
    let i = e.0 as usize;
    let u = end1[i];
    let v = end2[i];
    put_rank(k, Node(u), adj);
    put_rank(k, Node(v), adj);
}

// Puts the rank of every tree edge into the words of its two ends; the words hold no rank at entry.
pub fn adjacency(
    ranks: &[u32; 256],
    count: usize,
    end1: &[u32; 256],
    end2: &[u32; 256],
    adj: &mut [u64; 64],
)
    requires ranked_ends { RankedEnds 64 count ranks.now end1.now end2.now }
    requires adjacency { Adjacency 0 ranks.now end1.now end2.now adj.old }
    ensures { Adjacency count ranks.now end1.now end2.now adj.new }
{
    for (k, e) in ranks[..count].iter().enumerate() {
        let rank = k as u32;
        put_edge(TreeRank(rank), Edge(*e), end1, end2, adj);
    }
}
