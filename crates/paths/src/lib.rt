// Tree paths from node 0 in masks, and question 6, over links held in arrays (specs/Arrays.antt).
#![tactic(auto)]

ghost use Rattle.std.specs.Prelude.{◌≡◌, true, List, ℕ, ◌+◌, ◌<◌, ◌≤◌, length, take};
ghost use Rattle.bits.specs.Bit.{bit};
ghost use Rattle.graph.specs.Paths.{attach, is_tree};
ghost use Rattle.adjacency.specs.Words.{RankedEnds};
ghost use Rattle.paths.specs.Arrays.{array_graph, across, held, tried, tried_word, Room, Named, Walked};

use ids::{Edge, Node, TreeRank};

// What has been found from node 0: how many nodes, and which.
#[derive(Clone, Copy)]
pub struct Front {
    pub found: u32,
    pub reached: u64,
}

// Node v is reached from node u over the tree edge of rank k.
fn reach(front: Front, u: Node, v: Node, k: TreeRank, mask: &mut [u64; 64]) -> Front
    requires { Room front.found u.0 v.0 k.0 mask.old }
    ensures state { held result mask.new ≡ attach u.0 v.0 k.0 (held front mask.old) }
    ensures places { length mask.new ≡ 64 }
{
    let from = u.0 as usize;
    let to = v.0 as usize;
    mask[to] = bits::flip(mask[from], k.0);
    let found = front.found + 1;
    Front {
        found: found,
        reached: bits::with(front.reached, v.0),
    }
}

// Tries the tree edge of rank k, between nodes u and v: if just one of them has been found, it leads to the other.
fn grow(front: Front, u: Node, v: Node, k: TreeRank, mask: &mut [u64; 64]) -> Front
    requires { Room front.found u.0 v.0 k.0 mask.old }
    ensures state { held result mask.new ≡ tried u.0 v.0 k.0 (held front mask.old) }
    ensures places { length mask.new ≡ 64 }
{
    if bits::has(front.reached, u.0) {
        if bits::has(front.reached, v.0) {
            return front;
        }
        return reach(front, u, v, k, mask);
    }
    if bits::has(front.reached, v.0) {
        return reach(front, v, u, k, mask);
    }
    front
}

// Tries the tree edges whose ranks are in a word, by rank.
fn expand(
    front: Front,
    word: u64,
    ranks: &[u32; 256],
    end1: &[u32; 256],
    end2: &[u32; 256],
    mask: &mut [u64; 64],
) -> Front
    requires named { Named word ranks.now end1.now end2.now }
    requires found_bound { (front.found ≤ 8192) × (length mask.old ≡ 64) }
    ensures state { held result mask.new
        ≡ tried_word word ranks.now end1.now end2.now (held front mask.old) }
    ensures places { length mask.new ≡ 64 }
{
    let mut next = front;
    let mut untried = word;
    while untried != 0 {
        let k = bits::lowest(untried);
        let number = ranks[k as usize];
        let e = Edge(number);
        let at = e.0 as usize;
        let u = end1[at];
        let v = end2[at];
        next = grow(next, Node(u), Node(v), TreeRank(k), mask);
        untried = bits::without_lowest(untried);
    }
    next
}

// Finds the nodes that the tree edges join to node 0, and puts their paths into the masks; gives how many there are.
pub fn root_paths(
    nodes: u32,
    ranks: &[u32; 256],
    count: usize,
    end1: &[u32; 256],
    end2: &[u32; 256],
    mask: &mut [u64; 64],
) -> u32
    requires { RankedEnds nodes count ranks.now end1.now end2.now }
    ensures { Walked nodes count ranks.now end1.now end2.now result mask.new }
{
    *mask = [0u64; 64];
    let mut adj = [0u64; 64];
    adjacency::adjacency(ranks, count, end1, end2, &mut adj);
    let mut front = Front {
        found: 1,
        reached: 1,
    };
    let mut done = 0u64;
    for _ in 0..nodes {
        let waiting = bits::less(front.reached, done);
        if waiting == 0 {
            return front.found;
        }
        let v = Node(bits::lowest(waiting));
        let at = v.0 as usize;
        // The tree edges on its own path have been tried: both ends of each have been found.
        let word = bits::less(adj[at], mask[at]);
        front = expand(front, word, ranks, end1, end2, mask);
        done = bits::with(done, v.0);
    }
    front.found
}

// Question 6: are there (nodes − 1) tree edges, and do they join all nodes? If so, the masks hold the tree paths.
pub fn question6(
    nodes: u32,
    ranks: &[u32; 256],
    count: usize,
    end1: &[u32; 256],
    end2: &[u32; 256],
    mask: &mut [u64; 64],
) -> bool
    requires places { (count ≤ 256) × (count ≤ length ranks.now) }
    requires ends { count + 1 ≡ nodes → RankedEnds nodes count ranks.now end1.now end2.now }
    ensures answer { (edges : ℕ) (mark : List ℕ)
        → result ≡ is_tree (array_graph nodes edges end1.now end2.now mark) (take count ranks.now) }
    ensures walked { result ≡ true → Walked nodes count ranks.now end1.now end2.now nodes mask.new }
{
    if count + 1 != nodes as usize {
        return false;
    }
    let found = root_paths(nodes, ranks, count, end1, end2, mask);
    found == nodes
}

// The ranks of the tree edges between two nodes.
pub fn crossing(mask: &[u64; 64], a: Node, b: Node) -> u64
    requires { (a.0 < 64) × (b.0 < 64) }
    ensures { (k : ℕ) → bit result k ≡ across mask.now a.0 b.0 k }
{
    bits::differ(mask[a.0 as usize], mask[b.0 as usize])
}

// Does the tree edge of rank k lie between two nodes?
pub fn covers(mask: &[u64; 64], a: Node, b: Node, k: TreeRank) -> bool
    requires { (a.0 < 64) × (b.0 < 64) × (k.0 < 64) }
    ensures { result ≡ across mask.now a.0 b.0 k.0 }
{
    bits::has(crossing(mask, a, b), k.0)
}
