// From slots back to edges: the new costs and the mates, from the pairs and their labels (specs/Asked.antt).
#![tactic(auto)]

ghost use Rattle.std.specs.Prelude.{◌≡◌, length, get_or, replicate};
ghost use Rattle.optimum.specs.Solve.{new_costs, partners};
ghost use Rattle.solution.specs.Asked.{SlotsNamed, slot_pairs};

use ids::Edge;

// Puts each pair's label at its two edges, and gives its tree edge the spare edge's number, plus one, as its mate.
pub fn place(
    slots: usize,
    ts: &[u32; 256],
    ss: &[u32; 256],
    links: &[u32; 128],
    spare: &[u32; 128],
    label: &[u32; 64],
    costs: &mut [u32; 256],
    mate: &mut [u32; 256],
)
    requires pairs { SlotsNamed slots ts.now ss.now links.now spare.now }
    requires length { length costs.old ≡ 256 }
    requires empty { mate.old ≡ replicate 256 0 }
    ensures costs { (λ e. get_or costs.new e 0) ≡ new_costs (λ e. get_or costs.old e 0) ts.now ss.now
        (slot_pairs slots links.now spare.now) (λ k. get_or label.now k 0) }
    ensures mate { (λ e. get_or mate.new e 0) ≡ partners ts.now ss.now
        (slot_pairs slots links.now spare.now) }
    ensures lengths { (length costs.new ≡ 256) × (length mate.new ≡ 256) }
{
    for k in 0..slots {
        let t = links[k];
        let s = spare[k];
        let a = Edge(ts[t as usize]);
        let b = Edge(ss[s as usize]);
        costs[a.0 as usize] = label[k];
        costs[b.0 as usize] = label[k];
        mate[a.0 as usize] = b.0 + 1;
    }
}
