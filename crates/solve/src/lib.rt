// Finds the best costs of an accepted job that is held in arrays: the matching, the lowest new costs, the pairs.
#![tactic(auto)]

ghost use Rattle.std.specs.Prelude.{◌≡◌, ◌≤◌, length};
ghost use Rattle.optimum.specs.Search.{Problem};
ghost use Rattle.frame.specs.Job.{Job};
ghost use Rattle.frame.specs.Arrays.{arrays};
ghost use Rattle.frame.specs.Answers.{answer_of};
ghost use Rattle.codec.specs.Held.{answer_at};
ghost use Rattle.held.specs.Held.{Held};
ghost use Rattle.solve.specs.Solving.{Solvable, Rooms, SettledAs};

// The step count, which is the weight of the matching, and how many pairs are listed.
#[derive(Clone, Copy)]
pub struct Solved {
    pub steps: u32,
    pub count: usize,
}

// Matches the spares that undercut, whose columns are given, puts the labels of the pairs at their links in place of the old
// costs, and lists the pairs. `slot` and `mate` are room, and so is `pairs` until the list is made.
fn settle_ranked(
    trees: u32,
    edges: usize,
    spares: u32,
    cost: &mut [u32; 256],
    ts: &[u32; 256],
    ss: &[u32; 256],
    cols: &mut [u64; 256],
    slot: &mut [u32; 256],
    mate: &mut [u32; 256],
    pairs: &mut [u32; 128],
) -> Solved
    requires problem { (p : Problem) × Solvable p trees edges spares cost.old ts.now ss.now cols.old }
    requires rooms { Rooms cost.old cols.old slot.old pairs.old }
    ensures few { result.count ≤ 64 }
    ensures settled { (p : Problem)
        → Solvable p trees edges spares cost.old ts.now ss.now cols.old
        → SettledAs p edges cost.old ts.now ss.now result.steps cost.new result.count pairs.new }
{
    let mut words = [0u64; 66];
    let mut links = [0u32; 128];
    let found = matching::build(
        trees, spares, cost, ts, ss, cols, &mut words, &mut links, pairs, slot,
    );
    let slots = found.slots;
    let mut label = [0u32; 64];
    labels::label(
        trees, spares, cost, ts, ss, slots, cols, slot, &mut words, &mut links, &mut label,
    );
    *mate = [0u32; 256];
    solution::place(slots as usize, ts, ss, &links, pairs, &label, cost, mate);
    let count = answer::list_pairs(edges, mate, pairs);
    Solved {
        steps: found.weight as u32,
        count: count,
    }
}

// The answer to an accepted job in arrays: its new costs in place of the old ones, and its pairs, rising by tree link. Only spares
// that cost less than a tree link under them are ranked; where there is none, nothing moves. The ranks take the place of the marks,
// and once the columns are written the arrays of ends serve as room.
pub fn solve(
    nodes: u32,
    edges: usize,
    end1: &mut [u32; 256],
    end2: &mut [u32; 256],
    cost: &mut [u32; 256],
    mark: &mut [u32; 256],
    ts: &[u32; 256],
    mask: &[u64; 64],
    pairs: &mut [u32; 128],
) -> Solved
    requires job { (j : Job) × Held j nodes edges (arrays end1.old end2.old cost.old mark.old ts.now mask.now) }
    requires places { length pairs.old ≡ 128 }
    ensures few { result.count ≤ 64 }
    ensures answer { (j : Job)
        → Held j nodes edges (arrays end1.old end2.old cost.old mark.old ts.now mask.now)
        → answer_at result.steps edges cost.new result.count pairs.new ≡ answer_of j }
{
    let trees = nodes - 1;
    let spares = covering::low_ranks(trees, edges, cost, ts, end1, end2, mask, mark);
    if spares == 0 {
        return Solved { steps: 0, count: 0 };
    }
    let mut cols = [0u64; 256];
    covering::columns(trees, spares, cost, ts, mark, end1, end2, mask, &mut cols);
    settle_ranked(
        trees,
        edges,
        spares as u32,
        cost,
        ts,
        mark,
        &mut cols,
        end1,
        end2,
        pairs,
    )
}
