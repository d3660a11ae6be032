// The judge of answer frames made elsewhere, over a job held in arrays.
#![tactic(auto)]

ghost use Rattle.std.specs.Prelude.{◌≡◌};
ghost use Rattle.frame.specs.Job.{Job};
ghost use Rattle.frame.specs.Arrays.{arrays};
ghost use Rattle.frame.specs.Answers.{judge_answer};
ghost use Rattle.held.specs.Held.{Held};

use answer_read::load_answer;

// Judges an answer frame to an accepted job: yes exactly if it is laid out as an answer whose steps, costs and pairs hold.
pub fn certify(
    frame: &[u8],
    nodes: u32,
    edges: usize,
    ts: &[u32; 256],
    end1: &[u32; 256],
    end2: &[u32; 256],
    cost: &[u32; 256],
    mark: &[u32; 256],
    mask: &[u64; 64],
) -> bool
    requires { (j : Job) × Held j nodes edges (arrays end1.now end2.now cost.now mark.now ts.now mask.now) }
    ensures { (j : Job)
        → Held j nodes edges (arrays end1.now end2.now cost.now mark.now ts.now
        mask.now)
        → result ≡ judge_answer j frame.now }
{
    let trees = nodes as usize - 1;
    let mut costs = [0u32; 256];
    let mut pairs = [0u32; 128];
    let Some(found) = load_answer(frame, edges, &mut costs, &mut pairs) else {
        return false;
    };
    let steps = found.steps as u64;
    let count = found.count;
    if weighing::steps(edges, cost, &costs) != steps {
        return false;
    }
    if !cheapest::judge_unsorted(edges, ts, trees, end1, end2, &costs, mark, mask) {
        return false;
    }
    if !pairing::pairs_hold(
        count, &pairs, edges, ts, trees, end1, end2, cost, mark, mask,
    ) {
        return false;
    }
    if !weighing::pairs_rise(count, &pairs) {
        return false;
    }
    weighing::pairs_weight(count, &pairs, cost) == steps
}
