// Packets heard until the marked tree is cheapest, over a job in arrays: the number of violations is kept, and corrected by each
// packet.
#![tactic(auto)]

ghost use Rattle.std.specs.Prelude.{◌≡◌, ℕ, length};
ghost use Rattle.sheet.specs.Reading.{costs_at};
ghost use Rattle.replay.specs.Log.{heard};
ghost use Rattle.violations.specs.Counting.{Countable, violations_by};
ghost use Rattle.watch.specs.Watching.{RangedCosts, Hears, Watched};

use ids::Edge;

// How far a log has been heard.
#[derive(Clone, Copy)]
pub struct Heard {
    // How many packets, and the position behind them.
    pub count: usize,
    pub at: usize,
    // The violations after them: the tree is cheapest if there are none.
    pub violations: u32,
}

// Hears one packet, which moves a cost by one unless it would leave the range; gives the violations after it.
fn hear(
    before: u32,
    edge: Edge,
    up: bool,
    edges: usize,
    ranks: &[u32; 256],
    end1: &[u32; 256],
    end2: &[u32; 256],
    cost: &mut [u32; 256],
    mark: &[u32; 256],
    mask: &[u64; 64],
) -> u32
    requires by_index { (count : ℕ) × Countable edges count ranks.now end1.now end2.now mark.now mask.now }
    requires hears { Hears edges before edge.0 ranks.now end1.now end2.now cost.old mark.now mask.now }
    ensures places { length cost.new ≡ 256 }
    ensures costs { costs_at cost.new ≡ heard (record { edge = edge.0; up = up }) (costs_at cost.old) }
    ensures violations { result ≡ violations_by edges ranks.now end1.now end2.now mark.now
        mask.now (costs_at cost.new) }
{
    let place = edge.0 as usize;
    let old = cost[place];
    let new = packets::step_cost(old, up);
    if new == old {
        return before;
    }
    let after = violations::after_step(
        before, edge, old, new, edges, ranks, end1, end2, cost, mark, mask,
    );
    cost[place] = new;
    after
}

// Hears the packets of a log until the marked tree is cheapest: from the start, after some of them, or not at all; none if one so far
// is none of the job. The costs are left as they then are.
#[tactic(auto, using(crate::specs::WatchLaws::watched_to))]
pub fn until_cheapest(
    log: &[u8],
    edges: usize,
    ranks: &[u32; 256],
    end1: &[u32; 256],
    end2: &[u32; 256],
    cost: &mut [u32; 256],
    mark: &[u32; 256],
    mask: &[u64; 64],
) -> Option<Heard>
    requires by_index { (count : ℕ) × Countable edges count ranks.now end1.now end2.now mark.now mask.now }
    requires ranged_costs { RangedCosts edges cost.old }
    ensures { Watched edges log.now (violations_by edges ranks.now end1.now end2.now
        mark.now mask.now) cost.old result cost.new }
{
    let mut violations = violations::count_all(edges, ranks, end1, end2, cost, mark, mask);
    let mut count: usize = 0;
    let mut at: usize = 0;
    while at < log.len() && violations != 0 {
        let packet = packets::packet_at(log, at, edges)?;
        violations = hear(
            violations,
            Edge(packet.edge),
            packet.up,
            edges,
            ranks,
            end1,
            end2,
            cost,
            mark,
            mask,
        );
        at = packet.next;
        count += 1;
    }
    Some(Heard {
        count,
        at,
        violations,
    })
}
