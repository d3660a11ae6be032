// Reads a packet log, packet by packet, and replays it over the costs.
#![tactic(auto)]

ghost use Rattle.std.specs.Prelude.{◌≡◌, ◌≤◌, length, drop};
ghost use Rattle.std.proofs.Math.Option.{map};
ghost use Rattle.limits.specs.Limits.{max_number};
ghost use Rattle.sheet.specs.Sheet.{InRange};
ghost use Rattle.sheet.specs.Reading.{costs_at};
ghost use Rattle.sheet_read.specs.Applying.{given};
ghost use Rattle.replay.specs.Log.{stepped, replayed};
ghost use Rattle.replay.specs.LogReading.{read_log};
ghost use Rattle.packets.specs.Packets.{packet_at};

use limits::MOST_NUMBER;

// A packet of a log: a link, whether its cost goes up, and the position behind them.
#[derive(Clone, Copy)]
pub struct Packet {
    pub edge: u32,
    pub up: bool,
    pub next: usize,
}

// The packet at a position of a log to a job of so many links; none if no packet of one of these links stands there.
pub fn packet_at(log: &[u8], at: usize, edges: usize) -> Option<Packet>
    ensures { result ≡ packet_at edges log.now at }
{
    let link = leb128::read_long(log, at)?;
    let edge = link.value;
    if edges <= edge as usize {
        return None;
    }
    // 0 and 1 in shortest form are one byte.
    let direction = *log.get(link.next)?;
    if 1 < direction {
        return None;
    }
    Some(Packet {
        edge,
        up: direction == 1,
        next: link.next + 1,
    })
}

// A cost after one step; one that would leave 0 to 2,097,151 stays.
pub fn step_cost(cost: u32, up: bool) -> u32
    requires { cost ≤ max_number }
    ensures { result ≡ stepped up cost }
{
    if !up {
        return cost.saturating_sub(1);
    }
    if cost < MOST_NUMBER {
        return cost + 1;
    }
    cost
}

// Hears the packets of a log from a position on: each moves a cost. False, if it is no log from there on, and then the costs may be
// changed in part.
pub fn hear_rest(log: &[u8], from: usize, edges: usize, costs: &mut [u32; 256]) -> bool
    requires edges_bound { edges ≤ 256 }
    requires costs_len { length costs.old ≡ 256 }
    requires in_range { InRange edges (costs_at costs.old) }
    ensures { given result (costs_at costs.new)
        ≡ map (λ qs. replayed qs (costs_at costs.old)) (read_log edges (drop from log.now)) }
{
    let mut at = from;
    while at < log.len() {
        let Some(packet) = packet_at(log, at, edges) else {
            return false;
        };
        let place = packet.edge as usize;
        costs[place] = step_cost(costs[place], packet.up);
        at = packet.next;
    }
    true
}
