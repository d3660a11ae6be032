// Replays a packet log over the costs of a job frame: the final costs into an area, and after how many packets the marked tree was
// first cheapest.
#![tactic(auto)]

ghost use Rattle.std.specs.Prelude.{List, ℕ};
ghost use Rattle.frame.specs.Arrays.{arrays};
ghost use Rattle.accept.specs.Accepting.{Asked, SomeHeld};
ghost use Rattle.replaying.specs.Replayed.{LogReplayed};

use accept::accept;
use job::Header;
use limits::Refusal;

// What a log came to.
#[derive(Clone, Copy)]
pub struct Replayed {
    // How many bytes the final costs take.
    pub length: usize,
    // After how many packets the marked tree was first cheapest, 0 from the start; none if it never was.
    pub first: Option<usize>,
}

// Replays a log over the costs of a job in arrays, which serve as room, or refuses it and writes nothing. Packets are heard until the
// tree is cheapest; behind them only costs move. Question 9 here: is it a log to the job?
fn replay_held(
    accepted: Result<Header, Refusal>,
    end1: &[u32; 256],
    end2: &[u32; 256],
    cost: &mut [u32; 256],
    mark: &[u32; 256],
    ts: &[u32; 256],
    mask: &[u64; 64],
    log: &[u8],
    area: &mut [u8],
) -> Result<Replayed, Refusal>
    requires { SomeHeld accepted (arrays end1.now end2.now cost.old mark.now ts.now mask.now) }
    ensures { (s : List ℕ)
        → Asked s accepted (arrays end1.now end2.now cost.old mark.now ts.now mask.now)
        → LogReplayed s log.now area.old result area.new }
{
    let header = match accepted {
        Ok(header) => header,
        Err(refusal) => return Err(refusal),
    };
    let edges = header.edges as usize;
    let watched = watch::until_cheapest(log, edges, ts, end1, end2, cost, mark, mask);
    let heard = watched.ok_or(Refusal::Log)?;
    if !packets::hear_rest(log, heard.at, edges, cost) {
        return Err(Refusal::Log);
    }
    let length = codec::write_list(cost, edges, area)?;
    let first = (heard.violations == 0).then_some(heard.count);
    Ok(Replayed { length, first })
}

// Replays a packet log over the costs of a job frame: writes the final costs into the area, or refuses it and writes nothing.
pub fn replay(frame: &[u8], log: &[u8], area: &mut [u8]) -> Result<Replayed, Refusal>
    ensures { LogReplayed frame.now log.now area.old result area.new }
{
    let mut end1 = [0u32; 256];
    let mut end2 = [0u32; 256];
    let mut cost = [0u32; 256];
    let mut mark = [0u32; 256];
    let mut ts = [0u32; 256];
    let mut mask = [0u64; 64];
    let accepted = accept(
        frame, &mut end1, &mut end2, &mut cost, &mut mark, &mut ts, &mut mask, true,
    );
    replay_held(
        accepted, &end1, &end2, &mut cost, &mark, &ts, &mask, log, area,
    )
}
