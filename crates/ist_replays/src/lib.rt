// The function for C on packet logs: it calls the service and carries its promise, with the reply in plain numbers. Crate `ist_c`
// exports it.
#![tactic(auto)]

ghost use Rattle.replaying.specs.Replayed.{LogReplayed};
ghost use Rattle.ist_replays.specs.ReplayTold.{ReplayTold};

use codes::tell;

// The number that tells "never": no log has so many packets.
const NEVER: usize = 18446744073709551615;

// Replays a packet log over the costs of a job frame, and writes the final costs into the area. After how many packets the tree was
// first cheapest is told as one number.
pub fn replay(
    job: &[u8],
    log: &[u8],
    area: &mut [u8],
    written: &mut usize,
    first: &mut usize,
) -> i32
    ensures { ReplayTold (λ said. LogReplayed job.now log.now area.old said area.new) result
        written.new first.new }
{
    match replaying::replay(job, log, area) {
        Ok(done) => {
            *first = done.first.unwrap_or(NEVER);
            tell(Ok(done.length), written)
        }
        Err(refusal) => {
            *first = NEVER;
            tell(Err(refusal), written)
        }
    }
}
