// Answers a job: the new costs with the fewest steps, and the pairing that proves it, into an area.
#![tactic(auto)]

ghost use Rattle.std.specs.Prelude.{◌≡◌, List, ℕ, Ok, Err, IfOk, IfErr};
ghost use Rattle.frame.specs.Job.{Job};
ghost use Rattle.frame.specs.Arrays.{arrays};
ghost use Rattle.codec.specs.Numbers.{Told};
ghost use Rattle.held.specs.Held.{Held};
ghost use Rattle.accept.specs.Accepting.{Asked, SomeHeld};
ghost use Rattle.answering.specs.Answering.{Answered};

use accept::accept;
use job::Header;
use limits::Refusal;
use solve::solve;

// Writes the answer to an accepted job in arrays into the area and gives its length, or refuses it by question 7 and writes
// nothing. Never put into its caller, which would take 16 bytes of stack more.
#[inline(never)]
fn answer_job(
    header: Header,
    end1: &mut [u32; 256],
    end2: &mut [u32; 256],
    cost: &mut [u32; 256],
    mark: &mut [u32; 256],
    ts: &[u32; 256],
    mask: &[u64; 64],
    area: &mut [u8],
) -> Result<usize, Refusal>
    requires { (j : Job)
        × Held j header.nodes header.edges (arrays end1.old end2.old cost.old mark.old ts.now mask.now) }
    ensures { (s : List ℕ)
        → Asked s (Ok header) (arrays end1.old end2.old cost.old mark.old ts.now mask.now)
        → Answered s area.old result area.new }
{
    let nodes = header.nodes;
    let edges = header.edges as usize;
    let mut pairs = [0u32; 128];
    let s = solve(nodes, edges, end1, end2, cost, mark, ts, mask, &mut pairs);
    answer::write_answer(Ok(()), s.steps, edges, cost, s.count, &pairs, area, 0)
}

// Writes the answer to a job in arrays into the area and gives its length, or refuses it and writes nothing; an error before it
// is handed on. The new costs take the place of the old ones, and the arrays of ends and marks serve as room.
pub fn answer_held<E: Copy + From<Refusal>>(
    accepted: Result<Header, E>,
    end1: &mut [u32; 256],
    end2: &mut [u32; 256],
    cost: &mut [u32; 256],
    mark: &mut [u32; 256],
    ts: &[u32; 256],
    mask: &[u64; 64],
    area: &mut [u8],
) -> Result<usize, E>
    requires { SomeHeld accepted (arrays end1.old end2.old cost.old mark.old ts.now mask.now) }
    ensures answered { IfOk accepted (λ h. (s : List ℕ)
        → Asked s (Ok h) (arrays end1.old end2.old cost.old mark.old ts.now mask.now)
        → Told E.from_gives result (λ r. Answered s area.old r area.new)) }
    ensures refused { IfErr accepted (λ e. (result ≡ Err e) × (area.new ≡ area.old)) }
{
    let header = match accepted {
        Ok(header) => header,
        Err(refusal) => return Err(refusal),
    };
    let length = answer_job(header, end1, end2, cost, mark, ts, mask, area)?;
    Ok(length)
}

// Writes the answer to a job frame into the area and gives its length, or refuses it and writes nothing.
pub fn answer(frame: &[u8], area: &mut [u8]) -> Result<usize, Refusal>
    ensures { Answered frame.now area.old result area.new }
{
    let mut end1 = [0u32; 256];
    let mut end2 = [0u32; 256];
    let mut cost = [0u32; 256];
    let mut mark = [0u32; 256];
    let mut ts = [0u32; 256];
    let mut mask = [0u64; 64];
    let accepted = accept(
        frame, &mut end1, &mut end2, &mut cost, &mut mark, &mut ts, &mut mask, true,
    );
    answer_held(
        accepted, &mut end1, &mut end2, &mut cost, &mut mark, &ts, &mask, area,
    )
}
