// Questions 1 to 6, put to a job frame; an accepted job is then held in arrays, with its tree ranks and paths where they are asked
// for.
#![tactic(auto)]

ghost use Rattle.std.specs.Prelude.{◌≡◌, length, IfOk, OnOk};
ghost use Rattle.limits.specs.Refusals.{refusal_in};
ghost use Rattle.frame.specs.Job.{Job};
ghost use Rattle.frame.specs.Questions.{job_of, job_refusal, refusal};
ghost use Rattle.frame.specs.Arrays.{columns, arrays};
ghost use Rattle.held.specs.Held.{Stored};
ghost use Rattle.job.specs.Reading.{Headed};
ghost use Rattle.accept.specs.Accepting.{Empty, HeldAs};

use job::Header;
use limits::Refusal;

// Questions 4 to 6 for a job in arrays that has passed the others. If the tree links are to be ranked, an accepted job's ranks and
// paths are found. Question 6 is put to the tree links in any order.
pub fn check_job(
    nodes: u32,
    edges: usize,
    end1: &[u32; 256],
    end2: &[u32; 256],
    cost: &[u32; 256],
    mark: &[u32; 256],
    ts: &mut [u32; 256],
    mask: &mut [u64; 64],
    ranked: bool,
) -> Result<(), Refusal>
    requires stored { (j : Job) × Stored j nodes edges (columns end1.now end2.now cost.now mark.now) }
    requires ts_len { length ts.old ≡ 256 }
    ensures refusal { (j : Job) → Stored j nodes edges (columns end1.now end2.now cost.now mark.now)
        → refusal_in result ≡ job_refusal j }
    ensures held { (j : Job) → Stored j nodes edges (columns end1.now end2.now cost.now mark.now)
        → OnOk result (HeldAs ranked j nodes edges
        (arrays end1.now end2.now cost.now mark.now ts.new mask.new)) }
{
    links::check_links(nodes, edges, end1, end2, mark)?;
    let count = ranks::tree_edges(ranked, edges, cost, mark, ts);
    if !paths::question6(nodes, ts, count, end1, end2, mask) {
        return Err(Refusal::Tree);
    }
    Ok(())
}

// The first refusal of questions 1 to 6; or the counts, with the job in the arrays.
pub fn accept(
    frame: &[u8],
    end1: &mut [u32; 256],
    end2: &mut [u32; 256],
    cost: &mut [u32; 256],
    mark: &mut [u32; 256],
    ts: &mut [u32; 256],
    mask: &mut [u64; 64],
    ranked: bool,
) -> Result<Header, Refusal>
    requires { Empty (arrays end1.old end2.old cost.old mark.old ts.old mask.old) }
    ensures header { Headed (refusal frame.now) (job_of frame.now) result }
    ensures job { IfOk result (λ h. HeldAs ranked (job_of frame.now) h.nodes h.edges
        (arrays end1.new end2.new cost.new mark.new ts.new mask.new)) }
{
    let header = job::load_job(frame, end1, end2, cost, mark)?;
    let edges = header.edges as usize;
    check_job(
        header.nodes,
        edges,
        end1,
        end2,
        cost,
        mark,
        ts,
        mask,
        ranked,
    )?;
    Ok(header)
}
