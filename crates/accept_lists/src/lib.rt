// Questions 1 to 6, put to a list of links; an accepted list's job is then held in arrays, with its tree ranks and paths.
#![tactic(auto)]

ghost use Rattle.std.specs.Prelude.{◌≡◌, length, OnOk};
ghost use Rattle.limits.specs.Refusals.{refusal_in};
ghost use Rattle.frame.specs.Questions.{list_refusal};
ghost use Rattle.frame.specs.Arrays.{columns, arrays, job_at};
ghost use Rattle.held.specs.Held.{Held};
ghost use Rattle.accept.specs.Accepting.{Empty, SomeHeld};
ghost use Rattle.accept_lists.specs.Lists.{ListHeld};
ghost use Rattle.accept_lists.specs.Given.{count_refusal, Given, ListAccepted};

use accept::check_job;
use job::Header;
use limits::{MOST_COUNT, MOST_LENGTH, MOST_NUMBER, Refusal};
use records::ListCopy;

// Questions 1 to 6 for links in arrays; question 3 is met. Of an accepted list the tree ranks and paths are found.
pub fn accept_list(
    nodes: u32,
    edges: usize,
    end1: &[u32; 256],
    end2: &[u32; 256],
    cost: &[u32; 256],
    mark: &[u32; 256],
    ts: &mut [u32; 256],
    mask: &mut [u64; 64],
) -> Result<(), Refusal>
    requires list_held { ListHeld edges (columns end1.now end2.now cost.now mark.now) }
    requires ts_len { length ts.old ≡ 256 }
    ensures refusal { refusal_in result ≡ list_refusal (job_at nodes edges (columns end1.now end2.now cost.now mark.now)) }
    ensures held { OnOk result (Held (job_at nodes edges (columns end1.now end2.now cost.now mark.now)) nodes edges
        (arrays end1.now end2.now cost.now mark.now ts.new mask.new)) }
{
    match links::check_list(nodes, edges, end1, end2, cost, mark) {
        Ok(()) => check_job(nodes, edges, end1, end2, cost, mark, ts, mask, true),
        Err(refusal) => Err(refusal),
    }
}

// What is known before a link is looked at: by the word on large numbers and by the counts.
fn check_counts(nodes: u32, count: usize, small: bool) -> Result<(), Refusal>
    ensures { refusal_in result ≡ count_refusal nodes count small }
{
    if MOST_NUMBER < nodes {
        return Err(Refusal::Numbers);
    }
    if MOST_LENGTH < count {
        return Err(Refusal::Numbers);
    }
    if !small {
        return Err(Refusal::Numbers);
    }
    if MOST_COUNT < count {
        return Err(Refusal::Counts);
    }
    Ok(())
}

// The first refusal of questions 1 to 6 for a list of records, or the counts, with the job in the arrays.
pub fn accept_links(
    nodes: u32,
    list: ListCopy,
    end1: &mut [u32; 256],
    end2: &mut [u32; 256],
    cost: &mut [u32; 256],
    mark: &mut [u32; 256],
    ts: &mut [u32; 256],
    mask: &mut [u64; 64],
) -> Result<Header, Refusal>
    requires { Empty (arrays end1.old end2.old cost.old mark.old ts.old mask.old) }
    ensures list { Given nodes list (λ n. refusal_in result ≡ n)
        (λ j. ListAccepted j result (arrays end1.new end2.new cost.new mark.new ts.new mask.new)) }
    ensures job { SomeHeld result (arrays end1.new end2.new cost.new mark.new ts.new mask.new) }
{
    let count = list.count;
    check_counts(nodes, count, list.small)?;
    let links = list.links;
    records::spread(count, links, end1, end2, cost, mark);
    accept_list(nodes, count, end1, end2, cost, mark, ts, mask)?;
    Ok(Header {
        nodes,
        edges: count as u32,
    })
}
