// Reads a job frame into arrays for 256 links, or refuses it by questions 1 to 3; finds one link's four numbers in it.
#![tactic(auto)]

ghost use Rattle.std.specs.Prelude.{◌≡◌, ◌+◌, ◌*◌, ◌≤◌, length, IfOk, OnOk, OnErr};
ghost use Rattle.frame.specs.Questions.{numbers, job_of, layout_refusal};
ghost use Rattle.codec.specs.Numbers.{Divided, place_of};
ghost use Rattle.job.specs.Reading.{links_loaded, load_links, counts_of, Headed, Laid, filled};
ghost use Rattle.frame.specs.Arrays.{columns};
ghost use Rattle.frame.specs.Services.{nowhere};
ghost use Rattle.frame.specs.Replies.{link_place};

use codec::{Part, number_at, skip};
use division::count_numbers;
use ids::Edge;
use limits::{MOST_EDGES, MOST_NODES, Refusal};

// The two counts of a frame and the position behind them.
#[derive(Clone, Copy)]
pub struct Counts {
    pub nodes: u32,
    pub edges: u32,
    pub behind: usize,
}

// The two counts of a job.
#[derive(Clone, Copy)]
pub struct Header {
    pub nodes: u32,
    pub edges: u32,
}

// The links of a frame's part behind the two counts, each into its place of the arrays; gives the position behind the
// last link. Question 1 has been put: the numbers are there, and are read without its tests.
pub fn read_links(
    part: &[u8],
    edges: usize,
    end1: &mut [u32; 256],
    end2: &mut [u32; 256],
    cost: &mut [u32; 256],
    mark: &mut [u32; 256],
) -> usize
    requires places { edges ≤ 256 }
    requires numbers { Divided part.now 0 (4 * edges) }
    ensures { links_loaded result (columns end1.new end2.new cost.new mark.new)
        ≡ load_links part.now edges (links_loaded 0 (columns end1.old end2.old cost.old mark.old)) }
{
    let mut at: usize = 0;
    for e in 0..edges {
        let a = leb128::read_known(part, at);
        let b = leb128::read_known(part, a.next);
        let c = leb128::read_known(part, b.next);
        let m = leb128::read_known(part, c.next);
        end1[e] = a.value;
        end2[e] = b.value;
        cost[e] = c.value;
        mark[e] = m.value;
        at = m.next;
    }
    at
}

// Questions 1 to 3, each put to the whole frame.
pub fn read_counts(frame: &[u8]) -> Result<Counts, Refusal>
    ensures { result ≡ counts_of (numbers frame.now) }
{
    let count = count_numbers(frame).ok_or(Refusal::Numbers)?;
    if count < 2 {
        return Err(Refusal::Counts);
    }
    let nodes = number_at(frame, 0);
    let edges = number_at(frame, nodes.next);
    if nodes.value < 1 {
        return Err(Refusal::Counts);
    }
    if MOST_NODES < nodes.value {
        return Err(Refusal::Counts);
    }
    if MOST_EDGES < edges.value {
        return Err(Refusal::Counts);
    }
    if count != 4 * (edges.value as usize) + 2 {
        return Err(Refusal::Length);
    }
    Ok(Counts {
        nodes: nodes.value,
        edges: edges.value,
        behind: edges.next,
    })
}

// Reads a job frame: the first refusal of questions 1 to 3; or the counts, with the links in the arrays.
pub fn load_job(
    frame: &[u8],
    end1: &mut [u32; 256],
    end2: &mut [u32; 256],
    cost: &mut [u32; 256],
    mark: &mut [u32; 256],
) -> Result<Header, Refusal>
    ensures header { Headed (layout_refusal frame.now) (job_of frame.now) result }
    ensures links { IfOk result (λ _. columns end1.new end2.new cost.new mark.new
        ≡ filled (job_of frame.now).links 0 (columns end1.old end2.old cost.old mark.old)) }
{
    let counts = read_counts(frame)?;
    let behind = counts.behind;
    let part = &frame[behind..];
    let edges = counts.edges as usize;
    read_links(part, edges, end1, end2, cost, mark);
    Ok(Header {
        nodes: counts.nodes,
        edges: counts.edges,
    })
}

// Where a link's bytes stand; nowhere, of length 0, if the frame is refused or has no such link.
pub fn link_part<E: Copy>(frame: &[u8], accepted: Result<Header, E>, edge: Edge) -> Part
    requires { IfOk accepted (λ h. Laid frame.now h) }
    ensures refused { OnErr accepted (place_of result ≡ nowhere) }
    ensures place { OnOk accepted (place_of result ≡ link_place 0 frame.now edge.0) }
    ensures within { result.offset + result.length ≤ length frame.now }
{
    let Ok(header) = accepted else {
        return Part {
            offset: 0,
            length: 0,
        };
    };
    let edges = header.edges;
    let e = edge.0;
    if edges <= e {
        return Part {
            offset: 0,
            length: 0,
        };
    }
    let first = skip(frame, 0, 4 * (e as usize) + 2);
    let end = skip(frame, first, 4);
    Part {
        offset: first,
        length: end - first,
    }
}
