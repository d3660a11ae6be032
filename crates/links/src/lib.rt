// Questions 1, 2, 4 and 5 over links held in arrays.
#![tactic(auto)]

ghost use Rattle.std.specs.Prelude.{◌≡◌, ◌≤◌, min};
ghost use Rattle.limits.specs.Limits.{max_edges};
ghost use Rattle.limits.specs.Refusals.{refusal_in};
ghost use Rattle.links.specs.Columns.{ends_apart, ends_hold, marks_hold, links_refusal, Places, links_small};
ghost use Rattle.frame.specs.Arrays.{columns, job_at};
ghost use Rattle.frame.specs.Questions.{list_layout_refusal};

use limits::{MOST_COUNT, MOST_LENGTH, MOST_NODES, MOST_NUMBER, Refusal, UNPLUGGED_MARK};

// Question 4 of one link.
fn ends_apart(nodes: u32, a: u32, b: u32) -> bool
    ensures { result ≡ ends_apart nodes a b }
{
    if nodes <= a {
        return false;
    }
    if nodes <= b {
        return false;
    }
    a != b
}

// Question 4 over arrays: every link's ends are below the station count and different. No exit inside the loop: the compiler
// makes vector code of it.
#[tactic(auto, using(loops::specs::TestLaws::all_next), unfolding(loops::specs::Below::all_below))]
fn ends_hold(nodes: u32, edges: usize, end1: &[u32; 256], end2: &[u32; 256]) -> bool
    requires { edges ≤ 256 }
    ensures { result ≡ ends_hold nodes edges end1.now end2.now }
{
    let mut holds = true;
    for e in 0..edges {
        holds = holds & ends_apart(nodes, end1[e], end2[e]);
    }
    holds
}

// Question 5 over arrays: every mark is 0, 1 or 2. No exit inside the loop, either.
#[tactic(auto, using(loops::specs::TestLaws::all_next), unfolding(loops::specs::Below::all_below))]
fn marks_hold(edges: usize, mark: &[u32; 256]) -> bool
    requires { edges ≤ 256 }
    ensures { result ≡ marks_hold edges mark.now }
{
    let mut holds = true;
    for m in &mark[..edges] {
        holds = holds & (*m <= UNPLUGGED_MARK);
    }
    holds
}

// Questions 4 and 5 over arrays, in this order.
pub fn check_links(
    nodes: u32,
    edges: usize,
    end1: &[u32; 256],
    end2: &[u32; 256],
    mark: &[u32; 256],
) -> Result<(), Refusal>
    requires { edges ≤ 256 }
    ensures { refusal_in result ≡ links_refusal nodes edges end1.now end2.now mark.now }
{
    let apart = ends_hold(nodes, edges, end1, end2);
    let marked = marks_hold(edges, mark);
    if !apart {
        return Err(Refusal::Ends);
    }
    if !marked {
        return Err(Refusal::Marks);
    }
    Ok(())
}

// Question 1 over arrays: every number of the first `edges` links is at most 2,097,151.
fn links_small(
    edges: usize,
    end1: &[u32; 256],
    end2: &[u32; 256],
    cost: &[u32; 256],
    mark: &[u32; 256],
) -> bool
    requires { edges ≤ 256 }
    ensures { result ≡ links_small edges (columns end1.now end2.now cost.now mark.now) }
{
    (0..edges).all(|e| {
        end1[e] <= MOST_NUMBER
            && end2[e] <= MOST_NUMBER
            && cost[e] <= MOST_NUMBER
            && mark[e] <= MOST_NUMBER
    })
}

// How many of so many links the arrays hold.
fn held(edges: usize) -> usize
    ensures { result ≡ min edges max_edges }
{
    if edges < MOST_COUNT {
        return edges;
    }
    MOST_COUNT
}

// Questions 1 and 2 for links in arrays; question 3 is met. Of more than 256 links the arrays hold
// the first 256, and the others' numbers have to be small.
pub fn check_list(
    nodes: u32,
    edges: usize,
    end1: &[u32; 256],
    end2: &[u32; 256],
    cost: &[u32; 256],
    mark: &[u32; 256],
) -> Result<(), Refusal>
    requires { Places (columns end1.now end2.now cost.now mark.now) }
    ensures { refusal_in result ≡ list_layout_refusal (job_at nodes edges (columns end1.now end2.now cost.now mark.now)) }
{
    if MOST_NUMBER < nodes {
        return Err(Refusal::Numbers);
    }
    if MOST_LENGTH < edges {
        return Err(Refusal::Numbers);
    }
    let n = held(edges);
    if !links_small(n, end1, end2, cost, mark) {
        return Err(Refusal::Numbers);
    }
    if nodes < 1 {
        return Err(Refusal::Counts);
    }
    if MOST_NODES < nodes {
        return Err(Refusal::Counts);
    }
    if MOST_COUNT < edges {
        return Err(Refusal::Counts);
    }
    Ok(())
}
