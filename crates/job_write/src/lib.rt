// Writes the job frame of links held in arrays, group by group, so that its numbers need not be listed first.
#![tactic(auto)]

ghost use Rattle.std.specs.Prelude.{◌≡◌, ◌+◌, ◌<◌, ◌≤◌, Err, IfErr, OnOk, length};
ghost use Rattle.std.proofs.lemmas.List.Edits.{sets};
ghost use Rattle.frame.specs.Job.{fields, job_frame};
ghost use Rattle.frame.specs.Services.{written};
ghost use Rattle.frame.specs.Arrays.{columns, link_at, job_at};
ghost use Rattle.codec.specs.Numbers.{numbers_at, Told, outcome};
ghost use Rattle.job_write.specs.Groups.{group};

use limits::Refusal;

// Numbers of a job frame that stand together: the two counts, or the four of a link.
#[derive(Clone, Copy)]
struct Group {
    numbers: [u32; 4],
    count: usize,
}

// The four numbers of a link.
fn link_numbers(
    e: usize,
    end1: &[u32; 256],
    end2: &[u32; 256],
    cost: &[u32; 256],
    mark: &[u32; 256],
) -> [u32; 4]
    requires { e < 256 }
    ensures { result ≡ fields (link_at (columns end1.now end2.now cost.now mark.now) e) }
{
    [end1[e], end2[e], cost[e], mark[e]]
}

// Group 0 has the two counts, group e + 1 the numbers of link e.
fn group_at(
    i: usize,
    nodes: u32,
    edges: usize,
    end1: &[u32; 256],
    end2: &[u32; 256],
    cost: &[u32; 256],
    mark: &[u32; 256],
) -> Group
    requires i_le_edges { i ≤ edges }
    requires edges_bound { edges ≤ 256 }
    ensures places { length result.numbers ≡ 4 }
    ensures few { result.count ≤ 4 }
    ensures listed { numbers_at result.count result.numbers
        ≡ group nodes edges (columns end1.now end2.now cost.now mark.now) i }
{
    if i == 0 {
        let count = edges as u32;
        return Group {
            numbers: [nodes, count, 0, 0],
            count: 2,
        };
    }
    let numbers = link_numbers(i - 1, end1, end2, cost, mark);
    Group { numbers, count: 4 }
}

// How many bytes the job frame takes.
fn frame_size(
    nodes: u32,
    edges: usize,
    end1: &[u32; 256],
    end2: &[u32; 256],
    cost: &[u32; 256],
    mark: &[u32; 256],
) -> usize
    requires { edges ≤ 256 }
    ensures { result ≡ length (job_frame (job_at nodes edges (columns end1.now end2.now cost.now mark.now))) }
{
    let mut total: usize = 0;
    for i in 0..edges + 1 {
        let g = group_at(i, nodes, edges, end1, end2, cost, mark);
        total += codec::numbers_size(&g.numbers, g.count);
    }
    total
}

// Puts the job frame at a position.
fn put_frame(
    area: &mut [u8],
    at: usize,
    nodes: u32,
    edges: usize,
    end1: &[u32; 256],
    end2: &[u32; 256],
    cost: &[u32; 256],
    mark: &[u32; 256],
)
    requires edges_bound { edges ≤ 256 }
    requires mark_in_bounds { at + length (job_frame (job_at nodes edges (columns end1.now end2.now cost.now mark.now))) ≤ length area.old }
    ensures { area.new ≡ sets area.old at
        (job_frame (job_at nodes edges (columns end1.now end2.now cost.now mark.now))) }
{
    let mut next = at;
    for i in 0..edges + 1 {
        let g = group_at(i, nodes, edges, end1, end2, cost, mark);
        next = codec::write_numbers(area, next, &g.numbers, g.count);
    }
}

// Writes the job frame of links in arrays at a position of the area; question 7. Gives the length.
fn write_frame(
    nodes: u32,
    edges: usize,
    end1: &[u32; 256],
    end2: &[u32; 256],
    cost: &[u32; 256],
    mark: &[u32; 256],
    area: &mut [u8],
    at: usize,
) -> Result<usize, Refusal>
    requires { edges ≤ 256 }
    ensures { outcome result area.new
        ≡ written 0 (job_frame (job_at nodes edges (columns end1.now end2.now cost.now mark.now))) at area.old }
{
    let size = frame_size(nodes, edges, end1, end2, cost, mark);
    if area.len() < at {
        return Err(Refusal::Room);
    }
    if area.len() - at < size {
        return Err(Refusal::Room);
    }
    put_frame(area, at, nodes, edges, end1, end2, cost, mark);
    Ok(size)
}

// Writes the job frame of links in arrays at a position of the area, unless there was an error before, which is handed on;
// question 7, in the caller's own errors. Gives the length.
pub fn write_job<E: Copy + From<Refusal>>(
    earlier: Result<(), E>,
    nodes: u32,
    edges: usize,
    end1: &[u32; 256],
    end2: &[u32; 256],
    cost: &[u32; 256],
    mark: &[u32; 256],
    area: &mut [u8],
    at: usize,
) -> Result<usize, E>
    requires { OnOk earlier (edges ≤ 256) }
    ensures refused { IfErr earlier (λ e. (result ≡ Err e) × (area.new ≡ area.old)) }
    ensures written { OnOk earlier (Told E.from_gives result (λ r. outcome r area.new
        ≡ written 0 (job_frame (job_at nodes edges (columns end1.now end2.now cost.now mark.now))) at area.old)) }
{
    if earlier.is_err() {
        return earlier.map(|_| 0);
    }
    let length = write_frame(nodes, edges, end1, end2, cost, mark, area, at)?;
    Ok(length)
}
