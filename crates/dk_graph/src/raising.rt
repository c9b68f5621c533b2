// Ranks, raised along edges.
ghost use Rattle.std.specs.Prelude.{◌≡◌, ◌∷◌, ◌++◌, [], ◌<◌, ◌≤◌, ◌+◌, length, max, IfOk};
ghost use Rattle.dk_graph.specs.Graphs.{edges};
ghost use Rattle.dk_graph.specs.Raising.{first_rank, raised, WentOn, ParentsBelow, IsLow, IsRising, Rises};
ghost use Rattle.dk_graph.specs.Rows.{above_children};

use crate::edges::Edges;
use crate::nodes::Edge;
use dk_base::{NoMemory, PointId};
use std::collections::VecDeque;

// The first point's rank. Each that comes later begins one lower, and so below all that came before.
pub const FIRST_RANK: u32 = 65_535;

// The least number that is no less than this one and greater than each child's; children without a number do not count.
pub fn number_above(least: u32, children: &[Edge], numbers: &[u32]) -> u32
    requires { IsLow (first_rank + 65535) numbers.now }
    ensures { result ≡ max least (above_children numbers.now children.now) }
{
    let mut number = least;
    for edge in children {
        if let Some(child) = numbers.get(edge.child.0 as usize) {
            number = number.max(*child + 1);
        }
    }
    number
}

// Raises the parents of a child above it, and notes those that were raised. False where one would come to the limit.
#[tactic(auto, unfolding(crate::specs::Raising::above))]
fn raise_parents(
    limit: u32,
    child: usize,
    edges: &[Edge],
    ranks: &mut [u32],
    queue: &mut VecDeque<u32>,
) -> Result<bool, NoMemory>
    requires child { child < length ranks.old }
    requires parents { ParentsBelow (length ranks.old) edges.now }
    ensures { IfOk result (λ b. WentOn b (raised limit child edges.now (record { ranks = ranks.old; queue = queue.old.items })) ranks.new queue.new.items) }
{
    for edge in edges {
        let parent = edge.parent.0;
        if ranks[child] < ranks[parent as usize] {
            continue;
        }
        let rank = ranks[child] as u64 + 1;
        if rank >= limit as u64 {
            return Ok(false);
        }
        ranks[parent as usize] = rank as u32;
        queue.push_back(parent)?;
    }
    Ok(true)
}

// Raises the parents of those that wait, and theirs, until each one's rank is greater than its children's. False where a path has as
// many edges as there are points. No rank is more above the first one than a path has edges.
pub fn raise_all(
    nodes: &Edges,
    ranks: &mut [u32],
    mut queue: VecDeque<u32>,
) -> Result<bool, NoMemory>
    requires all { length ranks.old ≡ length nodes.now }
    requires rising { IsRising (length nodes.now) (edges nodes.now) (record { ranks = ranks.old; queue = queue.items }) }
    ensures { IfOk result (λ b. Rises b (length nodes.now) (edges nodes.now) ranks.new) }
{
    let limit = FIRST_RANK + nodes.len();
    while let Some(child) = queue.pop_front() {
        let row = nodes.edges_from(PointId(child));
        if !raise_parents(limit, child as usize, row, ranks, &mut queue)? {
            return Ok(false);
        }
    }
    Ok(true)
}
