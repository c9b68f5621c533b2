// The depth of a point.
ghost use Rattle.std.specs.Prelude.{◌≡◌, ◌<◌, length};
ghost use Rattle.dk_graph.specs.Graphs.{AreRanks, depth_of};

use crate::edges::Edges;
use dk_base::PointId;

// The depth of a point, down all paths that end in it. It takes no memory.
pub fn depth_by_paths(nodes: &Edges, ranks: &[u32], p: PointId) -> u32
    requires ranks { AreRanks nodes.now ranks.now }
    requires point { p.0 < length nodes.now }
    ensures { result ≡ depth_of nodes.now p.0 }
{
    let _count = nodes.len();
    let row = nodes.edges_into(p);
    let mut depth = 0;
    for edge in row {
        depth = depth.max(depth_by_paths(nodes, ranks, edge.child) + 1);
    }
    depth
}
