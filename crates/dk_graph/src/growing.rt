// A graph to which points are added.
ghost use Rattle.std.specs.Prelude.{◌≡◌, ◌∷◌, ◌++◌, [], ◌<◌, length, None, IfOk};
ghost use Rattle.dk_graph.specs.Names.{place_of};
ghost use Rattle.dk_graph.specs.Graphs.{node_names, GraphGrows};

use crate::edges::Edges;
use crate::graph::Graph;
use crate::nodes::Node;
use crate::raising::{FIRST_RANK, number_above, raise_all};
use dk_base::{NoMemory, PointId};
use std::collections::VecDeque;
use std::marker::Model;

// Points with their edges, of which some parents are still to be raised above their children. There may be cycles.
#[derive(Drop)]
pub struct Growing {
    edges: Edges,
    ranks: Vec<u32>,
    queue: VecDeque<u32>,
}

impl Model for Growing {
    ghost use Rattle.std.specs.Prelude.{List};
    ghost use Rattle.dk_graph.specs.declared.nodes.Node.{Node};
    ghost use Rattle.dk_graph.specs.Kept.{HasRisingRanks};

    ghost Value = { List Node };

    ghost view = { λ g. g.edges };

    ghost invariant = { λ g. HasRisingRanks g.edges g.ranks.items g.queue.items };
}

impl Growing {
    // The points of a graph; no parent is to be raised.
    pub fn new(graph: Graph) -> Growing
        ensures { result ≡ graph }
    {
        let Graph { edges, ranks } = graph;
        let queue = VecDeque::new(edges.alloc());
        Growing {
            edges,
            ranks,
            queue,
        }
    }

    // One point more, which goes last. Its own rank is known; its parents are still to be raised.
    pub fn with(self, node: Node) -> Result<Growing, NoMemory>
        requires new { place_of (node_names self) node.name ≡ None }
        requires few { length self < 65535 }
        ensures { IfOk result (λ g. g ≡ self ++ node ∷ []) }
    {
        let Growing {
            edges,
            mut ranks,
            mut queue,
        } = self;
        let place = edges.len();
        let edges = edges.with(node)?;
        let children = edges.edges_into(PointId(place));
        let rank = number_above(FIRST_RANK - place, children, ranks.as_slice());
        ranks.push(rank)?;
        queue.push_back(place)?;
        Ok(Growing {
            edges,
            ranks,
            queue,
        })
    }

    // The graph of these points, once all parents have been raised. None where there is a cycle.
    pub fn into_graph(self) -> Result<Option<Graph>, NoMemory>
        ensures { IfOk result (λ g. GraphGrows g self) }
    {
        let Growing {
            edges,
            mut ranks,
            queue,
        } = self;
        if raise_all(&edges, ranks.as_mut_slice(), queue)? {
            Ok(Some(Graph { edges, ranks }))
        } else {
            Ok(None)
        }
    }
}
