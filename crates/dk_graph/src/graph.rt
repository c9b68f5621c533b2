// Points with their edges and ranks, without cycles.
ghost use Rattle.std.specs.Prelude.{◌≡◌, ◌∷◌, ◌++◌, [], ◌<◌, ◌≤◌, length, None, Some, IfOk, IfSome, slice_get, option_map, false, bytes_eq};
ghost use Rattle.dk_graph.specs.Names.{place_of};
ghost use Rattle.dk_graph.specs.Graphs.{node_names, edges_from, edges_into, depth_of, has_cycle, place_in, AreRanks, GraphGrows, ParentsAreDeeper};

use crate::depths::depth_by_paths;
use crate::edges::Edges;
use crate::growing::Growing;
use crate::nodes::{Edge, Node};
use dk_base::{NoMemory, PointId};
use std::alloc::Global;
use std::marker::Model;

/// Named points with their edges and ranks. There is no cycle, and there are at most 65,535 points.
#[derive(Drop)]
pub struct Graph {
    pub(crate) edges: Edges,
    pub(crate) ranks: Vec<u32>,
}

impl Model for Graph {
    ghost use Rattle.std.specs.Prelude.{List};
    ghost use Rattle.dk_graph.specs.declared.nodes.Node.{Node};
    ghost use Rattle.dk_graph.specs.Kept.{HasRanks};

    ghost Value = { List Node };

    ghost view = { λ g. g.edges };

    ghost invariant = { λ g. HasRanks g.edges g.ranks.items };
}

impl Graph {
    /// The graph without points.
    pub fn new(alloc: Global) -> Result<Graph, NoMemory>
        ensures { IfOk result (λ g. g ≡ []) }
    {
        Ok(Graph {
            edges: Edges::new(alloc),
            ranks: Vec::new(alloc),
        })
    }

    /// How many points there are.
    pub fn len(&self) -> u32
        ensures len { result ≡ length self.now }
        ensures few { length self.now ≤ 65535 }
        ensures acyclic { has_cycle self.now ≡ false }
    {
        self.edges.len()
    }

    /// The point of a name. It takes no memory.
    pub fn find(&self, name: &[u8]) -> Option<PointId>
        ensures place { option_map place_in result ≡ place_of (node_names self.now) name.now }
        ensures within { IfSome result (λ p. p.0 < length self.now) }
    {
        self.edges.find(name)
    }

    /// The point of a name, where this one is tried first; it need be none. It takes no memory.
    pub fn find_from(&self, first: PointId, name: &[u8]) -> Option<PointId>
        ensures place { option_map place_in result ≡ place_of (node_names self.now) name.now }
        ensures within { IfSome result (λ p. p.0 < length self.now) }
    {
        self.edges.find_from(first, name)
    }

    /// The name of a point.
    pub fn name(&self, p: PointId) -> &[u8]
        requires { p.0 < length self.now }
        ensures { slice_get (node_names self.now) p.0 ≡ Some result.now }
    {
        self.edges.name(p)
    }

    /// The edges from a point to its parents, by number.
    pub fn edges_from(&self, p: PointId) -> &[Edge]
        requires { p.0 < length self.now }
        ensures { result.now ≡ edges_from self.now p.0 }
    {
        self.edges.edges_from(p)
    }

    /// The edges into a point from its children, by child and then by number.
    pub fn edges_into(&self, p: PointId) -> &[Edge]
        requires { p.0 < length self.now }
        ensures { result.now ≡ edges_into self.now p.0 }
    {
        self.edges.edges_into(p)
    }

    /// A number for each point, in order, of which each parent's is greater than its children's. They take no memory.
    pub fn ranks(&self) -> &[u32]
        ensures { AreRanks self.now result.now }
    {
        self.ranks.as_slice()
    }

    /// The number of edges on the longest path that ends in a point. So a child's depth is less than its parent's. It goes down all paths
    /// that end there; `ranks` are at hand.
    pub fn depth(&self, p: PointId) -> u32
        requires { p.0 < length self.now }
        ensures depth { result ≡ depth_of self.now p.0 }
        ensures parents { ParentsAreDeeper self.now }
    {
        depth_by_paths(&self.edges, self.ranks.as_slice(), p)
    }

    /// One point more, which goes last. None where the edges would have a cycle, also one of the point to itself.
    pub fn with_one(self, node: Node) -> Result<Option<Graph>, NoMemory>
        requires new { place_of (node_names self) node.name ≡ None }
        requires few { length self < 65535 }
        ensures { IfOk result (λ g. GraphGrows g (self ++ node ∷ [])) }
    {
        Growing::new(self).with(node)?.into_graph()
    }

    /// Two points more, which go last together. None where the edges would have a cycle.
    pub fn with_two(self, first: Node, second: Node) -> Result<Option<Graph>, NoMemory>
        requires first_new { place_of (node_names self) first.name ≡ None }
        requires second_new { place_of (node_names self) second.name ≡ None }
        requires differ { bytes_eq first.name second.name ≡ false }
        requires few { length self < 65534 }
        ensures { IfOk result (λ g. GraphGrows g (self ++ first ∷ second ∷ [])) }
    {
        Growing::new(self).with(first)?.with(second)?.into_graph()
    }
}
