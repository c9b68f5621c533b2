// Points with their edges by child and by parent.
ghost use Rattle.std.specs.Prelude.{◌≡◌, ◌∷◌, ◌++◌, [], ◌<◌, ◌≤◌, length, None, Some, IfOk, OnOk, IfSome, slice_get, option_map, filter_map};
ghost use Rattle.dk_graph.specs.Names.{place_of};
ghost use Rattle.dk_graph.specs.Graphs.{node_names, edges_from, edges_into, place_in, edge_of, links_to_parents};
ghost use Rattle.dk_graph.specs.Kept.{waited};
ghost use Rattle.dk_graph.specs.Joined.{AreJoined};

use crate::names::Names;
use crate::nodes::{Edge, Node, Waiting};
use crate::notes::Notes;
use crate::rows::{EdgeRow, edges_of_waiting, insert_by_child, push_by_parent};
use dk_base::{List, NoMemory, PointId, Text};
use std::alloc::Global;
use std::marker::Model;

// Points, and what is kept beside them: their names, the links that wait for their parents, and a row of edges by child and by parent
// for each.
#[derive(Drop)]
pub(crate) struct Parts {
    nodes: List<Node>,
    names: Names,
    waiting: Notes,
    from: Vec<EdgeRow>,
    into: Vec<EdgeRow>,
}

// Points with their edges. There may be cycles.
#[derive(Drop)]
pub struct Edges {
    alloc: Global,
    parts: Parts,
}

impl Model for Edges {
    ghost use Rattle.std.specs.Prelude.{List};
    ghost use Rattle.dk_graph.specs.declared.nodes.Node.{Node};
    ghost use Rattle.dk_graph.specs.Joined.{AreJoined};

    ghost Value = { List Node };

    ghost view = { λ e. e.parts.nodes };

    ghost invariant = { λ e. AreJoined e.parts };
}

impl Edges {
    // Edges between no points.
    pub fn new(alloc: Global) -> Edges
        ensures { result ≡ [] }
    {
        Edges {
            alloc,
            parts: Parts {
                nodes: List::new(alloc),
                names: Names::new(alloc),
                waiting: Notes::new(alloc),
                from: Vec::new(alloc),
                into: Vec::new(alloc),
            },
        }
    }

    // How many points there are.
    pub fn len(&self) -> u32
        ensures len { result ≡ length self.now }
        ensures few { length self.now ≤ 65535 }
    {
        self.parts.nodes.len() as u32
    }

    // The point of a name.
    pub fn find(&self, name: &[u8]) -> Option<PointId>
        ensures place { option_map place_in result ≡ place_of (node_names self.now) name.now }
        ensures within { IfSome result (λ p. p.0 < length self.now) }
    {
        match self.parts.names.find(name) {
            Some(place) => Some(PointId(place as u32)),
            None => None,
        }
    }

    // The point of a name, where this one is tried first.
    pub fn find_from(&self, first: PointId, name: &[u8]) -> Option<PointId>
        ensures place { option_map place_in result ≡ place_of (node_names self.now) name.now }
        ensures within { IfSome result (λ p. p.0 < length self.now) }
    {
        match self.parts.names.find_from(first.0 as usize, name) {
            Some(place) => Some(PointId(place as u32)),
            None => None,
        }
    }

    // The name of a point.
    pub fn name(&self, p: PointId) -> &[u8]
        requires { p.0 < length self.now }
        ensures { slice_get (node_names self.now) p.0 ≡ Some result.now }
    {
        self.parts.names.get(p.0 as usize)
    }

    // The edges from a point to its parents, by number.
    pub fn edges_from(&self, p: PointId) -> &[Edge]
        requires { p.0 < length self.now }
        ensures { result.now ≡ edges_from self.now p.0 }
    {
        self.parts.from[p.0 as usize].as_slice()
    }

    // The edges into a point from its children, by child and then by number.
    pub fn edges_into(&self, p: PointId) -> &[Edge]
        requires { p.0 < length self.now }
        ensures { result.now ≡ edges_into self.now p.0 }
    {
        self.parts.into[p.0 as usize].as_slice()
    }
}

// A point's links, one after another: those whose parents are among the names become edges, and the others are noted.
fn sort_links(
    names: &Names,
    child: PointId,
    links: &[Text],
    own: &mut EdgeRow,
    waiting: &mut Notes,
) -> Result<(), NoMemory>
    requires { length names.now ≤ 65535 }
    ensures own { OnOk result (own.new ≡ own.old ++ filter_map (edge_of names.now) (links_to_parents child.0 links.now)) }
    ensures waiting { OnOk result (waiting.new ≡ waited names.now (links_to_parents child.0 links.now) waiting.old) }
{
    for (number, link) in links.iter().enumerate() {
        match names.find(link.as_slice()) {
            Some(parent) => own.push(Edge {
                child,
                parent: PointId(parent as u32),
                number: number as u64,
            })?,
            None => waiting.push(
                link.as_slice(),
                Waiting {
                    child,
                    number: number as u64,
                },
            )?,
        }
    }
    Ok(())
}

impl Parts {
    // One point more, which goes last. After a refusal nothing is said of the parts.
    fn push(&mut self, alloc: Global, node: Node) -> Result<(), NoMemory>
        requires joined { AreJoined self.old }
        requires new { place_of (node_names self.old.nodes) node.name ≡ None }
        requires few { length self.old.nodes < 65535 }
        ensures nodes { OnOk result (self.new.nodes ≡ self.old.nodes ++ node ∷ []) }
        ensures joined { OnOk result (AreJoined self.new) }
    {
        let place = PointId(self.nodes.len() as u32);
        let children = edges_of_waiting(alloc, place, self.waiting.under(node.name.as_slice()))?;
        insert_by_child(children.as_slice(), &mut self.from)?;
        self.into.push(children)?;
        self.names.push(node.name.as_slice())?;
        let mut own = EdgeRow::new(alloc);
        sort_links(
            &self.names,
            place,
            node.links.as_slice(),
            &mut own,
            &mut self.waiting,
        )?;
        push_by_parent(own.as_slice(), &mut self.into)?;
        self.from.push(own)?;
        self.nodes.push(node)
    }
}

impl Edges {
    // Where the edges ask for memory.
    pub fn alloc(&self) -> Global {
        self.alloc
    }

    // One point more, which goes last.
    pub fn with(self, node: Node) -> Result<Edges, NoMemory>
        requires new { place_of (node_names self) node.name ≡ None }
        requires few { length self < 65535 }
        ensures { IfOk result (λ edges. edges ≡ self ++ node ∷ []) }
    {
        let Edges { alloc, mut parts } = self;
        parts.push(alloc, node)?;
        Ok(Edges { alloc, parts })
    }
}
