// Rows of edges.
ghost use Rattle.std.specs.Prelude.{◌≡◌, ◌∷◌, ◌++◌, [], ◌≤◌, length, map, nat_lt, IfOk, OnOk};
ghost use Rattle.std.specs.List.{position_or_len};
ghost use Rattle.dk_graph.specs.Raising.{ParentsBelow};
ghost use Rattle.dk_graph.specs.Rows.{edge_to, by_number, inserted, spread, ChildrenBelow};

use crate::nodes::{Edge, Waiting};
use dk_base::{NoMemory, PointId};
use smallvec::SmallVec;
use std::alloc::Global;
use std::marker::Model;

// Edges in a row, which contracts see as a list. One or two lie inline.
#[derive(Drop)]
pub struct EdgeRow {
    kept: SmallVec<Edge, 2>,
}

impl Model for EdgeRow {
    ghost use Rattle.std.specs.Prelude.{List};
    ghost use Rattle.dk_graph.specs.declared.nodes.Edge.{Edge};

    ghost Value = { List Edge };

    ghost view = { λ r. r.kept.items };
}

impl EdgeRow {
    // A row without edges.
    pub fn new(alloc: Global) -> EdgeRow
        ensures { result ≡ [] }
    {
        EdgeRow {
            kept: SmallVec::new(alloc),
        }
    }

    // The edges of the row, in order.
    pub fn as_slice(&self) -> &[Edge]
        ensures { result.now ≡ self.now }
    {
        self.kept.as_slice()
    }

    // The edge goes last.
    pub fn push(&mut self, edge: Edge) -> Result<(), NoMemory>
        ensures { OnOk result (self.new ≡ self.old ++ edge ∷ []) }
    {
        self.kept.push(edge)?;
        Ok(())
    }
}

// Where the first edge with a greater number stands, or the end.
fn place_by_number(number: u64, row: &[Edge]) -> usize
    ensures place { result ≡ position_or_len (λ e. nat_lt number e.number) row.now }
    ensures within { result ≤ length row.now }
{
    for (place, edge) in row.iter().enumerate() {
        if number < edge.number {
            return place;
        }
    }
    row.len()
}

impl EdgeRow {
    // The edge goes before the first with a greater number.
    fn insert_by_number(&mut self, edge: Edge) -> Result<(), NoMemory>
        ensures { OnOk result (self.new ≡ by_number edge self.old) }
    {
        let place = place_by_number(edge.number, self.as_slice());
        self.kept.insert(place, edge)?;
        Ok(())
    }
}

// The edges that links become once their parent has come.
pub fn edges_of_waiting(
    alloc: Global,
    parent: PointId,
    links: &[Waiting],
) -> Result<EdgeRow, NoMemory>
    ensures { IfOk result (λ row. row ≡ map (edge_to parent) links.now) }
{
    let mut row = EdgeRow::new(alloc);
    for link in links {
        row.push(Edge {
            child: link.child,
            parent,
            number: link.number,
        })?;
    }
    Ok(row)
}

// The edges go to the rows of their children, by number.
pub fn insert_by_child(edges: &[Edge], from: &mut Vec<EdgeRow>) -> Result<(), NoMemory>
    requires { ChildrenBelow (length from.old.items) edges.now }
    ensures { OnOk result (from.new.items ≡ inserted from.old.items edges.now) }
{
    for edge in edges {
        from[edge.child.0 as usize].insert_by_number(*edge)?;
    }
    Ok(())
}

// The edges go to the rows of their parents, last.
pub fn push_by_parent(edges: &[Edge], into: &mut Vec<EdgeRow>) -> Result<(), NoMemory>
    requires { ParentsBelow (length into.old.items) edges.now }
    ensures { OnOk result (into.new.items ≡ spread into.old.items edges.now) }
{
    for edge in edges {
        into[edge.parent.0 as usize].push(*edge)?;
    }
    Ok(())
}
