// The points of a table.
ghost use Rattle.std.specs.Prelude.{◌≡◌, ◌<◌, ◌≤◌, All, [], false, true, length, map, IfOk, IfSome, Some, slice_get, take};
ghost use Rattle.std.specs.Option.{option_map, option_map_or};
ghost use Rattle.dk_base.specs.Shapes.{shape_of, with_derived};
ghost use Rattle.dk_graph.specs.Graphs.{AreRanks, ParentsAreDeeper, depth_of, edges_from, edges_into, has_cycle, place_in};
ghost use Rattle.dk_graph.specs.Names.{place_of};
ghost use Rattle.dk_points.specs.Ends.{AreFrom, AreInto};
ghost use Rattle.dk_points.specs.Kept.{IsPlaceBehind, point_of_place};
ghost use Rattle.dk_points.specs.Laws.{IsBaseVar};
ghost use Rattle.dk_points.specs.Links.{nodes};
ghost use Rattle.dk_points.specs.Names.{role_of};
ghost use Rattle.dk_points.specs.Partners.{partner_of};
ghost use Rattle.dk_points.specs.Bare.{have_bare_names};
ghost use Rattle.dk_points.specs.Table.{decl_at, name_of, names};
ghost use Rattle.dk_points.specs.Vars.{entry_of, vars_of};

use crate::partners::partner_in;
use crate::places::KeptPoint;
use crate::roles::Role;
use dk_base::{List, NoMemory, PointId, VarId, VarInfo};
use dk_decl::PointDecl;
use dk_graph::{Edge, Graph};
use std::alloc::Global;
use std::marker::Model;

/// The table of points: what the declarations so far make. Contracts see the points in order.
#[derive(Drop)]
pub struct Points {
    pub(crate) alloc: Global,
    pub(crate) graph: Graph,
    pub(crate) places: List<KeptPoint>,
}

impl Model for Points {
    ghost use Rattle.std.specs.Prelude.{List};
    ghost use Rattle.dk_points.specs.Kept.{IsKept, points_of_places};
    ghost use Rattle.dk_points.specs.Table.{Point};

    ghost Value = { List Point };

    ghost view = { λ t. points_of_places t.places };

    ghost invariant = { λ t. IsKept t.graph t.places };
}

impl Points {
    /// The table without points.
    pub fn new(alloc: Global) -> Result<Points, NoMemory>
        ensures { IfOk result (λ points. points ≡ []) }
    {
        let graph = Graph::new(alloc)?;
        Ok(Points {
            alloc,
            graph,
            places: List::new(alloc),
        })
    }

    /// How many points there are, implicit exits counted.
    pub fn len(&self) -> u32
        ensures len { result ≡ length self.now }
        ensures few { length self.now ≤ 65535 }
        ensures acyclic { has_cycle (nodes self.now) ≡ false }
    {
        self.graph.len()
    }

    /// The point of this name.
    pub fn find(&self, name: &[u8]) -> Option<PointId>
        ensures place { option_map place_in result ≡ place_of (names self.now) name.now }
        ensures within { IfSome result (λ p. p.0 < length self.now) }
    {
        self.graph.find(name)
    }

    /// The point of this name, where another point is tried first; that need be none of the table's.
    pub fn find_from(&self, first: PointId, name: &[u8]) -> Option<PointId>
        ensures place { option_map place_in result ≡ place_of (names self.now) name.now }
        ensures within { IfSome result (λ p. p.0 < length self.now) }
    {
        self.graph.find_from(first, name)
    }

    /// The point's name.
    pub fn name(&self, p: PointId) -> &[u8]
        requires { p.0 < length self.now }
        ensures { slice_get (names self.now) p.0 ≡ Some result.now }
    {
        self.graph.name(p)
    }

    // What is kept of a point.
    pub(crate) fn place(&self, p: PointId) -> &KeptPoint
        requires { p.0 < length self.now }
        ensures point { slice_get self.now p.0 ≡ Some (point_of_place result.now) }
        ensures kept { IsPlaceBehind (take p.0 self.now) result.now }
    {
        &self.places.as_slice()[p.0 as usize]
    }

    /// Whether the point is an implicit exit, which no block declares.
    pub fn is_implicit(&self, p: PointId) -> bool
        requires { p.0 < length self.now }
        ensures { option_map (λ q. q.is_implicit) (slice_get self.now p.0) ≡ Some result }
    {
        self.place(p).is_implicit
    }

    /// The point's declaration. An implicit exit has none.
    pub fn decl(&self, p: PointId) -> Option<&PointDecl>
        requires { p.0 < length self.now }
        ensures { option_map (λ d. d.now) result ≡ decl_at self.now p.0 }
    {
        let place = self.place(p);
        if place.is_implicit {
            None
        } else {
            Some(&place.own.decl)
        }
    }

    /// Whether the name of each variable that the point's block declares has bytes, each of them above the blank, and none of them a
    /// backslash: a line that is such a name spells it. An implicit exit, which no block declares, has no such variable.
    pub fn has_bare_names(&self, p: PointId) -> bool
        requires { p.0 < length self.now }
        ensures { result ≡ option_map_or (λ d. have_bare_names d.vars) (decl_at self.now p.0) true }
    {
        let place = self.place(p);
        place.is_implicit || place.own.is_bare
    }

    /// The role of the point in the calls of its method, by its declaration's name. An implicit exit, which no block declares, has none.
    pub fn role(&self, p: PointId) -> Option<Role>
        requires { p.0 < length self.now }
        ensures { result ≡ option_map (λ d. role_of d.name) (decl_at self.now p.0) }
    {
        let place = self.place(p);
        if place.is_implicit {
            None
        } else {
            Some(place.own.role)
        }
    }

    /// The base variables: the declared ones that are not opaque, then the orig ones. With the derived ones there are at most 16,384.
    pub fn vars(&self, p: PointId) -> &[VarInfo]
        requires { p.0 < length self.now }
        ensures vars { result.now ≡ vars_of self.now p.0 }
        ensures base { All IsBaseVar result.now }
        ensures few { length (with_derived (map shape_of result.now)) ≤ 16384 }
    {
        self.place(p).own.vars.as_slice()
    }

    /// The entry that an exit must match: that of its method, if it was declared before the exit.
    pub fn entry(&self, p: PointId) -> Option<PointId>
        requires { p.0 < length self.now }
        ensures entry { option_map place_in result ≡ entry_of self.now p.0 }
        ensures within { IfSome result (λ e. e.0 < p.0) }
    {
        self.place(p).own.entry
    }

    /// The edges from the point to its parents, by number. An edge's number is its place among all edges of its child, declared ones
    /// first and a made one last. Edges that are dropped have no place, and those to points that are not in the table have one.
    pub fn from(&self, p: PointId) -> &[Edge]
        requires { p.0 < length self.now }
        ensures edges { result.now ≡ edges_from (nodes self.now) p.0 }
        ensures ends { AreFrom (length self.now) p.0 result.now }
    {
        self.graph.edges_from(p)
    }

    /// The edges into the point from its children, by child and then by number.
    pub fn into(&self, p: PointId) -> &[Edge]
        requires { p.0 < length self.now }
        ensures edges { result.now ≡ edges_into (nodes self.now) p.0 }
        ensures ends { AreInto (length self.now) p.0 result.now }
    {
        self.graph.edges_into(p)
    }

    /// A number for each point, in order, of which each parent's is greater than its children's. They take no memory.
    pub fn ranks(&self) -> &[u32]
        ensures { AreRanks (nodes self.now) result.now }
    {
        self.graph.ranks()
    }

    /// The number of edges on the longest path of edges that ends in the point. A child's depth is less than its parent's. It goes down
    /// all paths that end there; `ranks` are at hand.
    pub fn depth(&self, p: PointId) -> u32
        requires { p.0 < length self.now }
        ensures depth { result ≡ depth_of (nodes self.now) p.0 }
        ensures parents { ParentsAreDeeper (nodes self.now) }
    {
        self.graph.depth(p)
    }

    /// The partner among the child's base variables of the parent's base variable `w` through the edge. It takes no memory.
    pub fn partner(&self, edge: Edge, w: VarId) -> Option<VarId>
        requires child { edge.child.0 < length self.now }
        requires parent { edge.parent.0 < length self.now }
        requires var { w.0 < length (vars_of self.now edge.parent.0) }
        ensures partner { option_map (λ v. v.0) result ≡ partner_of self.now edge w.0 }
        ensures within { IfSome result (λ v. v.0 < length (vars_of self.now edge.child.0)) }
    {
        let var = &self.vars(edge.parent)[w.0 as usize];
        match partner_in(self.place(edge.child), edge.number, var) {
            None => None,
            Some(place) => Some(VarId(place as u32)),
        }
    }
}
