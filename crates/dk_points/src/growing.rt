// Points that are added to the table.
ghost use Rattle.std.specs.Prelude.{◌≡◌, ◌<◌, ◌∷◌, ◌++◌, [], IfOk, None, Some, bytes_eq, false, length, map, true};
ghost use Rattle.std.specs.Option.{option_map, option_to_list};
ghost use Rattle.dk_graph.specs.Names.{place_of};
ghost use Rattle.dk_points.specs.Declaring.{has_many_vars};
ghost use Rattle.dk_points.specs.Kept.{IsOwnBehind, TableGrows, point_of_place};
ghost use Rattle.dk_points.specs.KeptEdges.{kept_by};
ghost use Rattle.dk_points.specs.Next.{IsNext};
ghost use Rattle.dk_points.specs.Links.{kept_edges};
ghost use Rattle.dk_points.specs.Names.{combined_name, combined_of};
ghost use Rattle.dk_points.specs.Table.{added_points, declared_point, implicit_exit, makes_exit, names};

use crate::links::{KeptEdges, kept_edges};
use crate::places::{KeptPoint, Own};
use crate::points::Points;
use dk_base::{List, NoMemory, Text};
use dk_graph::Node;
use std::alloc::Global;
use std::rc::Rc;

// The links of a subexit end in the one to its combined exit.
fn with_made(links: List<Text>, combined: Option<Text>) -> Result<List<Text>, NoMemory>
    ensures { IfOk result (λ all. all ≡ links ++ option_to_list combined) }
{
    let mut all = links;
    if let Some(name) = combined {
        all.push(name)?;
    }
    Ok(all)
}

fn only(alloc: Global, name: &Text) -> Result<List<Text>, NoMemory>
    ensures { IfOk result (λ list. list ≡ name.now ∷ []) }
{
    let mut list = List::new(alloc);
    list.push(Text::from_slice(alloc, name.as_slice())?)?;
    Ok(list)
}

// What one point more brings: its node in the graph, and its place in the table.
#[derive(Drop)]
pub(crate) struct Added {
    pub(crate) node: Node,
    pub(crate) place: KeptPoint,
}

// The declared point, with the edges that it keeps and the one to its combined exit.
fn declared_point(
    alloc: Global,
    own: Own,
    kept: KeptEdges,
    combined: Option<Text>,
) -> Result<Added, NoMemory>
    ensures name { IfOk result (λ a. a.node.name ≡ own.decl.name) }
    ensures links { IfOk result (λ a. a.node.links ≡ kept.links ++ option_to_list combined) }
    ensures own { IfOk result (λ a. a.place.own.value ≡ own) }
    ensures declared { IfOk result (λ a. a.place.is_implicit ≡ false) }
    ensures kept { IfOk result (λ a. a.place.kept ≡ kept.places) }
{
    let name = Text::from_slice(alloc, own.decl.name.as_slice())?;
    let links = with_made(kept.links, combined)?;
    let own = Rc::new(alloc, own)?;
    Ok(Added {
        node: Node { name, links },
        place: KeptPoint {
            own,
            is_implicit: false,
            kept: kept.places,
        },
    })
}

// The implicit exit of a subexit: it has all edges of the subexit but those to itself.
fn implicit_exit(alloc: Global, own: &Rc<Own>, combined: Text) -> Result<Added, NoMemory>
    ensures name { IfOk result (λ a. a.node.name ≡ combined) }
    ensures links { IfOk result (λ a. a.node.links ≡ map (λ e. e.1.parent) (kept_by (Some combined) [] own.now.value.decl.edges)) }
    ensures own { IfOk result (λ a. a.place.own.value ≡ own.now.value) }
    ensures implicit { IfOk result (λ a. a.place.is_implicit ≡ true) }
    ensures kept { IfOk result (λ a. a.place.kept ≡ map (λ e. e.0) (kept_by (Some combined) [] own.now.value.decl.edges)) }
{
    let kept = kept_edges(alloc, own.decl.edges.as_slice(), Some(&combined), &[])?;
    Ok(Added {
        node: Node {
            name: combined,
            links: kept.links,
        },
        place: KeptPoint {
            own: own.clone()?,
            is_implicit: true,
            kept: kept.places,
        },
    })
}

// A subexit behind its implicit exit: the edge to that one is its only edge.
fn subexit(alloc: Global, own: Rc<Own>, combined: &Text) -> Result<Added, NoMemory>
    ensures name { IfOk result (λ a. a.node.name ≡ own.value.decl.name) }
    ensures links { IfOk result (λ a. a.node.links ≡ combined.now ∷ []) }
    ensures own { IfOk result (λ a. a.place.own.value ≡ own.value) }
    ensures declared { IfOk result (λ a. a.place.is_implicit ≡ false) }
    ensures kept { IfOk result (λ a. a.place.kept ≡ []) }
{
    let name = Text::from_slice(alloc, own.decl.name.as_slice())?;
    let links = only(alloc, combined)?;
    Ok(Added {
        node: Node { name, links },
        place: KeptPoint {
            own,
            is_implicit: false,
            kept: List::new(alloc),
        },
    })
}

impl Points {
    // The table and behind it one more point. None where the edges would have a cycle.
    pub(crate) fn with_one(self, added: Added) -> Result<Option<Points>, NoMemory>
        requires new { place_of (names self) added.node.name ≡ None }
        requires few { length self < 65535 }
        requires next { IsNext self added }
        ensures { IfOk result (λ points. TableGrows points (self ++ point_of_place added.place ∷ [])) }
    {
        let Points {
            alloc,
            graph,
            mut places,
        } = self;
        places.push(added.place)?;
        match graph.with_one(added.node)? {
            None => Ok(None),
            Some(graph) => Ok(Some(Points {
                alloc,
                graph,
                places,
            })),
        }
    }

    // The table and behind it two more points, of which the second stands behind the first. None where the edges would have a cycle.
    fn with_two(self, first: Added, second: Added) -> Result<Option<Points>, NoMemory>
        requires first_new { place_of (names self) first.node.name ≡ None }
        requires second_new { place_of (names self) second.node.name ≡ None }
        requires differ { bytes_eq first.node.name second.node.name ≡ false }
        requires few { length self < 65534 }
        requires first { IsNext self first }
        requires second { IsNext (self ++ point_of_place first.place ∷ []) second }
        ensures { IfOk result (λ points. TableGrows points (self ++ point_of_place first.place ∷ point_of_place second.place ∷ [])) }
    {
        let Points {
            alloc,
            graph,
            mut places,
        } = self;
        places.push(first.place)?;
        places.push(second.place)?;
        match graph.with_two(first.node, second.node)? {
            None => Ok(None),
            Some(graph) => Ok(Some(Points {
                alloc,
                graph,
                places,
            })),
        }
    }

    // The table with the declared point behind it. None where the edges would have a cycle.
    pub(crate) fn with_declared(
        self,
        own: Own,
        combined: Option<Text>,
    ) -> Result<Option<Points>, NoMemory>
        requires new { place_of (names self) own.decl.name ≡ None }
        requires few { length self < 65535 }
        requires own { IsOwnBehind self own }
        requires few_vars { has_many_vars self own.decl ≡ false }
        requires combined { combined ≡ combined_of own.decl.name }
        ensures { IfOk result (λ points. TableGrows points (self ++ declared_point own.decl ∷ [])) }
    {
        let kept = self.kept_edges(&own.decl, combined.as_ref())?;
        let added = declared_point(self.alloc, own, kept, combined)?;
        self.with_one(added)
    }

    // The table and behind it the implicit exit and the subexit that makes it. None where the edges would have a cycle.
    pub(crate) fn with_exit(self, own: Own, combined: Text) -> Result<Option<Points>, NoMemory>
        requires new { place_of (names self) own.decl.name ≡ None }
        requires makes { makes_exit self own.decl ≡ true }
        requires few { length self < 65534 }
        requires own { IsOwnBehind self own }
        requires few_vars { has_many_vars self own.decl ≡ false }
        requires combined { combined ≡ combined_name own.decl.name }
        ensures { IfOk result (λ points. TableGrows points (self ++ implicit_exit own.decl ∷ declared_point own.decl ∷ [])) }
    {
        let own = Rc::new(self.alloc, own)?;
        let point = subexit(self.alloc, own.clone()?, &combined)?;
        let exit = implicit_exit(self.alloc, &own, combined)?;
        self.with_two(exit, point)
    }
}
