// The edges of declarations that points keep.
ghost use Rattle.std.specs.Prelude.{◌≡◌, ◌||◌, Bool, false, IfOk, map};
ghost use Rattle.std.specs.List.{list_any};
ghost use Rattle.std.specs.Option.{option_map, option_map_or};
ghost use Rattle.dk_points.specs.KeptEdges.{is_dropped, kept_by};
ghost use Rattle.dk_points.specs.Links.{is_to, same_edge};

use dk_base::{List, NoMemory, Text, same_bytes};
use dk_decl::EdgeDecl;
use std::alloc::Global;

pub(crate) fn same_edge(a: &EdgeDecl, b: &EdgeDecl) -> bool
    ensures { result ≡ same_edge a.now b.now }
{
    same_bytes(a.parent.as_slice(), b.parent.as_slice()) && a.id == b.id
}

fn has_edge(edges: &[EdgeDecl], edge: &EdgeDecl) -> bool
    ensures { result ≡ list_any (same_edge edge.now) edges.now }
{
    for other in edges {
        if same_edge(edge, other) {
            return true;
        }
    }
    false
}

fn is_to_combined(edge: &EdgeDecl, combined: Option<&Text>) -> bool
    ensures { result ≡ option_map_or (λ name. is_to name edge.now) (option_map (λ c. c.now) combined.entry) false }
{
    match combined {
        None => false,
        Some(name) => same_bytes(edge.parent.as_slice(), name.as_slice()),
    }
}

fn is_dropped(combined: Option<&Text>, taken: &[EdgeDecl], edge: &EdgeDecl) -> bool
    ensures { result ≡ is_dropped (option_map (λ c. c.now) combined.entry) taken.now edge.now }
{
    is_to_combined(edge, combined) || has_edge(taken, edge)
}

// The kept edges of a declaration: their places in it, and their parents' names.
#[derive(Drop)]
pub(crate) struct KeptEdges {
    pub(crate) places: List<u64>,
    pub(crate) links: List<Text>,
}

/// The edges that are neither to the combined exit nor taken already.
pub(crate) fn kept_edges(
    alloc: Global,
    edges: &[EdgeDecl],
    combined: Option<&Text>,
    taken: &[EdgeDecl],
) -> Result<KeptEdges, NoMemory>
    ensures places { IfOk result (λ kept. kept.places ≡ map (λ e. e.0) (kept_by (option_map (λ c. c.now) combined.entry) taken.now edges.now)) }
    ensures links { IfOk result (λ kept. kept.links ≡ map (λ e. e.1.parent) (kept_by (option_map (λ c. c.now) combined.entry) taken.now edges.now)) }
{
    let mut places = List::new(alloc);
    let mut links = List::new(alloc);
    for (place, edge) in edges.iter().enumerate() {
        if !is_dropped(combined, taken, edge) {
            places.push(place as u64)?;
            links.push(Text::from_slice(alloc, edge.parent.as_slice())?)?;
        }
    }
    Ok(KeptEdges { places, links })
}
