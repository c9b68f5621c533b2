// Shortcuts of ways past points whose samples all come by one edge.
ghost use Rattle.std.specs.Prelude.{◌≡◌, ◌<◌, ◌^◌, All, IfOk, None, OnOk, false, length, replicate};
ghost use Rattle.dk_graph.specs.Graphs.{has_cycle};
ghost use Rattle.dk_hierarchy.specs.Shortcuts.{AreShortcuts, shortcut_at, shortened, way_of_edge};
ghost use Rattle.dk_hierarchy.specs.Standing.{AreEnginesOf};
ghost use Rattle.dk_points.specs.Links.{nodes};

use crate::Way;
use crate::composing::{onward, partners_of};
use dk_base::{NoMemory, PointId};
use dk_engine::Engine;
use dk_graph::Edge;
use dk_points::Points;
use std::alloc::Global;

/// Past a point: the way by which those that come to it go on, since all samples of the point are those that this way brings. None
/// where ways stay.
pub type Shortcut = Option<Way>;

/// The way goes on by the shortcut of its lower point.
pub(crate) fn go_on(alloc: Global, shortcuts: &[Shortcut], way: &mut Way) -> Result<(), NoMemory>
    ensures { OnOk result (way.new ≡ shortened (shortcut_at shortcuts.now way.old.point.0) way.old) }
{
    if let Some(Some(rest)) = shortcuts.get(way.point.0 as usize) {
        way.partners = onward(alloc, rest.partners.as_slice(), way.partners.as_slice())?;
        way.point = rest.point;
    }
    Ok(())
}

// The way down an edge alone.
fn way_of_edge(
    alloc: Global,
    points: &Points,
    engines: &[Engine],
    edge: Edge,
) -> Result<Way, NoMemory>
    requires engines { AreEnginesOf points.now engines.now }
    requires child { edge.child.0 < length points.now }
    requires parent { edge.parent.0 < length points.now }
    ensures { IfOk result (λ way. way ≡ way_of_edge points.now edge) }
{
    let parent = engines[edge.parent.0 as usize].vars();
    let child = engines[edge.child.0 as usize].vars();
    Ok(Way {
        point: edge.child,
        partners: partners_of(alloc, points, edge, parent, child)?,
        paths: 1,
    })
}

// Ways pass a point that has no own samples, if one edge alone comes into it.
fn shorten(
    alloc: Global,
    points: &Points,
    engines: &[Engine],
    shortcuts: &mut [Shortcut],
    p: PointId,
) -> Result<(), NoMemory>
    requires engines { AreEnginesOf points.now engines.now }
    requires acyclic { has_cycle (nodes points.now) ≡ false }
    requires point { p.0 < length points.now }
    requires long { length shortcuts.old ≡ length points.now }
    requires shortcuts { AreShortcuts points.now engines.now shortcuts.old }
    ensures { OnOk result (AreShortcuts points.now engines.now shortcuts.new) }
{
    if engines[p.0 as usize].counts().samples > 0 {
        return Ok(());
    }
    if let [edge] = points.into(p) {
        let mut way = way_of_edge(alloc, points, engines, *edge)?;
        go_on(alloc, shortcuts, &mut way)?;
        shortcuts[p.0 as usize] = Some(way);
    }
    Ok(())
}

// At first ways stay at each of so many points.
fn at_first(alloc: Global, number: u32) -> Result<Vec<Shortcut>, NoMemory>
    ensures { IfOk result (λ shortcuts. shortcuts.items ≡ replicate number None) }
{
    let mut shortcuts = Vec::new(alloc);
    for _ in 0..number {
        shortcuts.push(None)?;
    }
    Ok(shortcuts)
}

// The points with their ranks, by rank, so that children stand before their parents.
fn by_rank(alloc: Global, ranks: &[u32]) -> Result<Vec<(u32, u32)>, NoMemory>
    requires { length ranks.now < 2 ^ 32 }
    ensures { IfOk result (λ order. All (λ at. at.1 < length ranks.now) order.items) }
{
    let mut order = Vec::new(alloc);
    for p in 0..ranks.len() as u32 {
        order.push((ranks[p as usize], p))?;
    }
    order.sort()?;
    Ok(order)
}

/// The shortcuts of a table's points, in order. From the lowest rank up, each point without own samples that one edge alone comes into
/// is passed, so that in a chain of such points no way meets more than one of them. They take an entry for each variable of the table
/// at most.
pub fn shortcuts(
    alloc: Global,
    points: &Points,
    engines: &[Engine],
) -> Result<Vec<Shortcut>, NoMemory>
    requires { AreEnginesOf points.now engines.now }
    ensures { IfOk result (λ shortcuts. AreShortcuts points.now engines.now shortcuts.items) }
{
    let mut shortcuts = at_first(alloc, points.len())?;
    let order = by_rank(alloc, points.ranks())?;
    for (_, p) in order.as_slice() {
        shorten(
            alloc,
            points,
            engines,
            shortcuts.as_mut_slice(),
            PointId(*p),
        )?;
    }
    Ok(shortcuts)
}
