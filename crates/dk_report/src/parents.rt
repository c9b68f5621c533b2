// The parents of a point.
ghost use Rattle.std.specs.Prelude.{◌≡◌, ◌<◌, ◌≤◌, IfOk, length};
ghost use Rattle.std.specs.List.{AllZip};
ghost use Rattle.dk_graph.specs.Graphs.{edges_from};
ghost use Rattle.dk_hierarchy.specs.Shortcuts.{AreShortcuts};
ghost use Rattle.dk_hierarchy.specs.Standing.{AreEnginesOf};
ghost use Rattle.dk_points.specs.Links.{nodes};
ghost use Rattle.dk_report.specs.Parents.{IsParentBy, IsViewBy};

use dk_base::{List, NoMemory, PointId, VarId};
use dk_engine::Engine;
use dk_filters::ParentView;
use dk_hierarchy::{Merged, Shortcut, merge_by, partners_of};
use dk_points::{Edge, Points};
use std::alloc::Global;

/// A parent of a point by an edge: what answers for all its samples, and for each of its variables the partner at the point.
#[derive(Drop)]
pub(crate) struct MergedParent<'e> {
    pub(crate) answers: Merged<'e>,
    pub(crate) partners: List<Option<VarId>>,
}

// The parent of an edge.
fn parent_by<'e>(
    alloc: Global,
    points: &Points,
    engines: &'e [Engine],
    shortcuts: &[Shortcut],
    edge: Edge,
) -> Result<MergedParent<'e>, NoMemory>
    requires engines { AreEnginesOf points.now engines.now }
    requires shortcuts { AreShortcuts points.now engines.now shortcuts.now }
    requires child { edge.child.0 < length points.now }
    requires parent { edge.parent.0 < length points.now }
    ensures { IfOk result (λ parent. IsParentBy points.now engines.now parent edge) }
{
    let parent = engines[edge.parent.0 as usize].vars();
    let child = engines[edge.child.0 as usize].vars();
    Ok(MergedParent {
        answers: merge_by(alloc, points, engines, shortcuts, edge.parent)?,
        partners: partners_of(alloc, points, edge, parent, child)?,
    })
}

/// The parents of a point, one for each edge from it.
pub(crate) fn parents_of<'e>(
    alloc: Global,
    points: &Points,
    engines: &'e [Engine],
    shortcuts: &[Shortcut],
    p: PointId,
) -> Result<Vec<MergedParent<'e>>, NoMemory>
    requires point { p.0 < length points.now }
    requires engines { AreEnginesOf points.now engines.now }
    requires shortcuts { AreShortcuts points.now engines.now shortcuts.now }
    ensures { IfOk result (λ parents. AllZip (IsParentBy points.now engines.now) parents.items (edges_from (nodes points.now) p.0)) }
{
    let mut parents = Vec::new(alloc);
    for edge in points.from(p) {
        parents.push(parent_by(alloc, points, engines, shortcuts, *edge)?)?;
    }
    Ok(parents)
}

// What a parent shows of the point's instances.
fn view_of<'a, 'e>(parent: &'a MergedParent<'e>) -> ParentView<'a, Merged<'e>>
    ensures { IsViewBy result parent.now }
{
    ParentView {
        answers: &parent.answers,
        vars: parent.answers.vars(),
        partner: parent.partners.as_slice(),
    }
}

/// What the parents show of the point's instances.
pub(crate) fn views_of<'a, 'e>(
    alloc: Global,
    parents: &'a [MergedParent<'e>],
) -> Result<Vec<ParentView<'a, Merged<'e>>>, NoMemory>
    ensures { IfOk result (λ views. AllZip IsViewBy views.items parents.now) }
{
    let mut views = Vec::new(alloc);
    for parent in parents {
        views.push(view_of(parent))?;
    }
    Ok(views)
}
