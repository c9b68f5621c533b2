// The partners of a point's variables down an edge.
ghost use Rattle.std.specs.Prelude.{◌≡◌, ◌<◌, ◌≤◌, ◌^◌, IfOk, length};
ghost use Rattle.dk_hierarchy.specs.Descent.{own_partners};
ghost use Rattle.dk_hierarchy.specs.Samples.{all_vars_of, partners_of};
ghost use Rattle.dk_hierarchy.specs.Ways.{partners_below};

use crate::way::partner_at;
use dk_base::{List, NoMemory, VarId, VarInfo};
use dk_derive::partner;
use dk_graph::Edge;
use dk_points::Points;
use std::alloc::Global;

// A variable is its own partner on the path without an edge.
pub(crate) fn own_partners(alloc: Global, number: u32) -> Result<List<Option<VarId>>, NoMemory>
    ensures { IfOk result (λ partners. partners ≡ own_partners number) }
{
    let mut partners = List::new(alloc);
    for v in 0..number {
        partners.push(Some(VarId(v)))?;
    }
    Ok(partners)
}

/// The partner of each variable of the edge's parent, in their order; none where a variable has none. It asks for the variables of the two
/// points, fewer than 2^32 each. Want of memory is the only error.
pub fn partners_of(
    alloc: Global,
    points: &Points,
    edge: Edge,
    parent: &[VarInfo],
    child: &[VarInfo],
) -> Result<List<Option<VarId>>, NoMemory>
    requires child_point { edge.child.0 < length points.now }
    requires parent_point { edge.parent.0 < length points.now }
    requires parent { parent.now ≡ all_vars_of points.now edge.parent.0 }
    requires child { child.now ≡ all_vars_of points.now edge.child.0 }
    requires few_above { length parent.now < 2 ^ 32 }
    requires few_below { length child.now < 2 ^ 32 }
    ensures { IfOk result (λ partners. partners ≡ partners_of points.now edge) }
{
    let mut partners = List::new(alloc);
    for w in 0..parent.len() as u32 {
        partners.push(partner(points, edge, parent, child, VarId(w)))?;
    }
    Ok(partners)
}

// Of partners at an edge's parent, the partners at its child.
pub(crate) fn onward(
    alloc: Global,
    below: &[Option<VarId>],
    partners: &[Option<VarId>],
) -> Result<List<Option<VarId>>, NoMemory>
    ensures { IfOk result (λ next. next ≡ partners_below below.now partners.now) }
{
    let mut next = List::new(alloc);
    for partner in partners {
        next.push(match *partner {
            None => None,
            Some(v) => partner_at(below, v),
        })?;
    }
    Ok(next)
}
