// The partners of a parent's variables in a child, derived ones included.
ghost use Rattle.std.specs.Prelude.{◌≡◌, ◌<◌, ◌≤◌, ◌^◌, IfSome, length, option_and_then, option_map};
ghost use Rattle.dk_derive.specs.Partners.{form_through, partner_by_form, partner_with_derived, place_of_form, same_form};
ghost use Rattle.dk_derive.specs.Vars.{with_derived_vars};
ghost use Rattle.dk_points.specs.Partners.{partner_of};
ghost use Rattle.dk_points.specs.Vars.{vars_of};

use crate::forms::is_base_form;
use dk_base::{Form, VarId, VarInfo};
use dk_graph::Edge;
use dk_points::Points;

fn same_form(a: Form, b: Form) -> bool
    ensures { result ≡ same_form a b }
{
    a == b
}

fn place_of_form(child: &[VarInfo], form: Form) -> Option<VarId>
    requires { length child.now < 2 ^ 32 }
    ensures place { option_map (λ v. v.0) result ≡ place_of_form child.now form }
    ensures within { IfSome result (λ v. v.0 < length child.now) }
{
    for (place, var) in child.iter().enumerate() {
        if same_form(form, var.form) {
            return Some(VarId(place as u32));
        }
    }
    None
}

// The partner of a base variable; none where the parent has no base variable at this place.
fn base_partner(points: &Points, edge: Edge, w: VarId) -> Option<VarId>
    requires child_point { edge.child.0 < length points.now }
    requires parent_point { edge.parent.0 < length points.now }
    ensures partner { option_map (λ v. v.0) result ≡ partner_of points.now edge w.0 }
    ensures within { IfSome result (λ v. v.0 < length (vars_of points.now edge.child.0)) }
{
    if (w.0 as usize) < points.vars(edge.parent).len() {
        points.partner(edge, w)
    } else {
        None
    }
}

// The form that is derived in the same way of the partners of its bases.
fn form_through(points: &Points, edge: Edge, form: Form) -> Option<Form>
    requires child_point { edge.child.0 < length points.now }
    requires parent_point { edge.parent.0 < length points.now }
    ensures { result ≡ form_through (partner_of points.now edge) form }
{
    let partner = |v: VarId| base_partner(points, edge, v);
    match form {
        Form::Declared => None,
        Form::Orig => None,
        Form::Size(s) => Some(Form::Size(partner(s)?)),
        Form::First(s) => Some(Form::First(partner(s)?)),
        Form::Last(s) => Some(Form::Last(partner(s)?)),
        Form::At(s, i) => Some(Form::At(partner(s)?, partner(i)?)),
        Form::Upto(s, i) => Some(Form::Upto(partner(s)?, partner(i)?)),
        Form::Before(s, i) => Some(Form::Before(partner(s)?, partner(i)?)),
        Form::Since(s, i) => Some(Form::Since(partner(s)?, partner(i)?)),
        Form::After(s, i) => Some(Form::After(partner(s)?, partner(i)?)),
    }
}

fn derived_partner(points: &Points, edge: Edge, child: &[VarInfo], form: Form) -> Option<VarId>
    requires child_point { edge.child.0 < length points.now }
    requires parent_point { edge.parent.0 < length points.now }
    requires few { length child.now < 2 ^ 32 }
    ensures partner { option_map (λ v. v.0) result ≡ option_and_then (place_of_form child.now) (form_through (partner_of points.now edge) form) }
    ensures within { IfSome result (λ v. v.0 < length child.now) }
{
    match form_through(points, edge, form) {
        None => None,
        Some(form) => place_of_form(child, form),
    }
}

// The partner of the variable of this form that stands at `w`.
fn partner_by_form(
    points: &Points,
    edge: Edge,
    child: &[VarInfo],
    w: VarId,
    form: Form,
) -> Option<VarId>
    requires child_point { edge.child.0 < length points.now }
    requires parent_point { edge.parent.0 < length points.now }
    requires few { length child.now < 2 ^ 32 }
    ensures partner { option_map (λ v. v.0) result ≡ partner_by_form points.now edge child.now w.0 form }
    ensures within { length (vars_of points.now edge.child.0) ≤ length child.now → IfSome result (λ v. v.0 < length child.now) }
{
    if is_base_form(form) {
        base_partner(points, edge, w)
    } else {
        derived_partner(points, edge, child, form)
    }
}

/// The partner among the child's variables of the parent's variable `w` through the edge. Of a base variable it is that of
/// `Points::partner`; of a derived one it is the variable that is derived in the same way of its bases' partners, if each of them has
/// one. It takes no memory, and at most one scan of the child's variables.
pub fn partner(
    points: &Points,
    edge: Edge,
    parent: &[VarInfo],
    child: &[VarInfo],
    w: VarId,
) -> Option<VarId>
    requires child_point { edge.child.0 < length points.now }
    requires parent_point { edge.parent.0 < length points.now }
    requires var { w.0 < length parent.now }
    requires few { length child.now < 2 ^ 32 }
    ensures partner { option_map (λ v. v.0) result ≡ partner_with_derived points.now edge parent.now child.now w.0 }
    ensures within { child.now ≡ with_derived_vars (vars_of points.now edge.child.0) → IfSome result (λ v. v.0 < length child.now) }
{
    partner_by_form(points, edge, child, w, parent[w.0 as usize].form)
}
