// The partners of a parent's variables in a child.
ghost use Rattle.std.specs.Prelude.{◌≡◌, ◌<◌, IfSome, find, length, option_and_then, position, slice_get};
ghost use Rattle.std.specs.Option.{option_map};
ghost use Rattle.dk_base.specs.Shapes.{is_orig};
ghost use Rattle.dk_points.specs.Partners.{gives, is_like, partner_name, plain_name};

use crate::places::KeptPoint;
use crate::variables::same_kind;
use dk_base::{Form, VarInfo, same_bytes};
use dk_decl::{PointDecl, VarDecl};

/// Whether it is the form of what a declared variable had at the entry.
pub fn is_orig(form: Form) -> bool
    ensures { result ≡ is_orig form }
{
    match form {
        Form::Orig => true,
        _ => false,
    }
}

/// The name N of the variable N or orig(N).
pub fn plain_name(var: &VarInfo) -> &[u8]
    ensures { result.now ≡ plain_name var.now }
{
    let name = var.name.as_slice();
    if !is_orig(var.form) {
        return name;
    }
    if name.len() < 6 {
        return &[];
    }
    &name[5..name.len() - 1]
}

// Whether the variable has a line of the edge that gives this name.
fn gives(var: &VarDecl, edge: u64, name: &[u8]) -> bool
    ensures { result ≡ gives edge name.now var.now }
{
    for line in var.parents.as_slice() {
        if line.edge == edge && same_bytes(name, line.name.as_slice()) {
            return true;
        }
    }
    false
}

fn giver<'a>(vars: &'a [VarDecl], edge: u64, name: &[u8]) -> Option<&'a VarDecl>
    ensures { option_map (λ v. v.now) result ≡ find (gives edge name.now) vars.now }
{
    for var in vars {
        if gives(var, edge, name) {
            return Some(var);
        }
    }
    None
}

/// The name in the child, through one of its declared edges or, if there is none, through the one that was made.
pub(crate) fn partner_name<'a>(
    decl: &'a PointDecl,
    edge: Option<u64>,
    name: &'a [u8],
) -> Option<&'a [u8]>
    ensures { option_map (λ n. n.now) result ≡ partner_name decl.now edge name.now }
{
    match edge {
        None => Some(name),
        Some(edge) => match giver(decl.vars.as_slice(), edge, name) {
            None => None,
            Some(var) => Some(var.name.as_slice()),
        },
    }
}

fn is_like(w: &VarInfo, name: &[u8], v: &VarInfo) -> bool
    ensures { result ≡ is_like w.now name.now v.now }
{
    same_bytes(name, plain_name(v))
        && same_kind(v.kind, w.kind)
        && is_orig(v.form) == is_orig(w.form)
}

/// The first of the variables with this plain name, and kind and form of `w`.
pub(crate) fn place_like(vars: &[VarInfo], w: &VarInfo, name: &[u8]) -> Option<usize>
    ensures place { result ≡ position (is_like w.now name.now) vars.now }
    ensures within { IfSome result (λ i. i < length vars.now) }
{
    for (place, v) in vars.iter().enumerate() {
        if is_like(w, name, v) {
            return Some(place);
        }
    }
    None
}

/// The place among the child's variables of the partner of `w`, through the child's edge of this number.
pub(crate) fn partner_in(child: &KeptPoint, number: u64, w: &VarInfo) -> Option<usize>
    ensures place { result ≡ option_and_then (λ name. position (is_like w.now name) child.now.own.value.vars) (partner_name child.now.own.value.decl (slice_get child.now.kept number) (plain_name w.now)) }
    ensures within { IfSome result (λ i. i < length child.now.own.value.vars) }
{
    let declared = child.kept.as_slice().get(number as usize).copied();
    match partner_name(&child.own.decl, declared, plain_name(w)) {
        None => None,
        Some(name) => place_like(child.own.vars.as_slice(), w, name),
    }
}
