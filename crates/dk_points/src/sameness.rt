// Declarations that are the same.
ghost use Rattle.std.specs.Prelude.{◌≡◌};
ghost use Rattle.std.specs.Cmp.Lexicographic.{pointwise};
ghost use Rattle.dk_base.specs.Values.SameValues.{same_value};
ghost use Rattle.dk_points.specs.Links.{same_edge};
ghost use Rattle.dk_points.specs.Sameness.{same_compar, same_decl, same_option, same_parent_var, same_var};
ghost use Rattle.dk_points.specs.Vars.{same_kind};

use crate::variables::same_kind;
use dk_base::{Compar, Kind, Value, same_bytes, same_kept};
use dk_decl::{EdgeDecl, ParentVar, PointDecl, VarDecl};

fn same_kinds(a: Option<Kind>, b: Option<Kind>) -> bool
    ensures { result ≡ same_option same_kind a b }
{
    match a {
        None => b.is_none(),
        Some(kind) => match b {
            None => false,
            Some(other) => same_kind(kind, other),
        },
    }
}

fn same_value(a: &Value, b: &Value) -> bool
    ensures { result ≡ same_value a.now b.now }
{
    same_kept(a, b)
}

fn same_constant(a: &Option<Value>, b: &Option<Value>) -> bool
    ensures { result ≡ same_option same_value a.now b.now }
{
    match a {
        None => b.is_none(),
        Some(value) => match b {
            None => false,
            Some(other) => same_value(value, other),
        },
    }
}

fn same_compar(a: Compar, b: Compar) -> bool
    ensures { result ≡ same_compar a b }
{
    a.elem == b.elem && a.index == b.index
}

fn same_parents(a: &[ParentVar], b: &[ParentVar]) -> bool
    ensures { result ≡ pointwise same_parent_var a.now b.now }
{
    a == b
}

fn same_edges(a: &[EdgeDecl], b: &[EdgeDecl]) -> bool
    ensures { result ≡ pointwise same_edge a.now b.now }
{
    a == b
}

fn same_var(a: &VarDecl, b: &VarDecl) -> bool
    ensures { result ≡ same_var a.now b.now }
{
    same_bytes(a.name.as_slice(), b.name.as_slice())
        && same_kinds(a.kind, b.kind)
        && same_compar(a.compar, b.compar)
        && same_constant(&a.constant, &b.constant)
        && a.constant_line == b.constant_line
        && same_parents(a.parents.as_slice(), b.parents.as_slice())
}

fn same_vars(a: &[VarDecl], b: &[VarDecl]) -> bool
    ensures { result ≡ pointwise same_var a.now b.now }
{
    if a.len() != b.len() {
        return false;
    }
    for (place, var) in a.iter().enumerate() {
        if !same_var(var, &b[place]) {
            return false;
        }
    }
    true
}

/// Whether the two agree in name, edges in order, and variables in order with kind, comparability, constant and the parent lines
/// that count.
#[tactic(auto, unfolding(crate::specs::Sameness::same_decl))]
pub(crate) fn same_decl(a: &PointDecl, b: &PointDecl) -> bool
    ensures { result ≡ same_decl a.now b.now }
{
    same_bytes(a.name.as_slice(), b.name.as_slice())
        && same_edges(a.edges.as_slice(), b.edges.as_slice())
        && same_vars(a.vars.as_slice(), b.vars.as_slice())
}
