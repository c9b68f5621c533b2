// A way from a point down to one whose samples are among its own.
ghost use Rattle.std.specs.Prelude.{◌≡◌, ◌≤◌, length};
ghost use Rattle.dk_hierarchy.specs.Edges.{partner_at, partners_at};

use dk_base::{List, PointId, VarId};
use dk_template::Tuple;

/// A way from a point down to another one: for each variable of the upper point its partner in the lower one, and how many paths of
/// edges give just these partners, at most 2^64 - 1. A point has a way to itself, by the path without an edge.
#[derive(Drop)]
pub struct Way {
    pub point: PointId,
    pub partners: List<Option<VarId>>,
    pub paths: u64,
}

/// The partner of a variable, if it has one.
pub(crate) fn partner_at(partners: &[Option<VarId>], v: VarId) -> Option<VarId>
    ensures { result ≡ partner_at partners.now v }
{
    match partners.get(v.0 as usize) {
        None => None,
        Some(partner) => *partner,
    }
}

/// The partners of at most three variables, if each has one.
pub fn partners_at(partners: &[Option<VarId>], vars: &[VarId]) -> Option<Tuple>
    requires { length vars.now ≤ 3 }
    ensures { result ≡ partners_at partners.now vars.now }
{
    let partner = |v: VarId| partner_at(partners, v);
    match vars {
        [] => Some(Tuple::of(&[])),
        [v] => Some(Tuple::of(&[partner(*v)?])),
        [v, w] => Some(Tuple::of(&[partner(*v)?, partner(*w)?])),
        [v, w, x] => Some(Tuple::of(&[partner(*v)?, partner(*w)?, partner(*x)?])),
        _ => unreachable!(),
    }
}
