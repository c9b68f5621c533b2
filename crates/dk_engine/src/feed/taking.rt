// Whether values are those of variables.
ghost use Rattle.std.specs.Prelude.{◌↔◌, IsTrue};
ghost use Rattle.dk_base.specs.Values.{IsOfKind, value_of, values_of};
ghost use Rattle.dk_engine.specs.Exact.{AreOfKinds};

use dk_base::{Kind, VarInfo, View};

// Whether the value is missing or of the kind.
fn is_of_kind(kind: Kind, value: View<'_>) -> bool
    ensures { IsTrue result ↔ IsOfKind kind (value_of value.entry) }
{
    match value {
        View::Missing => true,
        View::Bool(_) => matches!(kind, Kind::Bool),
        View::Int(_) => matches!(kind, Kind::Int),
        View::Hash(_) => matches!(kind, Kind::Hash),
        View::Str(_) => matches!(kind, Kind::Str),
        View::BoolSeq(_) => matches!(kind, Kind::BoolSeq),
        View::IntSeq(_) => matches!(kind, Kind::IntSeq),
        View::HashSeq(_) => matches!(kind, Kind::HashSeq),
        View::StrSeq(_) => matches!(kind, Kind::StrSeq),
    }
}

/// Whether there are as many values as variables, each missing or of its variable's kind.
pub(crate) fn are_of_kinds(vars: &[VarInfo], sample: &[View<'_>]) -> bool
    ensures { IsTrue result ↔ AreOfKinds vars.now (values_of sample.now) }
{
    if vars.len() != sample.len() {
        return false;
    }
    for (place, value) in sample.iter().enumerate() {
        if !is_of_kind(vars[place].kind, *value) {
            return false;
        }
    }
    true
}
