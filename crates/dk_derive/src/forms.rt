// Forms and kinds.
ghost use Rattle.std.specs.Prelude.{◌≡◌};
ghost use Rattle.dk_base.specs.Shapes.{element_kind, is_base_form};

use dk_base::{Form, Kind};

pub(crate) fn is_base_form(form: Form) -> bool
    ensures { result ≡ is_base_form form }
{
    matches!(form, Form::Declared | Form::Orig)
}

/// The kind of a sequence's elements.
pub(crate) fn element_kind(kind: Kind) -> Kind
    ensures { result ≡ element_kind kind }
{
    match kind {
        Kind::BoolSeq => Kind::Bool,
        Kind::IntSeq => Kind::Int,
        Kind::HashSeq => Kind::Hash,
        Kind::StrSeq => Kind::Str,
        _ => kind,
    }
}
