// The rows of two variables by their numbers.
ghost use Rattle.std.specs.Prelude.{◌≡◌, ◌↔◌, [], ◌∷◌, IfOk, IsTrue, OnErr};
ghost use Rattle.dk_base.specs.Values.{values_of};
ghost use Rattle.dk_binary.specs.Rows.{IsBinary};
ghost use Rattle.dk_meanings.specs.Meanings.{state_of};
ghost use Rattle.dk_template.specs.Joins.{joined};
ghost use Rattle.dk_template.specs.Proper.{IsProper};
ghost use Rattle.dk_template.specs.Rows.{IsTuple};
ghost use Rattle.dk_template.specs.Templates.{form_of, role_kinds};
ghost use Rattle.dk_template.specs.declared.templates.StateForm.{StateForm};

use dk_base::{NoMemory, View};
use dk_template::{Row, RowId, State, join_states, template_at};
use std::alloc::Global;

/// An expression over the row of two variables that has a number, in the row's own type: `binary_row!(number, row => expression)`.
#[macro_export]
macro_rules! binary_row {
    ($number:expr, $row:ident => $value:expr) => {
        dk_template::by_number!($number, $row => $value, {
            11 => $crate::Compare::Equal,
            12 => $crate::Compare::Different,
            13 => $crate::Compare::Less,
            14 => $crate::Compare::AtMost,
            15 => $crate::Linear,
            16 => $crate::Compare::Multiple,
            17 => $crate::Compare::Square,
            18 => $crate::Equality { kind: $crate::Scalar::Bool, equal: true },
            19 => $crate::Equality { kind: $crate::Scalar::Bool, equal: false },
            20 => $crate::Equality { kind: $crate::Scalar::Hash, equal: true },
            21 => $crate::Equality { kind: $crate::Scalar::Hash, equal: false },
            22 => $crate::Equality { kind: $crate::Scalar::Str, equal: true },
            _ => $crate::Equality { kind: $crate::Scalar::Str, equal: false },
        })
    };
}

/// The state of one tuple. It wants no memory.
pub fn point(alloc: Global, row: RowId, tuple: &[View<'_>]) -> Result<State, NoMemory>
    requires row { IsBinary row }
    requires tuple { IsTuple (role_kinds row) (values_of tuple.now) }
    ensures state { IfOk result (λ state. state ≡ state_of row (values_of tuple.now ∷ [])) }
    ensures err { OnErr result (form_of row ≡ StateForm.Texts) }
{
    binary_row!(row, row => row.point(alloc, tuple))
}

/// The state of two lists together. It wants no memory.
pub fn join(alloc: Global, row: RowId, a: State, b: &State) -> Result<State, NoMemory>
    requires row { IsBinary row }
    requires a { IsProper (form_of row) a }
    requires b { IsProper (form_of row) b.now }
    ensures state { IfOk result (λ state. state ≡ joined (form_of row) a b.now) }
    ensures err { OnErr result (form_of row ≡ StateForm.Texts) }
{
    join_states(template_at(row).form, alloc, a, b)
}

/// Whether a tuple leaves a state as it is.
pub fn stays(row: RowId, state: &State, tuple: &[View<'_>]) -> bool
    requires row { IsBinary row }
    requires state { IsProper (form_of row) state.now }
    requires tuple { IsTuple (role_kinds row) (values_of tuple.now) }
    ensures { IsTrue result ↔ (joined (form_of row) state.now (state_of row (values_of tuple.now ∷ [])) ≡ state.now) }
{
    binary_row!(row, row => row.stays(state, tuple))
}
