// The rows of one variable by their numbers.
ghost use Rattle.std.specs.Prelude.{◌≡◌, ◌↔◌, [], ◌∷◌, IfOk, IsTrue, OnErr};
ghost use Rattle.dk_base.specs.Values.{values_of};
ghost use Rattle.dk_meanings.specs.Meanings.{state_of};
ghost use Rattle.dk_template.specs.Joins.{joined};
ghost use Rattle.dk_template.specs.Proper.{IsProper};
ghost use Rattle.dk_template.specs.Rows.{IsTuple};
ghost use Rattle.dk_template.specs.Templates.{form_of, role_kinds};
ghost use Rattle.dk_template.specs.declared.templates.StateForm.{StateForm};
ghost use Rattle.dk_unary.specs.Rows.{IsUnary};

use dk_base::{NoMemory, View};
use dk_template::{Row, RowId, State, join_states, template_at};
use std::alloc::Global;

/// An expression over the row of one variable that has a number, in the row's own type: `unary_row!(number, row => expression)`.
#[macro_export]
macro_rules! unary_row {
    ($number:expr, $row:ident => $value:expr) => {
        dk_template::by_number!($number, $row => $value, {
            1 => $crate::OneOf::Int,
            2 => $crate::Bound::Lower,
            3 => $crate::Bound::Upper,
            4 => $crate::NonNull::Int,
            5 => $crate::Modulus,
            6 => $crate::OneOf::Bool,
            7 => $crate::OneOf::Hash,
            8 => $crate::NonNull::Hash,
            9 => $crate::OneOf::Str,
            _ => $crate::NonNull::Str,
        })
    };
}

/// The state of one tuple. Only row 9 wants memory.
pub fn point(alloc: Global, row: RowId, tuple: &[View<'_>]) -> Result<State, NoMemory>
    requires row { IsUnary row }
    requires tuple { IsTuple (role_kinds row) (values_of tuple.now) }
    ensures state { IfOk result (λ state. state ≡ state_of row (values_of tuple.now ∷ [])) }
    ensures err { OnErr result (form_of row ≡ StateForm.Texts) }
{
    unary_row!(row, row => row.point(alloc, tuple))
}

/// The state of two lists together. Only row 9 wants memory.
pub fn join(alloc: Global, row: RowId, a: State, b: &State) -> Result<State, NoMemory>
    requires row { IsUnary row }
    requires a { IsProper (form_of row) a }
    requires b { IsProper (form_of row) b.now }
    ensures state { IfOk result (λ state. state ≡ joined (form_of row) a b.now) }
    ensures err { OnErr result (form_of row ≡ StateForm.Texts) }
{
    join_states(template_at(row).form, alloc, a, b)
}

/// Whether a tuple leaves a state as it is.
pub fn stays(row: RowId, state: &State, tuple: &[View<'_>]) -> bool
    requires row { IsUnary row }
    requires state { IsProper (form_of row) state.now }
    requires tuple { IsTuple (role_kinds row) (values_of tuple.now) }
    ensures { IsTrue result ↔ (joined (form_of row) state.now (state_of row (values_of tuple.now ∷ [])) ≡ state.now) }
{
    unary_row!(row, row => row.stays(state, tuple))
}
