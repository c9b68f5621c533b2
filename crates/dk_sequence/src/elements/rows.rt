// The rows over the elements of a sequence by their numbers.
ghost use Rattle.std.specs.Prelude.{◌≡◌, ◌↔◌, [], ◌∷◌, IfOk, IsTrue, OnErr};
ghost use Rattle.dk_base.specs.Values.{values_of};
ghost use Rattle.dk_meanings.specs.Meanings.{state_of};
ghost use Rattle.dk_sequence.specs.Elements.{IsElementRow};
ghost use Rattle.dk_template.specs.Joins.{joined};
ghost use Rattle.dk_template.specs.Proper.{IsProper};
ghost use Rattle.dk_template.specs.Rows.{IsTuple};
ghost use Rattle.dk_template.specs.Templates.{form_of, role_kinds};
ghost use Rattle.dk_template.specs.declared.templates.StateForm.{StateForm};

use dk_base::{NoMemory, View};
use dk_template::{Row, RowId, State, join_states, template_at};
use std::alloc::Global;

/// An expression over the row over the elements of a sequence that has a number, in the row's own type: `element_row!(number, row => expression)`.
#[macro_export]
macro_rules! element_row {
    ($number:expr, $row:ident => $value:expr) => {
        dk_template::by_number!($number, $row => $value, {
            35 => $crate::OneOf::Int,
            36 => $crate::Bound::Lower,
            37 => $crate::Bound::Upper,
            38 => $crate::NonNull::Int,
            39 => $crate::Sorted($crate::Rel::Lt),
            40 => $crate::Sorted($crate::Rel::Le),
            41 => $crate::Sorted($crate::Rel::Gt),
            42 => $crate::Sorted($crate::Rel::Ge),
            43 => $crate::Sorted($crate::Rel::Eq),
            44 => $crate::OneOf::Bool,
            45 => $crate::OneOf::Hash,
            46 => $crate::NonNull::Hash,
            47 => $crate::OneOf::Str,
            48 => $crate::NonNull::Str,
            52 => $crate::Compare($crate::Rel::Eq),
            53 => $crate::Compare($crate::Rel::Lt),
            54 => $crate::Compare($crate::Rel::Le),
            55 => $crate::Compare($crate::Rel::Gt),
            _ => $crate::Compare($crate::Rel::Ge),
        })
    };
}

/// The state of one tuple. Only row 47 wants memory.
pub fn point(alloc: Global, row: RowId, tuple: &[View<'_>]) -> Result<State, NoMemory>
    requires row { IsElementRow row }
    requires tuple { IsTuple (role_kinds row) (values_of tuple.now) }
    ensures state { IfOk result (λ state. state ≡ state_of row (values_of tuple.now ∷ [])) }
    ensures err { OnErr result (form_of row ≡ StateForm.Texts) }
{
    element_row!(row, row => row.point(alloc, tuple))
}

/// The state of two lists together. Only row 47 wants memory.
pub fn join(alloc: Global, row: RowId, a: State, b: &State) -> Result<State, NoMemory>
    requires row { IsElementRow row }
    requires a { IsProper (form_of row) a }
    requires b { IsProper (form_of row) b.now }
    ensures state { IfOk result (λ state. state ≡ joined (form_of row) a b.now) }
    ensures err { OnErr result (form_of row ≡ StateForm.Texts) }
{
    join_states(template_at(row).form, alloc, a, b)
}

/// Whether a tuple leaves a state as it is.
pub fn stays(row: RowId, state: &State, tuple: &[View<'_>]) -> bool
    requires row { IsElementRow row }
    requires state { IsProper (form_of row) state.now }
    requires tuple { IsTuple (role_kinds row) (values_of tuple.now) }
    ensures { IsTrue result ↔ (joined (form_of row) state.now (state_of row (values_of tuple.now ∷ [])) ≡ state.now) }
{
    element_row!(row, row => row.stays(state, tuple))
}
