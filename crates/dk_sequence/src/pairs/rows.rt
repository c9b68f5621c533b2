// The rows of a value and a sequence and of two sequences by their numbers.
ghost use Rattle.std.specs.Prelude.{◌≡◌, ◌↔◌, [], ◌∷◌, IfOk, IsTrue, OnErr};
ghost use Rattle.dk_base.specs.Values.{values_of};
ghost use Rattle.dk_meanings.specs.Meanings.{state_of};
ghost use Rattle.dk_sequence.specs.Pairs.{IsPairRow};
ghost use Rattle.dk_template.specs.Joins.{joined};
ghost use Rattle.dk_template.specs.Proper.{IsProper};
ghost use Rattle.dk_template.specs.Rows.{IsTuple};
ghost use Rattle.dk_template.specs.Templates.{form_of, role_kinds};
ghost use Rattle.dk_template.specs.declared.templates.StateForm.{StateForm};

use dk_base::{NoMemory, View};
use dk_template::{Row, RowId, State, join_states, template_at};
use std::alloc::Global;

/// An expression over the row of a value and a sequence or of two sequences that has a number, in the row's own type: `pair_row!(number, row => expression)`.
#[macro_export]
macro_rules! pair_row {
    ($number:expr, $row:ident => $value:expr) => {
        dk_template::by_number!($number, $row => $value, {
            49 => $crate::Member::Int,
            50 => $crate::Member::Hash,
            51 => $crate::Member::Str,
            57 => $crate::EqualSequences::Int,
            58 => $crate::EqualSequences::Bool,
            59 => $crate::EqualSequences::Hash,
            60 => $crate::EqualSequences::Str,
            61 => $crate::Partners::Less,
            62 => $crate::Partners::AtMost,
            63 => $crate::Subset::Int,
            64 => $crate::Subset::Hash,
            65 => $crate::Subset::Str,
            66 => $crate::Partners::Reversed,
            _ => $crate::PairOffset,
        })
    };
}

/// The state of one tuple. It wants no memory.
pub fn point(alloc: Global, row: RowId, tuple: &[View<'_>]) -> Result<State, NoMemory>
    requires row { IsPairRow row }
    requires tuple { IsTuple (role_kinds row) (values_of tuple.now) }
    ensures state { IfOk result (λ state. state ≡ state_of row (values_of tuple.now ∷ [])) }
    ensures err { OnErr result (form_of row ≡ StateForm.Texts) }
{
    pair_row!(row, row => row.point(alloc, tuple))
}

/// The state of two lists together. It wants no memory.
pub fn join(alloc: Global, row: RowId, a: State, b: &State) -> Result<State, NoMemory>
    requires row { IsPairRow row }
    requires a { IsProper (form_of row) a }
    requires b { IsProper (form_of row) b.now }
    ensures state { IfOk result (λ state. state ≡ joined (form_of row) a b.now) }
    ensures err { OnErr result (form_of row ≡ StateForm.Texts) }
{
    join_states(template_at(row).form, alloc, a, b)
}

/// Whether a tuple leaves a state as it is.
pub fn stays(row: RowId, state: &State, tuple: &[View<'_>]) -> bool
    requires row { IsPairRow row }
    requires state { IsProper (form_of row) state.now }
    requires tuple { IsTuple (role_kinds row) (values_of tuple.now) }
    ensures { IsTrue result ↔ (joined (form_of row) state.now (state_of row (values_of tuple.now ∷ [])) ≡ state.now) }
{
    pair_row!(row, row => row.stays(state, tuple))
}
