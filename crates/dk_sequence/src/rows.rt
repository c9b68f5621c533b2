// The rows over sequences by their numbers.
ghost use Rattle.std.specs.Prelude.{◌≡◌, ◌↔◌, [], ◌∷◌, IfOk, IsTrue, OnErr};
ghost use Rattle.dk_base.specs.Values.{values_of};
ghost use Rattle.dk_meanings.specs.Meanings.{state_of};
ghost use Rattle.dk_sequence.specs.Rows.{IsSequenceRow};
ghost use Rattle.dk_template.specs.Joins.{joined};
ghost use Rattle.dk_template.specs.Proper.{IsProper};
ghost use Rattle.dk_template.specs.Rows.{IsTuple};
ghost use Rattle.dk_template.specs.Templates.{form_of, role_kinds};
ghost use Rattle.dk_template.specs.declared.templates.StateForm.{StateForm};

use dk_base::{NoMemory, View};
use dk_template::{RowId, State, join_states, rows, template_at};
use std::alloc::Global;

/// The state of one tuple. Only row 47 wants memory.
pub fn point(alloc: Global, row: RowId, tuple: &[View<'_>]) -> Result<State, NoMemory>
    requires row { IsSequenceRow row }
    requires tuple { IsTuple (role_kinds row) (values_of tuple.now) }
    ensures state { IfOk result (λ state. state ≡ state_of row (values_of tuple.now ∷ [])) }
    ensures err { OnErr result (form_of row ≡ StateForm.Texts) }
{
    let n = row.0;
    if n <= rows::ELT_NON_NULL_STR || rows::ELT_EQ <= n && n <= rows::ELT_GE {
        crate::elements::point(alloc, row, tuple)
    } else {
        crate::pairs::point(alloc, row, tuple)
    }
}

/// The state of two lists together. Only row 47 wants memory.
pub fn join(alloc: Global, row: RowId, a: State, b: &State) -> Result<State, NoMemory>
    requires row { IsSequenceRow row }
    requires a { IsProper (form_of row) a }
    requires b { IsProper (form_of row) b.now }
    ensures state { IfOk result (λ state. state ≡ joined (form_of row) a b.now) }
    ensures err { OnErr result (form_of row ≡ StateForm.Texts) }
{
    join_states(template_at(row).form, alloc, a, b)
}

/// Whether a tuple leaves a state as it is.
pub fn stays(row: RowId, state: &State, tuple: &[View<'_>]) -> bool
    requires row { IsSequenceRow row }
    requires state { IsProper (form_of row) state.now }
    requires tuple { IsTuple (role_kinds row) (values_of tuple.now) }
    ensures { IsTrue result ↔ (joined (form_of row) state.now (state_of row (values_of tuple.now ∷ [])) ≡ state.now) }
{
    let n = row.0;
    if n <= rows::ELT_NON_NULL_STR || rows::ELT_EQ <= n && n <= rows::ELT_GE {
        crate::elements::stays(row, state, tuple)
    } else {
        crate::pairs::stays(row, state, tuple)
    }
}
