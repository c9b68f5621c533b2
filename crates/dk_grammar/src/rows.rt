// The rows of the grammar by their numbers.
ghost use Rattle.std.specs.Prelude.{◌≡◌, ◌↔◌, [], ◌∷◌, IfOk, IsTrue, OnErr, not};
ghost use Rattle.dk_base.specs.Values.{values_of};
ghost use Rattle.dk_meanings.specs.Meanings.{relation_of, state_of};
ghost use Rattle.dk_template.specs.Joins.{joined};
ghost use Rattle.dk_template.specs.Proper.{IsProper};
ghost use Rattle.dk_template.specs.Rows.{IsTuple};
ghost use Rattle.dk_template.specs.Templates.{IsRow, form_of, role_kinds};
ghost use Rattle.dk_template.specs.declared.templates.StateForm.{StateForm};

use dk_base::{NoMemory, View};
use dk_template::{RowId, State, join_states, rows, template_at};
use std::alloc::Global;

/// A row's state of one tuple. Only texts want memory.
pub fn point(alloc: Global, row: RowId, tuple: &[View<'_>]) -> Result<State, NoMemory>
    requires row { IsRow row }
    requires tuple { IsTuple (role_kinds row) (values_of tuple.now) }
    ensures state { IfOk result (λ state. state ≡ state_of row (values_of tuple.now ∷ [])) }
    ensures err { OnErr result (form_of row ≡ StateForm.Texts) }
{
    let n = row.0;
    if n <= rows::NON_NULL_STR {
        dk_unary::point(alloc, row, tuple)
    } else if n <= rows::NE_STR {
        dk_binary::point(alloc, row, tuple)
    } else if n <= rows::GCD || n == rows::LINEAR_TERNARY {
        dk_ternary::point(alloc, row, tuple)
    } else {
        dk_sequence::point(alloc, row, tuple)
    }
}

/// The row's state of two lists together, of its states of each. Only texts want memory.
pub fn join(alloc: Global, row: RowId, a: State, b: &State) -> Result<State, NoMemory>
    requires row { IsRow row }
    requires a { IsProper (form_of row) a }
    requires b { IsProper (form_of row) b.now }
    ensures state { IfOk result (λ state. state ≡ joined (form_of row) a b.now) }
    ensures proper { IfOk result (λ state. IsProper (form_of row) state) }
    ensures err { OnErr result (form_of row ≡ StateForm.Texts) }
{
    join_states(template_at(row).form, alloc, a, b)
}

/// Whether a tuple leaves the row's state as it is. It takes no memory.
pub fn stays(row: RowId, state: &State, tuple: &[View<'_>]) -> bool
    requires row { IsRow row }
    requires state { IsProper (form_of row) state.now }
    requires tuple { IsTuple (role_kinds row) (values_of tuple.now) }
    ensures { IsTrue result ↔ (joined (form_of row) state.now (state_of row (values_of tuple.now ∷ [])) ≡ state.now) }
{
    let n = row.0;
    if n <= rows::NON_NULL_STR {
        dk_unary::stays(row, state, tuple)
    } else if n <= rows::NE_STR {
        dk_binary::stays(row, state, tuple)
    } else if n <= rows::GCD || n == rows::LINEAR_TERNARY {
        dk_ternary::stays(row, state, tuple)
    } else {
        dk_sequence::stays(row, state, tuple)
    }
}

/// Whether a tuple doesn't satisfy the relation of a row that has one. It takes no memory.
pub fn breaks(row: RowId, tuple: &[View<'_>]) -> bool
    requires row { IsRow row }
    requires plain { form_of row ≡ StateForm.Plain }
    requires tuple { IsTuple (role_kinds row) (values_of tuple.now) }
    ensures { result ≡ not (relation_of row (values_of tuple.now)) }
{
    !stays(row, &State::Holds, tuple)
}
