// The state of one tuple, by a row's number.
ghost use Rattle.std.specs.Prelude.{◌≡◌, ◌↔◌, [], ◌∷◌, IfOk, IsTrue, OnErr};
ghost use Rattle.dk_base.specs.Values.{values_of};
ghost use Rattle.dk_meanings.specs.Meanings.{state_of};
ghost use Rattle.dk_template.specs.Joins.{joined};
ghost use Rattle.dk_template.specs.Proper.{IsProper};
ghost use Rattle.dk_template.specs.Rows.{IsTuple};
ghost use Rattle.dk_template.specs.Templates.{IsRow, form_of, role_kinds};
ghost use Rattle.dk_template.specs.declared.templates.StateForm.{StateForm};

use dk_base::{NoMemory, View};
use dk_template::{RowId, State, rows};
use std::alloc::Global;

/// A row's state of one tuple. Only texts want memory.
pub fn point(alloc: Global, row: RowId, tuple: &[View<'_>]) -> Result<State, NoMemory>
    requires row { IsRow row }
    requires tuple { IsTuple (role_kinds row) (values_of tuple.now) }
    ensures state { IfOk result (λ state. state ≡ state_of row (values_of tuple.now ∷ [])) }
    ensures err { OnErr result (form_of row ≡ StateForm.Texts) }
{
    let n = row.0;
    if n <= rows::NON_NULL_STR {
        dk_unary::point(alloc, row, tuple)
    } else if n <= rows::NE_STR {
        dk_binary::point(alloc, row, tuple)
    } else if n <= rows::GCD || n == rows::LINEAR_TERNARY {
        dk_ternary::point(alloc, row, tuple)
    } else if n <= rows::ELT_NON_NULL_STR || rows::ELT_EQ <= n && n <= rows::ELT_GE {
        dk_sequence::elements::point(alloc, row, tuple)
    } else {
        dk_sequence::pairs::point(alloc, row, tuple)
    }
}

/// Whether a tuple leaves a state of a row as it is.
pub fn stays(row: RowId, state: &State, tuple: &[View<'_>]) -> bool
    requires row { IsRow row }
    requires state { IsProper (form_of row) state.now }
    requires tuple { IsTuple (role_kinds row) (values_of tuple.now) }
    ensures { IsTrue result ↔ (joined (form_of row) state.now (state_of row (values_of tuple.now ∷ [])) ≡ state.now) }
{
    let n = row.0;
    if n <= rows::NON_NULL_STR {
        dk_unary::stays(row, state, tuple)
    } else if n <= rows::NE_STR {
        dk_binary::stays(row, state, tuple)
    } else if n <= rows::GCD || n == rows::LINEAR_TERNARY {
        dk_ternary::stays(row, state, tuple)
    } else if n <= rows::ELT_NON_NULL_STR || rows::ELT_EQ <= n && n <= rows::ELT_GE {
        dk_sequence::elements::stays(row, state, tuple)
    } else {
        dk_sequence::pairs::stays(row, state, tuple)
    }
}
