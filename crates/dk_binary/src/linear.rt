// The row of the line through all points.
ghost use Rattle.std.specs.Prelude.{◌≡◌, ◌↔◌, ◌∷◌, [], IsTrue};
ghost use Rattle.dk_base.specs.Values.{values_of};
ghost use Rattle.dk_base.specs.Values.Tuples.{int_of, value_at};
ghost use Rattle.dk_base.specs.declared.kinds.Kind.TheVariants as kind;
ghost use Rattle.dk_binary.specs.Rows.{linear_row};
ghost use Rattle.dk_forms.specs.Plane.Line.{IsLineState, line_join, line_of};
ghost use Rattle.dk_template.specs.Rows.{IsTuple};

use crate::rows::join;
use dk_base::{NoMemory, View, int_at};
use dk_forms::{line_point, line_stays};
use dk_template::{Row, RowId, State, rows};
use std::alloc::Global;

/// The line through all points (x, y). Points with a coordinate beyond 2^62 lie on none.
#[derive(Clone, Copy, Debug, PartialEq, Eq)]
pub struct Linear;

impl Linear {
    /// The number of the row.
    pub fn row(self) -> RowId
        ensures { result ≡ linear_row }
    {
        RowId(rows::LINEAR)
    }
}

// The state of one point.
fn state_of_one(tuple: &[View<'_>]) -> State
    requires { IsTuple (kind.Int ∷ kind.Int ∷ []) (values_of tuple.now) }
    ensures { result ≡ line_of ((int_of (value_at (values_of tuple.now) 0), int_of (value_at (values_of tuple.now) 1)) ∷ []) }
{
    line_point(int_at(tuple, 0), int_at(tuple, 1))
}

// Whether one point leaves the state as it is.
#[inline(always)]
fn one_stays(state: &State, tuple: &[View<'_>]) -> bool
    requires state { IsLineState state.now }
    requires tuple { IsTuple (kind.Int ∷ kind.Int ∷ []) (values_of tuple.now) }
    ensures { IsTrue result ↔ (line_join state.now (line_of ((int_of (value_at (values_of tuple.now) 0), int_of (value_at (values_of tuple.now) 1)) ∷ [])) ≡ state.now) }
{
    line_stays(state, int_at(tuple, 0), int_at(tuple, 1))
}

impl Row for Linear {
    ghost use Rattle.dk_binary.specs.Rows.{linear_is_row, linear_row};
    ghost use Rattle.dk_meanings.proofs.RowLaws.{laws_by};
    ghost use Rattle.dk_meanings.specs.Meanings.{state_of};
    ghost use Rattle.dk_template.specs.Templates.{form_of, role_kinds};

    ghost kinds = { λ row. role_kinds linear_row };

    ghost form = { λ row. form_of linear_row };

    ghost state_of = { λ row. state_of linear_row };

    ghost laws = { λ row. laws_by linear_row linear_is_row };

    fn point(&self, _alloc: Global, tuple: &[View<'_>]) -> Result<State, NoMemory> {
        Ok(state_of_one(tuple))
    }

    fn join(&self, alloc: Global, a: State, b: &State) -> Result<State, NoMemory> {
        join(alloc, self.row(), a, b)
    }

    #[inline(always)]
    fn stays(&self, state: &State, tuple: &[View<'_>]) -> bool {
        one_stays(state, tuple)
    }
}
