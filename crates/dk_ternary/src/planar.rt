// The row of the plane through all points.
ghost use Rattle.std.specs.Prelude.{◌≡◌, ◌↔◌, ◌∷◌, [], IsTrue};
ghost use Rattle.dk_base.specs.Values.{values_of};
ghost use Rattle.dk_base.specs.Values.Tuples.{int_of, value_at};
ghost use Rattle.dk_base.specs.declared.kinds.Kind.TheVariants as kind;
ghost use Rattle.dk_forms.specs.Plane.{IsPlaneState, plane_join, plane_of};
ghost use Rattle.dk_template.specs.Rows.{IsTuple};
ghost use Rattle.dk_ternary.specs.Rows.{linear_ternary_row};

use crate::rows::join;
use dk_base::{NoMemory, View, int_at};
use dk_forms::{plane_point, plane_stays};
use dk_template::{Row, RowId, State, rows};
use std::alloc::Global;

/// The plane through all points (x, y, z), or the stretch of a line that they lie on. Points with a coordinate beyond 2^30 lie on
/// none.
#[derive(Clone, Copy, Debug, PartialEq, Eq)]
pub struct LinearTernary;

impl LinearTernary {
    /// The number of the row.
    pub fn row(self) -> RowId
        ensures { result ≡ linear_ternary_row }
    {
        RowId(rows::LINEAR_TERNARY)
    }
}

// The state of one point.
fn state_of_one(tuple: &[View<'_>]) -> State
    requires { IsTuple (kind.Int ∷ kind.Int ∷ kind.Int ∷ []) (values_of tuple.now) }
    ensures { result ≡ plane_of ((int_of (value_at (values_of tuple.now) 0), int_of (value_at (values_of tuple.now) 1), int_of (value_at (values_of tuple.now) 2)) ∷ []) }
{
    plane_point(int_at(tuple, 0), int_at(tuple, 1), int_at(tuple, 2))
}

// Whether one point leaves the state as it is.
#[inline(always)]
fn one_stays(state: &State, tuple: &[View<'_>]) -> bool
    requires state { IsPlaneState state.now }
    requires tuple { IsTuple (kind.Int ∷ kind.Int ∷ kind.Int ∷ []) (values_of tuple.now) }
    ensures { IsTrue result ↔ (plane_join state.now (plane_of ((int_of (value_at (values_of tuple.now) 0), int_of (value_at (values_of tuple.now) 1), int_of (value_at (values_of tuple.now) 2)) ∷ [])) ≡ state.now) }
{
    plane_stays(state, int_at(tuple, 0), int_at(tuple, 1), int_at(tuple, 2))
}

impl Row for LinearTernary {
    ghost use Rattle.dk_meanings.proofs.RowLaws.{laws_by};
    ghost use Rattle.dk_meanings.specs.Meanings.{state_of};
    ghost use Rattle.dk_template.specs.Templates.{form_of, role_kinds};
    ghost use Rattle.dk_ternary.specs.Rows.{linear_ternary_is_row, linear_ternary_row};

    ghost kinds = { λ row. role_kinds linear_ternary_row };

    ghost form = { λ row. form_of linear_ternary_row };

    ghost state_of = { λ row. state_of linear_ternary_row };

    ghost laws = { λ row. laws_by linear_ternary_row linear_ternary_is_row };

    fn point(&self, _alloc: Global, tuple: &[View<'_>]) -> Result<State, NoMemory> {
        Ok(state_of_one(tuple))
    }

    fn join(&self, alloc: Global, a: State, b: &State) -> Result<State, NoMemory> {
        join(alloc, self.row(), a, b)
    }

    #[inline(always)]
    fn stays(&self, state: &State, tuple: &[View<'_>]) -> bool {
        one_stays(state, tuple)
    }
}
