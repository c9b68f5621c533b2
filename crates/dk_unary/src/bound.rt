// The rows that keep a bound.
ghost use Rattle.std.specs.Prelude.{◌≡◌, ◌↔◌, IsTrue};
ghost use Rattle.dk_template.specs.Joins.{joined};
ghost use Rattle.dk_template.specs.Proper.{IsProper};
ghost use Rattle.dk_template.specs.Templates.{form_of};
ghost use Rattle.dk_unary.specs.Rows.{bound_row, bound_state};

use crate::rows::join;
use dk_base::{NoMemory, View, int_at};
use dk_forms::{greatest_stays, least_stays};
use dk_template::{Row, RowId, State, rows};
use std::alloc::Global;

/// A bound of a number: the least or the greatest value.
#[derive(Clone, Copy, Debug, PartialEq, Eq)]
pub enum Bound {
    Lower,
    Upper,
}

impl Bound {
    /// The number of the row.
    pub fn row(self) -> RowId
        ensures { result ≡ bound_row self }
    {
        RowId(match self {
            Bound::Lower => rows::LOWER_BOUND,
            Bound::Upper => rows::UPPER_BOUND,
        })
    }
}

// The state of one value.
fn state_of_one(bound: Bound, x: i64) -> State
    ensures { result ≡ bound_state bound x }
{
    match bound {
        Bound::Lower => State::Least(x),
        Bound::Upper => State::Greatest(x),
    }
}

// Whether one value leaves the state as it is.
#[tactic(auto, unfolding(dk_template::specs::Templates::rows))]
fn one_stays(bound: Bound, state: &State, x: i64) -> bool
    requires { IsProper (form_of (bound_row bound)) state.now }
    ensures { IsTrue result ↔ (joined (form_of (bound_row bound)) state.now (bound_state bound x) ≡ state.now) }
{
    match bound {
        Bound::Lower => least_stays(state, x),
        Bound::Upper => greatest_stays(state, x),
    }
}

impl Row for Bound {
    ghost use Rattle.dk_meanings.proofs.RowLaws.{laws_by};
    ghost use Rattle.dk_meanings.specs.Meanings.{state_of};
    ghost use Rattle.dk_template.specs.Templates.{form_of, role_kinds};
    ghost use Rattle.dk_unary.specs.Rows.{bound_is_row, bound_row};

    ghost kinds = { λ row. role_kinds (bound_row row) };

    ghost form = { λ row. form_of (bound_row row) };

    ghost state_of = { λ row. state_of (bound_row row) };

    ghost laws = { λ row. laws_by (bound_row row) (bound_is_row row) };

    fn point(&self, _alloc: Global, tuple: &[View<'_>]) -> Result<State, NoMemory> {
        Ok(state_of_one(*self, int_at(tuple, 0)))
    }

    fn join(&self, alloc: Global, a: State, b: &State) -> Result<State, NoMemory> {
        join(alloc, self.row(), a, b)
    }

    fn stays(&self, state: &State, tuple: &[View<'_>]) -> bool {
        one_stays(*self, state, int_at(tuple, 0))
    }
}
