// The rows that keep a bound of the elements.
ghost use Rattle.std.specs.Prelude.{◌≡◌, ◌↔◌, [], ◌∷◌, IsTrue};
ghost use Rattle.dk_base.specs.Values.{values_of};
ghost use Rattle.dk_base.specs.Values.Tuples.{ints_of, value_at};
ghost use Rattle.dk_base.specs.declared.kinds.Kind.TheVariants as kind;
ghost use Rattle.dk_sequence.specs.Elements.{bound_row, bound_state};
ghost use Rattle.dk_template.specs.Joins.{joined};
ghost use Rattle.dk_template.specs.Proper.{IsProper};
ghost use Rattle.dk_template.specs.Rows.{IsTuple};
ghost use Rattle.dk_template.specs.Templates.{form_of};

use crate::elements::rows::join;
use dk_base::{NoMemory, View, ints_at};
use dk_forms::{greatest_all_stay, greatest_point, least_all_stay, least_point};
use dk_template::{Row, RowId, State, rows};
use std::alloc::Global;

/// A bound of the elements of a sequence of numbers: the least or the greatest of them. A sequence without elements gives no value.
#[derive(Clone, Copy, Debug, PartialEq, Eq)]
pub enum Bound {
    Lower,
    Upper,
}

impl Bound {
    /// The number of the row.
    pub fn row(self) -> RowId
        ensures { result ≡ bound_row self }
    {
        RowId(match self {
            Bound::Lower => rows::ELT_LOWER,
            Bound::Upper => rows::ELT_UPPER,
        })
    }
}

// The state of the elements.
fn state_of_elements(bound: Bound, tuple: &[View<'_>]) -> State
    requires { IsTuple (kind.IntSeq ∷ []) (values_of tuple.now) }
    ensures { result ≡ bound_state bound (ints_of (value_at (values_of tuple.now) 0)) }
{
    match bound {
        Bound::Lower => least_point(ints_at(tuple, 0)),
        Bound::Upper => greatest_point(ints_at(tuple, 0)),
    }
}

// Whether the elements leave the state as it is.
#[tactic(auto, unfolding(dk_template::specs::Templates::rows))]
fn elements_stay(bound: Bound, state: &State, tuple: &[View<'_>]) -> bool
    requires state { IsProper (form_of (bound_row bound)) state.now }
    requires tuple { IsTuple (kind.IntSeq ∷ []) (values_of tuple.now) }
    ensures { IsTrue result ↔ (joined (form_of (bound_row bound)) state.now (bound_state bound (ints_of (value_at (values_of tuple.now) 0))) ≡ state.now) }
{
    match bound {
        Bound::Lower => least_all_stay(state, ints_at(tuple, 0)),
        Bound::Upper => greatest_all_stay(state, ints_at(tuple, 0)),
    }
}

impl Row for Bound {
    ghost use Rattle.dk_sequence.specs.Elements.{bound_is_row, bound_row};
    ghost use Rattle.dk_meanings.proofs.RowLaws.{laws_by};
    ghost use Rattle.dk_meanings.specs.Meanings.{state_of};
    ghost use Rattle.dk_template.specs.Templates.{form_of, role_kinds};

    ghost kinds = { λ row. role_kinds (bound_row row) };

    ghost form = { λ row. form_of (bound_row row) };

    ghost state_of = { λ row. state_of (bound_row row) };

    ghost laws = { λ row. laws_by (bound_row row) (bound_is_row row) };

    fn point(&self, _alloc: Global, tuple: &[View<'_>]) -> Result<State, NoMemory> {
        Ok(state_of_elements(*self, tuple))
    }

    fn join(&self, alloc: Global, a: State, b: &State) -> Result<State, NoMemory> {
        join(alloc, self.row(), a, b)
    }

    fn stays(&self, state: &State, tuple: &[View<'_>]) -> bool {
        elements_stay(*self, state, tuple)
    }
}
