// The rows that state a relation of each element with the next.
ghost use Rattle.std.specs.Prelude.{◌≡◌, [], ◌∷◌};
ghost use Rattle.dk_base.specs.Values.{values_of};
ghost use Rattle.dk_base.specs.Values.Tuples.{ints_of, value_at};
ghost use Rattle.dk_base.specs.declared.kinds.Kind.TheVariants as kind;
ghost use Rattle.dk_lanes.specs.Lanes.{is_sorted};
ghost use Rattle.dk_sequence.specs.Elements.{sorted_row};
ghost use Rattle.dk_template.specs.Rows.{IsTuple};

use crate::elements::rows::join;
use dk_base::{NoMemory, View, ints_at};
use dk_forms::{plain_point, plain_stays};
use dk_lanes::{Rel, sorted};
use dk_template::{Row, RowId, State, rows};
use std::alloc::Global;

/// That each element of a sequence of numbers is in a relation with the next. Fewer than two elements are in each relation.
#[derive(Clone, Copy, Debug, PartialEq, Eq)]
pub struct Sorted(pub Rel);

impl Sorted {
    /// The number of the row.
    pub fn row(self) -> RowId
        ensures { result ≡ sorted_row self }
    {
        RowId(match self.0 {
            Rel::Lt => rows::SORTED_LT,
            Rel::Le => rows::SORTED_LE,
            Rel::Gt => rows::SORTED_GT,
            Rel::Ge => rows::SORTED_GE,
            Rel::Eq => rows::ELTS_EQUAL,
        })
    }

    // Whether each element is in the relation with the next.
    fn holds(self, tuple: &[View<'_>]) -> bool
        requires { IsTuple (kind.IntSeq ∷ []) (values_of tuple.now) }
        ensures { result ≡ is_sorted self.0 (ints_of (value_at (values_of tuple.now) 0)) }
    {
        sorted(self.0, ints_at(tuple, 0))
    }
}

impl Row for Sorted {
    ghost use Rattle.dk_sequence.specs.Elements.{sorted_is_row, sorted_row};
    ghost use Rattle.dk_meanings.proofs.RowLaws.{laws_by};
    ghost use Rattle.dk_meanings.specs.Meanings.{state_of};
    ghost use Rattle.dk_template.specs.Templates.{form_of, role_kinds};

    ghost kinds = { λ row. role_kinds (sorted_row row) };

    ghost form = { λ row. form_of (sorted_row row) };

    ghost state_of = { λ row. state_of (sorted_row row) };

    ghost laws = { λ row. laws_by (sorted_row row) (sorted_is_row row) };

    fn point(&self, _alloc: Global, tuple: &[View<'_>]) -> Result<State, NoMemory> {
        Ok(plain_point(self.holds(tuple)))
    }

    fn join(&self, alloc: Global, a: State, b: &State) -> Result<State, NoMemory> {
        join(alloc, self.row(), a, b)
    }

    fn stays(&self, state: &State, tuple: &[View<'_>]) -> bool {
        plain_stays(state, self.holds(tuple))
    }
}
