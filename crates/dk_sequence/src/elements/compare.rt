// The rows that state a relation of each element with a number.
ghost use Rattle.std.specs.Prelude.{◌≡◌, [], ◌∷◌};
ghost use Rattle.dk_base.specs.Values.{values_of};
ghost use Rattle.dk_base.specs.Values.Tuples.{int_of, ints_of, value_at};
ghost use Rattle.dk_base.specs.declared.kinds.Kind.TheVariants as kind;
ghost use Rattle.dk_lanes.specs.Lanes.{all_relate};
ghost use Rattle.dk_sequence.specs.Elements.{compare_row};
ghost use Rattle.dk_template.specs.Rows.{IsTuple};

use crate::elements::rows::join;
use dk_base::{NoMemory, View, int_at, ints_at};
use dk_forms::{plain_point, plain_stays};
use dk_lanes::{Rel, all};
use dk_template::{Row, RowId, State, rows};
use std::alloc::Global;

/// That each element of a sequence of numbers is in a relation with a number. A sequence without elements is in each relation.
#[derive(Clone, Copy, Debug, PartialEq, Eq)]
pub struct Compare(pub Rel);

impl Compare {
    /// The number of the row.
    pub fn row(self) -> RowId
        ensures { result ≡ compare_row self }
    {
        RowId(match self.0 {
            Rel::Eq => rows::ELT_EQ,
            Rel::Lt => rows::ELT_LT,
            Rel::Le => rows::ELT_LE,
            Rel::Gt => rows::ELT_GT,
            Rel::Ge => rows::ELT_GE,
        })
    }

    // Whether each element is in the relation with the number.
    fn holds(self, tuple: &[View<'_>]) -> bool
        requires { IsTuple (kind.IntSeq ∷ kind.Int ∷ []) (values_of tuple.now) }
        ensures { result ≡ all_relate self.0 (ints_of (value_at (values_of tuple.now) 0)) (int_of (value_at (values_of tuple.now) 1)) }
    {
        all(self.0, ints_at(tuple, 0), int_at(tuple, 1))
    }
}

impl Row for Compare {
    ghost use Rattle.dk_sequence.specs.Elements.{compare_is_row, compare_row};
    ghost use Rattle.dk_meanings.proofs.RowLaws.{laws_by};
    ghost use Rattle.dk_meanings.specs.Meanings.{state_of};
    ghost use Rattle.dk_template.specs.Templates.{form_of, role_kinds};

    ghost kinds = { λ row. role_kinds (compare_row row) };

    ghost form = { λ row. form_of (compare_row row) };

    ghost state_of = { λ row. state_of (compare_row row) };

    ghost laws = { λ row. laws_by (compare_row row) (compare_is_row row) };

    fn point(&self, _alloc: Global, tuple: &[View<'_>]) -> Result<State, NoMemory> {
        Ok(plain_point(self.holds(tuple)))
    }

    fn join(&self, alloc: Global, a: State, b: &State) -> Result<State, NoMemory> {
        join(alloc, self.row(), a, b)
    }

    fn stays(&self, state: &State, tuple: &[View<'_>]) -> bool {
        plain_stays(state, self.holds(tuple))
    }
}
