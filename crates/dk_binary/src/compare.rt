// The rows that state a relation of two numbers.
ghost use Rattle.std.specs.Prelude.{◌≡◌, ◌∷◌, []};
ghost use Rattle.dk_base.specs.Values.{values_of};
ghost use Rattle.dk_base.specs.Values.Tuples.{int_of, value_at};
ghost use Rattle.dk_base.specs.declared.kinds.Kind.TheVariants as kind;
ghost use Rattle.dk_binary.specs.Rows.{compare_row, relates};
ghost use Rattle.dk_meanings.specs.Relations.{is_multiple, is_square};
ghost use Rattle.dk_template.specs.Rows.{IsTuple};

use crate::rows::join;
use dk_base::{NoMemory, View, int_at};
use dk_forms::{plain_point, plain_stays};
use dk_template::{Row, RowId, State, rows};
use std::alloc::Global;

/// A relation of two numbers x and y.
#[derive(Clone, Copy, Debug, PartialEq, Eq)]
pub enum Compare {
    /// x = y
    Equal,
    /// x differs from y
    Different,
    /// x < y
    Less,
    /// x <= y
    AtMost,
    /// y isn't 0 and divides x
    Multiple,
    /// x = y * y
    Square,
}

// Whether y isn't 0 and divides x. The signs play no part.
fn is_multiple(x: i64, y: i64) -> bool
    ensures { result ≡ is_multiple x y }
{
    y != 0 && x.unsigned_abs() % y.unsigned_abs() == 0
}

// Whether x is the exact square of y.
fn is_square(x: i64, y: i64) -> bool
    ensures { result ≡ is_square x y }
{
    x as i128 == y as i128 * y as i128
}

impl Compare {
    /// The number of the row.
    pub fn row(self) -> RowId
        ensures { result ≡ compare_row self }
    {
        RowId(match self {
            Compare::Equal => rows::EQ_INT,
            Compare::Different => rows::NE_INT,
            Compare::Less => rows::LT,
            Compare::AtMost => rows::LE,
            Compare::Multiple => rows::DIVIDES,
            Compare::Square => rows::SQUARE,
        })
    }

    /// Whether x and y are in the relation.
    pub fn relates(self, x: i64, y: i64) -> bool
        ensures { result ≡ relates self x y }
    {
        match self {
            Compare::Equal => x == y,
            Compare::Different => x != y,
            Compare::Less => x < y,
            Compare::AtMost => x <= y,
            Compare::Multiple => is_multiple(x, y),
            Compare::Square => is_square(x, y),
        }
    }
}

// Whether the two numbers of the tuple are in the relation.
fn holds(compare: Compare, tuple: &[View<'_>]) -> bool
    requires { IsTuple (kind.Int ∷ kind.Int ∷ []) (values_of tuple.now) }
    ensures { result ≡ relates compare (int_of (value_at (values_of tuple.now) 0)) (int_of (value_at (values_of tuple.now) 1)) }
{
    compare.relates(int_at(tuple, 0), int_at(tuple, 1))
}

impl Row for Compare {
    ghost use Rattle.dk_binary.specs.Rows.{compare_is_row, compare_row};
    ghost use Rattle.dk_meanings.proofs.RowLaws.{laws_by};
    ghost use Rattle.dk_meanings.specs.Meanings.{state_of};
    ghost use Rattle.dk_template.specs.Templates.{form_of, role_kinds};

    ghost kinds = { λ row. role_kinds (compare_row row) };

    ghost form = { λ row. form_of (compare_row row) };

    ghost state_of = { λ row. state_of (compare_row row) };

    ghost laws = { λ row. laws_by (compare_row row) (compare_is_row row) };

    fn point(&self, _alloc: Global, tuple: &[View<'_>]) -> Result<State, NoMemory> {
        Ok(plain_point(holds(*self, tuple)))
    }

    fn join(&self, alloc: Global, a: State, b: &State) -> Result<State, NoMemory> {
        join(alloc, self.row(), a, b)
    }

    fn stays(&self, state: &State, tuple: &[View<'_>]) -> bool {
        plain_stays(state, holds(*self, tuple))
    }
}
