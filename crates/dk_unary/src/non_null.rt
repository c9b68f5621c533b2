// The rows that state that no value is 0 or `null`.
ghost use Rattle.std.specs.Prelude.{◌≡◌};
ghost use Rattle.dk_base.specs.Values.{values_of};
ghost use Rattle.dk_meanings.specs.Meanings.{relation_of};
ghost use Rattle.dk_meanings.specs.Relations.{is_nonnull, is_nonzero};
ghost use Rattle.dk_template.specs.Rows.{IsTuple};
ghost use Rattle.dk_template.specs.Templates.{role_kinds};
ghost use Rattle.dk_unary.specs.Rows.{non_null_row};

use crate::rows::join;
use dk_base::{NoMemory, View, hash_at, int_at, text_at};
use dk_forms::{plain_point, plain_stays};
use dk_template::{Row, RowId, State, rows};
use std::alloc::Global;

/// That a number or a hash code isn't 0, or a string isn't `null`.
#[derive(Clone, Copy, Debug, PartialEq, Eq)]
pub enum NonNull {
    Int,
    Hash,
    Str,
}

// Whether the number isn't 0.
fn is_nonzero(x: i64) -> bool
    ensures { result ≡ is_nonzero x }
{
    x != 0
}

// Whether the string isn't `null`.
fn is_nonnull(text: &[u8]) -> bool
    ensures { result ≡ is_nonnull text.now }
{
    text != b"null".as_slice()
}

impl NonNull {
    /// The number of the row.
    pub fn row(self) -> RowId
        ensures { result ≡ non_null_row self }
    {
        RowId(match self {
            NonNull::Int => rows::NON_ZERO,
            NonNull::Hash => rows::NON_NULL_HASH,
            NonNull::Str => rows::NON_NULL_STR,
        })
    }

    /// Whether the value isn't 0 or `null`.
    fn holds(self, tuple: &[View<'_>]) -> bool
        requires { IsTuple (role_kinds (non_null_row self)) (values_of tuple.now) }
        ensures { result ≡ relation_of (non_null_row self) (values_of tuple.now) }
    {
        match self {
            NonNull::Int => is_nonzero(int_at(tuple, 0)),
            NonNull::Hash => hash_at(tuple, 0) != 0,
            NonNull::Str => is_nonnull(text_at(tuple, 0)),
        }
    }
}

impl Row for NonNull {
    ghost use Rattle.dk_meanings.proofs.RowLaws.{laws_by};
    ghost use Rattle.dk_meanings.specs.Meanings.{state_of};
    ghost use Rattle.dk_template.specs.Templates.{form_of, role_kinds};
    ghost use Rattle.dk_unary.specs.Rows.{non_null_is_row, non_null_row};

    ghost kinds = { λ row. role_kinds (non_null_row row) };

    ghost form = { λ row. form_of (non_null_row row) };

    ghost state_of = { λ row. state_of (non_null_row row) };

    ghost laws = { λ row. laws_by (non_null_row row) (non_null_is_row row) };

    fn point(&self, _alloc: Global, tuple: &[View<'_>]) -> Result<State, NoMemory> {
        Ok(plain_point(self.holds(tuple)))
    }

    fn join(&self, alloc: Global, a: State, b: &State) -> Result<State, NoMemory> {
        join(alloc, self.row(), a, b)
    }

    fn stays(&self, state: &State, tuple: &[View<'_>]) -> bool {
        plain_stays(state, self.holds(tuple))
    }
}
