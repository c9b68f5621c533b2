// The rows that state that no element is 0 or `null`.
ghost use Rattle.std.specs.Prelude.{◌≡◌, [], ◌∷◌};
ghost use Rattle.std.specs.List.{list_all};
ghost use Rattle.dk_base.specs.Values.{values_of};
ghost use Rattle.dk_base.specs.Values.Tuples.{value_at};
ghost use Rattle.dk_meanings.specs.Relations.{is_nonnull, is_nonzero, is_nonzero_hash};
ghost use Rattle.dk_sequence.specs.Elements.{has_no_null, non_null_kind, non_null_row};
ghost use Rattle.dk_template.specs.Rows.{IsTuple};

use crate::elements::rows::join;
use dk_base::{NoMemory, View, hashes_at, ints_at, texts_at};
use dk_forms::{plain_point, plain_stays};
use dk_lanes::member;
use dk_template::{Row, RowId, State, rows};
use std::alloc::Global;

/// That no number or hash code of a sequence is 0, or no string is `null`.
#[derive(Clone, Copy, Debug, PartialEq, Eq)]
pub enum NonNull {
    Int,
    Hash,
    Str,
}

// Whether no number is 0.
fn are_nonzero(numbers: &[i64]) -> bool
    ensures { result ≡ list_all is_nonzero numbers.now }
{
    !member(numbers, 0)
}

// Whether no hash code is 0.
fn are_nonzero_hashes(codes: &[u64]) -> bool
    ensures { result ≡ list_all is_nonzero_hash codes.now }
{
    codes.iter().all(|code| *code != 0)
}

// Whether the string isn't `null`.
fn is_nonnull(text: &[u8]) -> bool
    ensures { result ≡ is_nonnull text.now }
{
    text != b"null".as_slice()
}

// Whether no string is `null`.
fn are_nonnull(texts: &[&[u8]]) -> bool
    ensures { result ≡ list_all (λ t. is_nonnull t.now) texts.now }
{
    texts.iter().all(|text| is_nonnull(text))
}

impl NonNull {
    /// The number of the row.
    pub fn row(self) -> RowId
        ensures { result ≡ non_null_row self }
    {
        RowId(match self {
            NonNull::Int => rows::ELT_NON_ZERO,
            NonNull::Hash => rows::ELT_NON_NULL_HASH,
            NonNull::Str => rows::ELT_NON_NULL_STR,
        })
    }

    // Whether no element is 0 or `null`.
    fn holds(self, tuple: &[View<'_>]) -> bool
        requires { IsTuple (non_null_kind self ∷ []) (values_of tuple.now) }
        ensures { result ≡ has_no_null self (value_at (values_of tuple.now) 0) }
    {
        match self {
            NonNull::Int => are_nonzero(ints_at(tuple, 0)),
            NonNull::Hash => are_nonzero_hashes(hashes_at(tuple, 0)),
            NonNull::Str => are_nonnull(texts_at(tuple, 0)),
        }
    }
}

impl Row for NonNull {
    ghost use Rattle.dk_sequence.specs.Elements.{non_null_is_row, non_null_row};
    ghost use Rattle.dk_meanings.proofs.RowLaws.{laws_by};
    ghost use Rattle.dk_meanings.specs.Meanings.{state_of};
    ghost use Rattle.dk_template.specs.Templates.{form_of, role_kinds};

    ghost kinds = { λ row. role_kinds (non_null_row row) };

    ghost form = { λ row. form_of (non_null_row row) };

    ghost state_of = { λ row. state_of (non_null_row row) };

    ghost laws = { λ row. laws_by (non_null_row row) (non_null_is_row row) };

    fn point(&self, _alloc: Global, tuple: &[View<'_>]) -> Result<State, NoMemory> {
        Ok(plain_point(self.holds(tuple)))
    }

    fn join(&self, alloc: Global, a: State, b: &State) -> Result<State, NoMemory> {
        join(alloc, self.row(), a, b)
    }

    fn stays(&self, state: &State, tuple: &[View<'_>]) -> bool {
        plain_stays(state, self.holds(tuple))
    }
}
