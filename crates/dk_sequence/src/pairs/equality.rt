// The rows that state that two sequences are equal.
ghost use Rattle.std.specs.Prelude.{◌≡◌, ◌∷◌, [], map};
ghost use Rattle.std.specs.Str.{bytes_eq};
ghost use Rattle.dk_base.specs.Values.{values_of};
ghost use Rattle.dk_meanings.specs.Relations.{are_pairwise};
ghost use Rattle.dk_sequence.specs.Pairs.{are_equal_by, equal_kind, equal_row};
ghost use Rattle.dk_template.specs.Rows.{IsTuple};

use crate::pairs::rows::join;
use dk_base::{NoMemory, View, bools_at, hashes_at, ints_at, texts_at};
use dk_forms::{plain_point, plain_stays};
use dk_lanes::{Rel, pairwise};
use dk_template::{Row, RowId, State, rows};
use std::alloc::Global;

/// That two sequences of elements of one kind are equal.
#[derive(Clone, Copy, Debug, PartialEq, Eq)]
pub enum EqualSequences {
    Int,
    Bool,
    Hash,
    Str,
}

// Whether the sequences have the same elements at the same places.
fn are_same<T: PartialEq>(s: &[T], t: &[T]) -> bool
    ensures { result ≡ are_pairwise T.eq s.now t.now }
{
    s == t
}

// The same of strings.
fn are_same_texts(s: &[&[u8]], t: &[&[u8]]) -> bool
    ensures { result ≡ are_pairwise bytes_eq (map (λ e. e.now) s.now) (map (λ e. e.now) t.now) }
{
    s == t
}

impl EqualSequences {
    /// The number of the row.
    pub fn row(self) -> RowId
        ensures { result ≡ equal_row self }
    {
        RowId(match self {
            EqualSequences::Int => rows::EQ_INT_SEQ,
            EqualSequences::Bool => rows::EQ_BOOL_SEQ,
            EqualSequences::Hash => rows::EQ_HASH_SEQ,
            EqualSequences::Str => rows::EQ_STR_SEQ,
        })
    }

    // Whether the two sequences are equal.
    fn holds(self, tuple: &[View<'_>]) -> bool
        requires { IsTuple (equal_kind self ∷ equal_kind self ∷ []) (values_of tuple.now) }
        ensures { result ≡ are_equal_by self (values_of tuple.now) }
    {
        match self {
            EqualSequences::Int => pairwise(Rel::Eq, ints_at(tuple, 0), ints_at(tuple, 1)),
            EqualSequences::Bool => are_same(bools_at(tuple, 0), bools_at(tuple, 1)),
            EqualSequences::Hash => are_same(hashes_at(tuple, 0), hashes_at(tuple, 1)),
            EqualSequences::Str => are_same_texts(texts_at(tuple, 0), texts_at(tuple, 1)),
        }
    }
}

impl Row for EqualSequences {
    ghost use Rattle.dk_sequence.specs.Pairs.{equal_is_row, equal_row};
    ghost use Rattle.dk_meanings.proofs.RowLaws.{laws_by};
    ghost use Rattle.dk_meanings.specs.Meanings.{state_of};
    ghost use Rattle.dk_template.specs.Templates.{form_of, role_kinds};

    ghost kinds = { λ row. role_kinds (equal_row row) };

    ghost form = { λ row. form_of (equal_row row) };

    ghost state_of = { λ row. state_of (equal_row row) };

    ghost laws = { λ row. laws_by (equal_row row) (equal_is_row row) };

    fn point(&self, _alloc: Global, tuple: &[View<'_>]) -> Result<State, NoMemory> {
        Ok(plain_point(self.holds(tuple)))
    }

    fn join(&self, alloc: Global, a: State, b: &State) -> Result<State, NoMemory> {
        join(alloc, self.row(), a, b)
    }

    fn stays(&self, state: &State, tuple: &[View<'_>]) -> bool {
        plain_stays(state, self.holds(tuple))
    }
}
