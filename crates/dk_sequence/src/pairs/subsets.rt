// The rows that state that each element of a sequence is one of another.
ghost use Rattle.std.specs.Prelude.{◌≡◌, ◌∷◌, [], map, nat_eq};
ghost use Rattle.std.specs.Ordering.{int_eq};
ghost use Rattle.std.specs.Str.{bytes_eq};
ghost use Rattle.dk_base.specs.Values.{values_of};
ghost use Rattle.dk_meanings.specs.Relations.{is_subset};
ghost use Rattle.dk_sequence.specs.Pairs.{is_subset_by, subset_kind, subset_row};
ghost use Rattle.dk_template.specs.Rows.{IsTuple};

use crate::pairs::membership::{has_code, has_text};
use crate::pairs::rows::join;
use dk_base::{NoMemory, View, hashes_at, ints_at, texts_at};
use dk_forms::{plain_point, plain_stays};
use dk_lanes::member;
use dk_template::{Row, RowId, State, rows};
use std::alloc::Global;

/// That each element of a sequence of numbers, hash codes or strings is one of another, however often. It takes no memory, and so
/// each element is looked for in the whole of the other.
#[derive(Clone, Copy, Debug, PartialEq, Eq)]
pub enum Subset {
    Int,
    Hash,
    Str,
}

// Whether each number of s is one of t.
fn are_numbers_of(s: &[i64], t: &[i64]) -> bool
    ensures { result ≡ is_subset int_eq s.now t.now }
{
    s.iter().all(|x| member(t, *x))
}

// Whether each hash code of s is one of t.
fn are_codes_of(s: &[u64], t: &[u64]) -> bool
    ensures { result ≡ is_subset nat_eq s.now t.now }
{
    s.iter().all(|x| has_code(t, *x))
}

// Whether each string of s is one of t.
fn are_texts_of(s: &[&[u8]], t: &[&[u8]]) -> bool
    ensures { result ≡ is_subset bytes_eq (map (λ e. e.now) s.now) (map (λ e. e.now) t.now) }
{
    s.iter().all(|x| has_text(t, x))
}

impl Subset {
    /// The number of the row.
    pub fn row(self) -> RowId
        ensures { result ≡ subset_row self }
    {
        RowId(match self {
            Subset::Int => rows::SUBSET_INT,
            Subset::Hash => rows::SUBSET_HASH,
            Subset::Str => rows::SUBSET_STR,
        })
    }

    // Whether each element of the first sequence is one of the second.
    fn holds(self, tuple: &[View<'_>]) -> bool
        requires { IsTuple (subset_kind self ∷ subset_kind self ∷ []) (values_of tuple.now) }
        ensures { result ≡ is_subset_by self (values_of tuple.now) }
    {
        match self {
            Subset::Int => are_numbers_of(ints_at(tuple, 0), ints_at(tuple, 1)),
            Subset::Hash => are_codes_of(hashes_at(tuple, 0), hashes_at(tuple, 1)),
            Subset::Str => are_texts_of(texts_at(tuple, 0), texts_at(tuple, 1)),
        }
    }
}

impl Row for Subset {
    ghost use Rattle.dk_sequence.specs.Pairs.{subset_is_row, subset_row};
    ghost use Rattle.dk_meanings.proofs.RowLaws.{laws_by};
    ghost use Rattle.dk_meanings.specs.Meanings.{state_of};
    ghost use Rattle.dk_template.specs.Templates.{form_of, role_kinds};

    ghost kinds = { λ row. role_kinds (subset_row row) };

    ghost form = { λ row. form_of (subset_row row) };

    ghost state_of = { λ row. state_of (subset_row row) };

    ghost laws = { λ row. laws_by (subset_row row) (subset_is_row row) };

    fn point(&self, _alloc: Global, tuple: &[View<'_>]) -> Result<State, NoMemory> {
        Ok(plain_point(self.holds(tuple)))
    }

    fn join(&self, alloc: Global, a: State, b: &State) -> Result<State, NoMemory> {
        join(alloc, self.row(), a, b)
    }

    fn stays(&self, state: &State, tuple: &[View<'_>]) -> bool {
        plain_stays(state, self.holds(tuple))
    }
}
