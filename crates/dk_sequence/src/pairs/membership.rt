// The rows that state that a value is an element of a sequence.
ghost use Rattle.std.specs.Prelude.{◌≡◌, ◌∷◌, [], map, nat_eq};
ghost use Rattle.std.specs.Str.{bytes_eq};
ghost use Rattle.dk_base.specs.Values.{values_of};
ghost use Rattle.dk_meanings.specs.Relations.{is_member};
ghost use Rattle.dk_sequence.specs.Pairs.{element_kind, is_member_by, member_kind, member_row};
ghost use Rattle.dk_template.specs.Rows.{IsTuple};

use crate::pairs::rows::join;
use dk_base::{NoMemory, View, hash_at, hashes_at, int_at, ints_at, text_at, texts_at};
use dk_forms::{plain_point, plain_stays};
use dk_template::{Row, RowId, State, rows};
use std::alloc::Global;

/// That a number, a hash code or a string is an element of a sequence.
#[derive(Clone, Copy, Debug, PartialEq, Eq)]
pub enum Member {
    Int,
    Hash,
    Str,
}

// Whether the hash code is an element.
pub(crate) fn has_code(s: &[u64], x: u64) -> bool
    ensures { result ≡ is_member nat_eq x s.now }
{
    s.iter().any(|e| *e == x)
}

// Whether the string is an element.
pub(crate) fn has_text(s: &[&[u8]], x: &[u8]) -> bool
    ensures { result ≡ is_member bytes_eq x.now (map (λ e. e.now) s.now) }
{
    s.iter().any(|e| *e == x)
}

impl Member {
    /// The number of the row.
    pub fn row(self) -> RowId
        ensures { result ≡ member_row self }
    {
        RowId(match self {
            Member::Int => rows::MEMBER_INT,
            Member::Hash => rows::MEMBER_HASH,
            Member::Str => rows::MEMBER_STR,
        })
    }

    // Whether the first value is an element of the second.
    fn holds(self, tuple: &[View<'_>]) -> bool
        requires { IsTuple (element_kind self ∷ member_kind self ∷ []) (values_of tuple.now) }
        ensures { result ≡ is_member_by self (values_of tuple.now) }
    {
        match self {
            Member::Int => dk_lanes::member(ints_at(tuple, 1), int_at(tuple, 0)),
            Member::Hash => has_code(hashes_at(tuple, 1), hash_at(tuple, 0)),
            Member::Str => has_text(texts_at(tuple, 1), text_at(tuple, 0)),
        }
    }
}

impl Row for Member {
    ghost use Rattle.dk_sequence.specs.Pairs.{member_is_row, member_row};
    ghost use Rattle.dk_meanings.proofs.RowLaws.{laws_by};
    ghost use Rattle.dk_meanings.specs.Meanings.{state_of};
    ghost use Rattle.dk_template.specs.Templates.{form_of, role_kinds};

    ghost kinds = { λ row. role_kinds (member_row row) };

    ghost form = { λ row. form_of (member_row row) };

    ghost state_of = { λ row. state_of (member_row row) };

    ghost laws = { λ row. laws_by (member_row row) (member_is_row row) };

    fn point(&self, _alloc: Global, tuple: &[View<'_>]) -> Result<State, NoMemory> {
        Ok(plain_point(self.holds(tuple)))
    }

    fn join(&self, alloc: Global, a: State, b: &State) -> Result<State, NoMemory> {
        join(alloc, self.row(), a, b)
    }

    fn stays(&self, state: &State, tuple: &[View<'_>]) -> bool {
        plain_stays(state, self.holds(tuple))
    }
}
