// The rows that state that two values that aren't numbers are equal, or that they differ.
ghost use Rattle.std.specs.Prelude.{◌≡◌, ◌∷◌, [], if◌then◌else◌, not};
ghost use Rattle.dk_base.specs.Values.{values_of};
ghost use Rattle.dk_binary.specs.Rows.{equality_row, kind_by, same_by};
ghost use Rattle.dk_meanings.specs.Meanings.{relation_of};
ghost use Rattle.dk_template.specs.Rows.{IsTuple};
ghost use Rattle.dk_template.specs.Templates.{role_kinds};

use crate::rows::join;
use crate::texts::same_text;
use dk_base::{NoMemory, View, bool_at, hash_at, text_at};
use dk_forms::{plain_point, plain_stays};
use dk_template::{Row, RowId, State, rows};
use std::alloc::Global;

/// A kind of values that are neither numbers nor sequences.
#[derive(Clone, Copy, Debug, PartialEq, Eq)]
pub enum Scalar {
    Bool,
    Hash,
    Str,
}

/// That two values of the kind are equal, or that they differ.
#[derive(Clone, Copy, Debug, PartialEq, Eq)]
pub struct Equality {
    /// The kind of both values.
    pub kind: Scalar,
    /// Whether they are equal.
    pub equal: bool,
}

impl Scalar {
    // Whether the two values are equal.
    fn are_equal(self, tuple: &[View<'_>]) -> bool
        requires { IsTuple (kind_by self ∷ kind_by self ∷ []) (values_of tuple.now) }
        ensures { result ≡ same_by self (values_of tuple.now) }
    {
        match self {
            Scalar::Bool => bool_at(tuple, 0) == bool_at(tuple, 1),
            Scalar::Hash => hash_at(tuple, 0) == hash_at(tuple, 1),
            Scalar::Str => same_text(text_at(tuple, 0), text_at(tuple, 1)),
        }
    }
}

// The same where equality is stated, and else the opposite.
fn same_or_opposite(equal: bool, same: bool) -> bool
    ensures { result ≡ (if equal then same else not same) }
{
    equal == same
}

impl Equality {
    /// The number of the row.
    pub fn row(self) -> RowId
        ensures { result ≡ equality_row self }
    {
        let differing = match self.kind {
            Scalar::Bool => rows::NE_BOOL,
            Scalar::Hash => rows::NE_HASH,
            Scalar::Str => rows::NE_STR,
        };
        RowId(if self.equal { differing - 1 } else { differing })
    }

    // Whether the two values are as the row states.
    fn holds(self, tuple: &[View<'_>]) -> bool
        requires { IsTuple (role_kinds (equality_row self)) (values_of tuple.now) }
        ensures { result ≡ relation_of (equality_row self) (values_of tuple.now) }
    {
        same_or_opposite(self.equal, self.kind.are_equal(tuple))
    }
}

impl Row for Equality {
    ghost use Rattle.dk_binary.specs.Rows.{equality_is_row, equality_row};
    ghost use Rattle.dk_meanings.proofs.RowLaws.{laws_by};
    ghost use Rattle.dk_meanings.specs.Meanings.{state_of};
    ghost use Rattle.dk_template.specs.Templates.{form_of, role_kinds};

    ghost kinds = { λ row. role_kinds (equality_row row) };

    ghost form = { λ row. form_of (equality_row row) };

    ghost state_of = { λ row. state_of (equality_row row) };

    ghost laws = { λ row. laws_by (equality_row row) (equality_is_row row) };

    fn point(&self, _alloc: Global, tuple: &[View<'_>]) -> Result<State, NoMemory> {
        Ok(plain_point(self.holds(tuple)))
    }

    fn join(&self, alloc: Global, a: State, b: &State) -> Result<State, NoMemory> {
        join(alloc, self.row(), a, b)
    }

    fn stays(&self, state: &State, tuple: &[View<'_>]) -> bool {
        plain_stays(state, self.holds(tuple))
    }
}
