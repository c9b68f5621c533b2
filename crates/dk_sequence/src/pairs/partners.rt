// The rows that state a relation of each element of a sequence of numbers and its partner in another.
ghost use Rattle.std.specs.Prelude.{◌≡◌, ◌∷◌, []};
ghost use Rattle.std.specs.Ordering.{int_eq};
ghost use Rattle.dk_base.specs.Values.{values_of};
ghost use Rattle.dk_base.specs.Values.Tuples.{ints_of, value_at};
ghost use Rattle.dk_base.specs.declared.kinds.Kind.TheVariants as kind;
ghost use Rattle.dk_meanings.specs.Relations.{is_reverse};
ghost use Rattle.dk_sequence.specs.Pairs.{are_related, partners_row};
ghost use Rattle.dk_template.specs.Rows.{IsTuple};

use crate::pairs::rows::join;
use dk_base::{NoMemory, View, ints_at};
use dk_forms::{plain_point, plain_stays};
use dk_lanes::{Rel, pairwise};
use dk_template::{Row, RowId, State, rows};
use std::alloc::Global;

/// A relation of two sequences of numbers of one length, element by element.
#[derive(Clone, Copy, Debug, PartialEq, Eq)]
pub enum Partners {
    /// Each element of the first is below the second's at its place.
    Less,
    /// Each element of the first is at most the second's at its place.
    AtMost,
    /// The first read backwards is the second.
    Reversed,
}

// Whether s read backwards is t.
fn is_reverse(s: &[i64], t: &[i64]) -> bool
    ensures { result ≡ is_reverse int_eq s.now t.now }
{
    s.len() == t.len() && s.iter().rev().zip(t).all(|(x, y)| *x == *y)
}

impl Partners {
    /// The number of the row.
    pub fn row(self) -> RowId
        ensures { result ≡ partners_row self }
    {
        RowId(match self {
            Partners::Less => rows::PAIR_LT,
            Partners::AtMost => rows::PAIR_LE,
            Partners::Reversed => rows::REVERSE,
        })
    }

    /// Whether the sequences are in the relation.
    pub fn relates(self, s: &[i64], t: &[i64]) -> bool
        ensures { result ≡ are_related self s.now t.now }
    {
        match self {
            Partners::Less => pairwise(Rel::Lt, s, t),
            Partners::AtMost => pairwise(Rel::Le, s, t),
            Partners::Reversed => is_reverse(s, t),
        }
    }
}

// Whether the two sequences of the tuple are in the relation.
fn holds(partners: Partners, tuple: &[View<'_>]) -> bool
    requires { IsTuple (kind.IntSeq ∷ kind.IntSeq ∷ []) (values_of tuple.now) }
    ensures { result ≡ are_related partners (ints_of (value_at (values_of tuple.now) 0)) (ints_of (value_at (values_of tuple.now) 1)) }
{
    partners.relates(ints_at(tuple, 0), ints_at(tuple, 1))
}

impl Row for Partners {
    ghost use Rattle.dk_sequence.specs.Pairs.{partners_is_row, partners_row};
    ghost use Rattle.dk_meanings.proofs.RowLaws.{laws_by};
    ghost use Rattle.dk_meanings.specs.Meanings.{state_of};
    ghost use Rattle.dk_template.specs.Templates.{form_of, role_kinds};

    ghost kinds = { λ row. role_kinds (partners_row row) };

    ghost form = { λ row. form_of (partners_row row) };

    ghost state_of = { λ row. state_of (partners_row row) };

    ghost laws = { λ row. laws_by (partners_row row) (partners_is_row row) };

    fn point(&self, _alloc: Global, tuple: &[View<'_>]) -> Result<State, NoMemory> {
        Ok(plain_point(holds(*self, tuple)))
    }

    fn join(&self, alloc: Global, a: State, b: &State) -> Result<State, NoMemory> {
        join(alloc, self.row(), a, b)
    }

    fn stays(&self, state: &State, tuple: &[View<'_>]) -> bool {
        plain_stays(state, holds(*self, tuple))
    }
}
