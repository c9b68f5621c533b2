// The row of the offset of two sequences.
ghost use Rattle.std.specs.Prelude.{◌≡◌, ◌↔◌, ◌∷◌, [], IsTrue};
ghost use Rattle.dk_base.specs.Values.{values_of};
ghost use Rattle.dk_base.specs.Values.Tuples.{ints_of, value_at};
ghost use Rattle.dk_base.specs.declared.kinds.Kind.TheVariants as kind;
ghost use Rattle.dk_forms.specs.Offset.{IsOffsetState, differences, offset_join, offset_of};
ghost use Rattle.dk_sequence.specs.Pairs.{offset_row};
ghost use Rattle.dk_template.specs.Rows.{IsTuple};

use crate::pairs::rows::join;
use dk_base::{NoMemory, View, ints_at};
use dk_forms::offset_stays;
use dk_lanes::{Shift, offset};
use dk_template::{Row, RowId, State, rows};
use std::alloc::Global;

/// By how much each element of the second sequence is above the first's at its place, where it is the same everywhere.
#[derive(Clone, Copy, Debug, PartialEq, Eq)]
pub struct PairOffset;

impl PairOffset {
    /// The number of the row.
    pub fn row(self) -> RowId
        ensures { result ≡ offset_row }
    {
        RowId(rows::PAIR_OFFSET)
    }
}

// The state of two sequences.
fn state_of_pair(s: &[i64], t: &[i64]) -> State
    ensures { result ≡ offset_of (differences s.now t.now) }
{
    match offset(s, t) {
        Shift::Unequal => State::Broken,
        Shift::Empty => State::Empty,
        Shift::Const(k) => State::Offset { k },
    }
}

// The state of one tuple.
fn state_of_one(tuple: &[View<'_>]) -> State
    requires { IsTuple (kind.IntSeq ∷ kind.IntSeq ∷ []) (values_of tuple.now) }
    ensures { result ≡ offset_of (differences (ints_of (value_at (values_of tuple.now) 0)) (ints_of (value_at (values_of tuple.now) 1))) }
{
    state_of_pair(ints_at(tuple, 0), ints_at(tuple, 1))
}

// Whether one tuple leaves the state as it is.
#[tactic(auto, using(dk_forms::proofs::OffsetLaws::offset_of_proper))]
fn one_stays(state: &State, tuple: &[View<'_>]) -> bool
    requires state { IsOffsetState state.now }
    requires tuple { IsTuple (kind.IntSeq ∷ kind.IntSeq ∷ []) (values_of tuple.now) }
    ensures { IsTrue result ↔ (offset_join state.now (offset_of (differences (ints_of (value_at (values_of tuple.now) 0)) (ints_of (value_at (values_of tuple.now) 1)))) ≡ state.now) }
{
    let point = state_of_one(tuple);
    offset_stays(state, &point)
}

impl Row for PairOffset {
    ghost use Rattle.dk_sequence.specs.Pairs.{offset_is_row, offset_row};
    ghost use Rattle.dk_meanings.proofs.RowLaws.{laws_by};
    ghost use Rattle.dk_meanings.specs.Meanings.{state_of};
    ghost use Rattle.dk_template.specs.Templates.{form_of, role_kinds};

    ghost kinds = { λ row. role_kinds offset_row };

    ghost form = { λ row. form_of offset_row };

    ghost state_of = { λ row. state_of offset_row };

    ghost laws = { λ row. laws_by offset_row offset_is_row };

    fn point(&self, _alloc: Global, tuple: &[View<'_>]) -> Result<State, NoMemory> {
        Ok(state_of_one(tuple))
    }

    fn join(&self, alloc: Global, a: State, b: &State) -> Result<State, NoMemory> {
        join(alloc, self.row(), a, b)
    }

    fn stays(&self, state: &State, tuple: &[View<'_>]) -> bool {
        one_stays(state, tuple)
    }
}
