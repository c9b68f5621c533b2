// Bounds of numbers and comparisons of two that a sample leaves as they are, seen in 64 bits where the slots lie: these rows have most of the
// slots that aren't planes.
ghost use Rattle.std.specs.Prelude.{◌≡◌, ◌≤◌, ◌∷◌, [], IsTrue};
ghost use Rattle.dk_base.specs.Values.{values_of};
ghost use Rattle.dk_engine.specs.Feeding.{with_sample};
ghost use Rattle.dk_engine.specs.Idle.Bounding.{compares, is_holds, keeps_greatest, keeps_least};
ghost use Rattle.dk_template.specs.Numbers as number;

use crate::Slot;
use dk_base::{VarId, View};
use dk_samples::value_at;
use dk_template::{RowId, State, rows};

// Whether a number leaves a least value as it is.
#[inline(always)]
fn keeps_least(state: &State, x: i64) -> bool
    ensures { result ≡ keeps_least state.now x }
{
    match state {
        State::Least(least) => *least <= x,
        _ => false,
    }
}

// Whether a number leaves a greatest value as it is.
#[inline(always)]
fn keeps_greatest(state: &State, x: i64) -> bool
    ensures { result ≡ keeps_greatest state.now x }
{
    match state {
        State::Greatest(greatest) => x <= *greatest,
        _ => false,
    }
}

// Whether a sample is seen to leave a slot of LowerBound over a leader as it is: it doesn't change the least value, or the number is missing.
#[inline(always)]
fn stays_least(slot: &Slot, sample: &[View<'_>], v: VarId) -> bool
    requires row { slot.now.row.0 ≡ number.lower_bound }
    requires leaders { slot.now.leaders ≡ v ∷ [] }
    ensures { IsTrue result → with_sample slot.now.row slot.now.leaders (values_of sample.now) slot.now.state ≡ slot.now.state }
{
    match value_at(sample, v) {
        View::Int(x) => keeps_least(&slot.state, x),
        View::Missing => true,
        _ => false,
    }
}

// The same of a slot of UpperBound.
#[inline(always)]
fn stays_greatest(slot: &Slot, sample: &[View<'_>], v: VarId) -> bool
    requires row { slot.now.row.0 ≡ number.upper_bound }
    requires leaders { slot.now.leaders ≡ v ∷ [] }
    ensures { IsTrue result → with_sample slot.now.row slot.now.leaders (values_of sample.now) slot.now.state ≡ slot.now.state }
{
    match value_at(sample, v) {
        View::Int(x) => keeps_greatest(&slot.state, x),
        View::Missing => true,
        _ => false,
    }
}

/// Whether what a row of a comparison, one from EqInt to Le, says is so of two numbers.
#[inline(always)]
pub(crate) fn is_so(row: RowId, x: i64, y: i64) -> bool
    ensures { result ≡ compares row.0 x y }
{
    if row.0 == rows::LT {
        x < y
    } else if row.0 == rows::NE_INT {
        x != y
    } else if row.0 == rows::EQ_INT {
        x == y
    } else {
        x <= y
    }
}

/// Whether the state is Holds.
#[inline(always)]
pub(crate) fn holds(state: &State) -> bool
    ensures { result ≡ is_holds state.now }
{
    matches!(state, State::Holds)
}

// Whether a sample is seen to leave a slot of such a row over two leaders as it is: what it says is so of their numbers, or one is missing.
#[inline(always)]
fn stays_compared(slot: &Slot, sample: &[View<'_>], u: VarId, v: VarId) -> bool
    requires from { number.eq_int ≤ slot.now.row.0 }
    requires to { slot.now.row.0 ≤ number.le }
    requires leaders { slot.now.leaders ≡ u ∷ v ∷ [] }
    ensures { IsTrue result → with_sample slot.now.row slot.now.leaders (values_of sample.now) slot.now.state ≡ slot.now.state }
{
    match (value_at(sample, u), value_at(sample, v)) {
        (View::Int(x), View::Int(y)) => holds(&slot.state) && is_so(slot.row, x, y),
        (View::Missing, _) => true,
        (_, View::Missing) => true,
        _ => false,
    }
}

/// Whether a sample is seen to leave a slot of a bound or a comparison as it is.
#[inline(always)]
pub(crate) fn is_seen_to_stay(slot: &Slot, sample: &[View<'_>]) -> bool
    ensures { IsTrue result → with_sample slot.now.row slot.now.leaders (values_of sample.now) slot.now.state ≡ slot.now.state }
{
    match slot.leaders.as_slice() {
        [v] => {
            if slot.row.0 == rows::LOWER_BOUND {
                stays_least(slot, sample, *v)
            } else {
                slot.row.0 == rows::UPPER_BOUND && stays_greatest(slot, sample, *v)
            }
        }
        [u, v] => {
            if rows::EQ_INT <= slot.row.0 && slot.row.0 <= rows::LE {
                stays_compared(slot, sample, *u, *v)
            } else {
                false
            }
        }
        _ => false,
    }
}

/// Whether the row is of such slots: a bound of a number, or a comparison of two.
pub(crate) fn is_of_bounds_or_comparisons(row: RowId) -> bool {
    row.0 == rows::LOWER_BOUND
        || row.0 == rows::UPPER_BOUND
        || rows::EQ_INT <= row.0 && row.0 <= rows::LE
}
