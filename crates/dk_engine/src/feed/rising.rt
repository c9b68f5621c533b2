// Greatest values that a sample raises.
ghost use Rattle.std.specs.Prelude.{◌≡◌, ◌∷◌, [], IfSome};
ghost use Rattle.dk_base.specs.Values.{values_of};
ghost use Rattle.dk_forms.specs.Greatest.{greatest_join, greatest_of};
ghost use Rattle.dk_engine.specs.Feeding.{with_sample};
ghost use Rattle.dk_template.specs.Numbers as number;

use crate::Slot;
use crate::feed::operations::number_at;
use dk_base::{VarId, View};
use dk_template::{State, rows};

// The state with a number more, if it is a greatest value.
fn raise(state: &State, x: i64) -> Option<State>
    ensures { IfSome result (λ s. s ≡ greatest_join state.now (greatest_of (x ∷ []))) }
{
    match state {
        State::Greatest(greatest) => Some(State::Greatest((*greatest).max(x))),
        _ => None,
    }
}

// The state of a slot of UpperBound over a leader with a sample, if both have a number.
fn raise_by(slot: &Slot, sample: &[View<'_>], v: VarId) -> Option<State>
    requires row { slot.now.row.0 ≡ number.upper_bound }
    requires leaders { slot.now.leaders ≡ v ∷ [] }
    ensures { IfSome result (λ s. s ≡ with_sample slot.now.row slot.now.leaders (values_of sample.now) slot.now.state) }
{
    match number_at(sample, v) {
        Some(x) => raise(&slot.state, x),
        None => None,
    }
}

// The state of a slot of UpperBound with a sample, if both have a number.
fn raise_with(slot: &Slot, sample: &[View<'_>]) -> Option<State>
    requires { slot.now.row.0 ≡ number.upper_bound }
    ensures { IfSome result (λ s. s ≡ with_sample slot.now.row slot.now.leaders (values_of sample.now) slot.now.state) }
{
    match slot.leaders.as_slice() {
        [v] => raise_by(slot, sample, *v),
        _ => None,
    }
}

/// A slot's state with a sample, if it is a greatest value, and the sample has a number for it.
pub(crate) fn raised_with(slot: &Slot, sample: &[View<'_>]) -> Option<State>
    ensures { IfSome result (λ s. s ≡ with_sample slot.now.row slot.now.leaders (values_of sample.now) slot.now.state) }
{
    if slot.row.0 == rows::UPPER_BOUND {
        raise_with(slot, sample)
    } else {
        None
    }
}
