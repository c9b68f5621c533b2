// Patterns of samples, found without a list of the leaders that are present.
ghost use Rattle.std.specs.Prelude.{◌≡◌, ◌↔◌, ◌<◌, IfSome, IsTrue, Some, length, position, slice_index_or};
ghost use Rattle.dk_base.specs.Values.{values_of};
ghost use Rattle.dk_presence.specs.Patterns.{held_patterns, present_in, same_vars};

use crate::Held;
use dk_base::{VarId, View};
use dk_samples::{is_present, value_at};

// How many patterns are looked at.
const FIRST: usize = 4;

// Whether the variable stands at this place.
fn stands_at(vars: &[VarId], place: usize, v: VarId) -> bool
    ensures { IsTrue result ↔ ((place < length vars.now) × (slice_index_or vars.now place v ≡ v)) }
{
    place < vars.len() && vars[place].0 == v.0
}

// Whether these are the leaders that are present in the sample.
fn are_present(pattern: &[VarId], leaders: &[VarId], sample: &[View<'_>]) -> bool
    ensures { result ≡ same_vars (present_in leaders.now (values_of sample.now)) pattern.now }
{
    let mut next = 0;
    for leader in leaders {
        if is_present(value_at(sample, *leader)) {
            if !stands_at(pattern, next, *leader) {
                return false;
            }
            next += 1;
        }
    }
    next == pattern.len()
}

/// The place of the pattern of the leaders that are present in the sample, if it is one of the first.
pub(crate) fn place_among(held: &[Held], leaders: &[VarId], sample: &[View<'_>]) -> Option<usize>
    ensures { IfSome result (λ place. position (same_vars (present_in leaders.now (values_of sample.now))) (held_patterns held.now) ≡ Some place) }
{
    for place in 0..held.len() {
        if place == FIRST {
            return None;
        }
        if are_present(held[place].leaders.as_slice(), leaders, sample) {
            return Some(place);
        }
    }
    None
}
