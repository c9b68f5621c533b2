// The form offset: the number by which each element of the second sequence is greater than its partner in the first.
ghost use Rattle.std.specs.Prelude.{◌≡◌, ◌↔◌, IsTrue};
ghost use Rattle.dk_forms.specs.Offset.{IsOffsetState, offset_join};

use crate::State;

/// The state of two lists together.
pub fn join_offset(left: State, right: &State) -> State
    requires left { IsOffsetState left }
    requires right { IsOffsetState right.now }
    ensures { result ≡ offset_join left right.now }
{
    match right {
        State::Empty => left,
        State::Offset { k: l } => match left {
            State::Empty => State::Offset { k: *l },
            State::Offset { k } => {
                if k == *l {
                    State::Offset { k }
                } else {
                    State::Broken
                }
            }
            _ => State::Broken,
        },
        _ => State::Broken,
    }
}

/// Whether a state that is known leaves another as it is.
pub fn offset_stays(state: &State, point: &State) -> bool
    requires state { IsOffsetState state.now }
    requires point { IsOffsetState point.now }
    ensures { IsTrue result ↔ (offset_join state.now point.now ≡ state.now) }
{
    match point {
        State::Empty => true,
        State::Offset { k: l } => match state {
            State::Offset { k } => *k == *l,
            _ => matches!(state, State::Broken),
        },
        _ => matches!(state, State::Broken),
    }
}
