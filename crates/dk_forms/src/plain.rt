// The form plain: whether each tuple satisfies the relation.
ghost use Rattle.std.specs.Prelude.{◌≡◌, ◌↔◌, [], ◌∷◌, IsTrue};
ghost use Rattle.dk_forms.specs.Plain.{IsPlainState, plain_join, plain_of};

use crate::State;

/// The state of one tuple, which satisfies the relation or not.
pub fn plain_point(holds: bool) -> State
    ensures { result ≡ plain_of (holds ∷ []) }
{
    if holds { State::Holds } else { State::Broken }
}

/// The state of two lists together.
pub fn join_plain(left: State, right: &State) -> State
    requires left { IsPlainState left }
    requires right { IsPlainState right.now }
    ensures { result ≡ plain_join left right.now }
{
    match right {
        State::Empty => left,
        State::Holds => match left {
            State::Empty | State::Holds => State::Holds,
            _ => State::Broken,
        },
        _ => State::Broken,
    }
}

// The same of a state that isn't Holds. It stands apart so that a loop over states, which mostly are, branches at the others.
#[cold]
#[inline(never)]
fn other_stays(state: &State, holds: bool) -> bool
    requires state { IsPlainState state.now }
    requires other { state.now ≡ State.Holds → ⊥ }
    ensures { IsTrue result ↔ (plain_join state.now (plain_of (holds ∷ [])) ≡ state.now) }
{
    matches!(state, State::Broken)
}

/// Whether a tuple, which satisfies the relation or not, leaves the state as it is.
#[inline(always)]
pub fn plain_stays(state: &State, holds: bool) -> bool
    requires { IsPlainState state.now }
    ensures { IsTrue result ↔ (plain_join state.now (plain_of (holds ∷ [])) ≡ state.now) }
{
    match state {
        State::Holds => holds,
        _ => other_stays(state, holds),
    }
}
