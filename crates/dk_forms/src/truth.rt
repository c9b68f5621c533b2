// The form truth: the truth value, if there is only one.
ghost use Rattle.std.specs.Prelude.{◌≡◌, ◌↔◌, [], ◌∷◌, IsTrue};
ghost use Rattle.std.specs.List.{list_all};
ghost use Rattle.std.proofs.Math.Bool.{beq};
ghost use Rattle.dk_forms.specs.Truth.{IsTruthState, truth_join, truth_of};

use crate::State;

// Whether all values are this one.
fn is_only(value: bool, values: &[bool]) -> bool
    ensures { result ≡ list_all (beq value) values.now }
{
    values.iter().all(|x| value == *x)
}

/// The state of some values.
pub fn truth_point(values: &[bool]) -> State
    ensures { result ≡ truth_of values.now }
{
    match values {
        [] => State::Empty,
        [first, rest @ ..] => {
            if is_only(*first, rest) {
                State::Truth(*first)
            } else {
                State::Broken
            }
        }
    }
}

/// The state of two lists together.
pub fn join_truth(left: State, right: &State) -> State
    requires left { IsTruthState left }
    requires right { IsTruthState right.now }
    ensures { result ≡ truth_join left right.now }
{
    match right {
        State::Empty => left,
        State::Truth(y) => match left {
            State::Empty => State::Truth(*y),
            State::Truth(x) => {
                if x == *y {
                    State::Truth(x)
                } else {
                    State::Broken
                }
            }
            _ => State::Broken,
        },
        _ => State::Broken,
    }
}

/// Whether a value leaves the state as it is.
#[inline]
pub fn truth_stays(state: &State, value: bool) -> bool
    requires { IsTruthState state.now }
    ensures { IsTrue result ↔ (truth_join state.now (truth_of (value ∷ [])) ≡ state.now) }
{
    match state {
        State::Truth(only) => *only == value,
        _ => matches!(state, State::Broken),
    }
}

/// Whether some values leave the state as it is.
pub fn truth_all_stay(state: &State, values: &[bool]) -> bool
    requires { IsTruthState state.now }
    ensures { IsTrue result ↔ (truth_join state.now (truth_of values.now) ≡ state.now) }
{
    match values {
        [] => true,
        [v, rest @ ..] => if truth_stays(state, *v) {
            truth_all_stay(state, rest)
        } else {
            false
        },
    }
}
