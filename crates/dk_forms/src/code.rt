// The form code: the hash code, if there is only one.
ghost use Rattle.std.specs.Prelude.{◌≡◌, ◌↔◌, [], ◌∷◌, nat_eq, IsTrue};
ghost use Rattle.std.specs.List.{list_all};
ghost use Rattle.dk_forms.specs.Code.{IsCodeState, code_join, code_of};

use crate::State;

// Whether all values are this one.
fn is_only(value: u64, values: &[u64]) -> bool
    ensures { result ≡ list_all (nat_eq value) values.now }
{
    values.iter().all(|x| value == *x)
}

/// The state of some values.
pub fn code_point(values: &[u64]) -> State
    ensures { result ≡ code_of values.now }
{
    match values {
        [] => State::Empty,
        [first, rest @ ..] => {
            if is_only(*first, rest) {
                State::Code(*first)
            } else {
                State::Broken
            }
        }
    }
}

/// The state of two lists together.
pub fn join_code(left: State, right: &State) -> State
    requires left { IsCodeState left }
    requires right { IsCodeState right.now }
    ensures { result ≡ code_join left right.now }
{
    match right {
        State::Empty => left,
        State::Code(y) => match left {
            State::Empty => State::Code(*y),
            State::Code(x) => {
                if x == *y {
                    State::Code(x)
                } else {
                    State::Broken
                }
            }
            _ => State::Broken,
        },
        _ => State::Broken,
    }
}

/// Whether a value leaves the state as it is.
#[inline]
pub fn code_stays(state: &State, value: u64) -> bool
    requires { IsCodeState state.now }
    ensures { IsTrue result ↔ (code_join state.now (code_of (value ∷ [])) ≡ state.now) }
{
    match state {
        State::Code(only) => *only == value,
        _ => matches!(state, State::Broken),
    }
}

/// Whether some values leave the state as it is.
pub fn code_all_stay(state: &State, values: &[u64]) -> bool
    requires { IsCodeState state.now }
    ensures { IsTrue result ↔ (code_join state.now (code_of values.now) ≡ state.now) }
{
    match values {
        [] => true,
        [v, rest @ ..] => if code_stays(state, *v) {
            code_all_stay(state, rest)
        } else {
            false
        },
    }
}
