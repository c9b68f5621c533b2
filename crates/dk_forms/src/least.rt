// The form least: the least of the values.
ghost use Rattle.std.specs.Prelude.{◌≡◌, ◌↔◌, [], ◌∷◌, fold, IsTrue};
ghost use Rattle.std.specs.Int.{int_min};
ghost use Rattle.dk_forms.specs.Least.{IsLeastState, least_join, least_of};

use crate::State;

fn least_from(first: i64, rest: &[i64]) -> i64
    ensures { result ≡ fold int_min first rest.now }
{
    let mut least = first;
    for x in rest {
        least = least.min(*x);
    }
    least
}

/// The state of some values.
pub fn least_point(values: &[i64]) -> State
    ensures { result ≡ least_of values.now }
{
    match values {
        [] => State::Empty,
        [first, rest @ ..] => State::Least(least_from(*first, rest)),
    }
}

/// The state of two lists together.
pub fn join_least(left: State, right: &State) -> State
    requires left { IsLeastState left }
    requires right { IsLeastState right.now }
    ensures { result ≡ least_join left right.now }
{
    match right {
        State::Empty => left,
        State::Least(y) => match left {
            State::Empty => State::Least(*y),
            State::Least(x) => State::Least(x.min(*y)),
            _ => State::Broken,
        },
        _ => State::Broken,
    }
}

/// Whether a value leaves the state as it is.
#[inline]
pub fn least_stays(state: &State, x: i64) -> bool
    requires { IsLeastState state.now }
    ensures { IsTrue result ↔ (least_join state.now (least_of (x ∷ [])) ≡ state.now) }
{
    match state {
        State::Least(least) => *least <= x,
        _ => matches!(state, State::Broken),
    }
}

/// Whether some values leave the state as it is.
pub fn least_all_stay(state: &State, values: &[i64]) -> bool
    requires { IsLeastState state.now }
    ensures { IsTrue result ↔ (least_join state.now (least_of values.now) ≡ state.now) }
{
    match values {
        [] => true,
        [v, rest @ ..] => if least_stays(state, *v) {
            least_all_stay(state, rest)
        } else {
            false
        },
    }
}
