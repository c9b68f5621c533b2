// The form greatest: the greatest of the values.
ghost use Rattle.std.specs.Prelude.{◌≡◌, ◌↔◌, [], ◌∷◌, fold, IsTrue};
ghost use Rattle.std.specs.Int.{int_max};
ghost use Rattle.dk_forms.specs.Greatest.{IsGreatestState, greatest_join, greatest_of};

use crate::State;

fn greatest_from(first: i64, rest: &[i64]) -> i64
    ensures { result ≡ fold int_max first rest.now }
{
    let mut greatest = first;
    for x in rest {
        greatest = greatest.max(*x);
    }
    greatest
}

/// The state of some values.
pub fn greatest_point(values: &[i64]) -> State
    ensures { result ≡ greatest_of values.now }
{
    match values {
        [] => State::Empty,
        [first, rest @ ..] => State::Greatest(greatest_from(*first, rest)),
    }
}

/// The state of two lists together.
pub fn join_greatest(left: State, right: &State) -> State
    requires left { IsGreatestState left }
    requires right { IsGreatestState right.now }
    ensures { result ≡ greatest_join left right.now }
{
    match right {
        State::Empty => left,
        State::Greatest(y) => match left {
            State::Empty => State::Greatest(*y),
            State::Greatest(x) => State::Greatest(x.max(*y)),
            _ => State::Broken,
        },
        _ => State::Broken,
    }
}

/// Whether a value leaves the state as it is.
#[inline]
pub fn greatest_stays(state: &State, x: i64) -> bool
    requires { IsGreatestState state.now }
    ensures { IsTrue result ↔ (greatest_join state.now (greatest_of (x ∷ [])) ≡ state.now) }
{
    match state {
        State::Greatest(greatest) => x <= *greatest,
        _ => matches!(state, State::Broken),
    }
}

/// Whether some values leave the state as it is.
pub fn greatest_all_stay(state: &State, values: &[i64]) -> bool
    requires { IsGreatestState state.now }
    ensures { IsTrue result ↔ (greatest_join state.now (greatest_of values.now) ≡ state.now) }
{
    match values {
        [] => true,
        [v, rest @ ..] => if greatest_stays(state, *v) {
            greatest_all_stay(state, rest)
        } else {
            false
        },
    }
}
