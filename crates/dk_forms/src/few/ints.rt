// The form few integers: the distinct values, ascending, if they are at most three.
ghost use Rattle.std.specs.Prelude.{◌≡◌, ◌↔◌, [], ◌∷◌, IsTrue, ◌<◌, ◌≤◌, length, MatchOption};
ghost use Rattle.std.specs.List.{list_any};
ghost use Rattle.std.specs.Ordering.{int_cmp, int_eq};
ghost use Rattle.dk_forms.specs.Known.Distinct.{put, few_meet};
ghost use Rattle.dk_forms.specs.Known.Place.{IsPlace};
ghost use Rattle.dk_forms.specs.Ints.{ints_state, ints_join, ints_of, IsIntsState};

use crate::{Few, State};
use std::alloc::Global;
use std::cmp::Ordering;

// Where a value stands among ascending values: it is there, or belongs before an index.
#[derive(Clone, Copy)]
pub(crate) enum FoundPlace {
    There,
    Before(usize),
}

// Where a number stands among ascending numbers.
fn find_place(items: &[i64], x: i64) -> FoundPlace
    ensures { IsPlace items.now x result }
{
    for (i, y) in items.iter().enumerate() {
        match x.cmp(y) {
            Ordering::Less => return FoundPlace::Before(i),
            Ordering::Equal => return FoundPlace::There,
            Ordering::Greater => {}
        }
    }
    FoundPlace::Before(items.len())
}

// With one number more, or none where that makes more than three.
fn with(few: Few, x: i64) -> Option<Few>
    ensures { MatchOption result (3 < length (put int_cmp x few)) (λ more. (more ≡ put int_cmp x few) × (length more ≤ 3)) }
{
    match find_place(few.as_slice(), x) {
        FoundPlace::There => Some(few),
        FoundPlace::Before(at) => {
            if few.as_slice().len() < 3 {
                Some(few.insert(at, x))
            } else {
                None
            }
        }
    }
}

// The numbers of both, if they are at most three.
fn union(xs: &[i64], ys: Few) -> State
    ensures { result ≡ ints_state (few_meet int_cmp 3 xs.now ys) }
{
    let mut all = ys;
    for x in xs {
        match with(all, *x) {
            Some(more) => all = more,
            None => return State::Broken,
        }
    }
    State::Ints(all)
}

/// The state of two lists together. It takes no memory.
pub fn join_ints(alloc: Global, left: State, right: &State) -> State
    requires left { IsIntsState left }
    requires right { IsIntsState right.now }
    ensures { result ≡ ints_join left right.now }
{
    match right {
        State::Empty => left,
        State::Ints(ys) => match left {
            State::Empty => State::Ints(Few::of(alloc, ys.as_slice())),
            State::Ints(xs) => union(ys.as_slice(), xs),
            _ => State::Broken,
        },
        _ => State::Broken,
    }
}

/// The state of some values. It takes no memory.
pub fn ints_point(alloc: Global, values: &[i64]) -> State
    ensures { result ≡ ints_of values.now }
{
    if values.is_empty() {
        State::Empty
    } else {
        union(values, Few::of(alloc, &[]))
    }
}

// Whether a number is one of these.
fn has_number(few: &Few, x: i64) -> bool
    ensures { result ≡ list_any (int_eq x) few.now }
{
    few.as_slice().iter().any(|y| x == *y)
}

/// Whether a value leaves the state as it is.
#[inline]
#[tactic(auto, using(crate::proofs::FewStays::ints_stay))]
pub fn ints_stays(state: &State, x: i64) -> bool
    requires { IsIntsState state.now }
    ensures { IsTrue result ↔ (ints_join state.now (ints_of (x ∷ [])) ≡ state.now) }
{
    match state {
        State::Ints(few) => has_number(few, x),
        _ => matches!(state, State::Broken),
    }
}

/// Whether some values leave the state as it is.
pub fn ints_all_stay(state: &State, values: &[i64]) -> bool
    requires { IsIntsState state.now }
    ensures { IsTrue result ↔ (ints_join state.now (ints_of values.now) ≡ state.now) }
{
    match values {
        [] => true,
        [v, rest @ ..] => if ints_stays(state, *v) {
            ints_all_stay(state, rest)
        } else {
            false
        },
    }
}
