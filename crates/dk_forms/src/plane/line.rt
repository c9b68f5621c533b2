// The form line: the point, or the line through all points.
ghost use Rattle.std.specs.Prelude.{◌≡◌, ◌↔◌, ◌&&◌, false, ◌^◌, ℤ, pos, unsigned_abs, [], ◌∷◌, nat_le, IsTrue};
ghost use Rattle.dk_forms.specs.Known.{fact};
ghost use Rattle.dk_forms.specs.Plane.Line.{straight, in_limit, same_point, is_on, through, IsSpot, IsStraight, IsLineState, line_state, line_join, line_of};

use crate::State;
use crate::plane::small;
use dk_arith::{lowest, minus, value_at};

/// Whether the point lies on the line. It is exact.
fn on_line(a: i128, b: i128, c: i128, x: i64, y: i64) -> bool
    requires line { IsStraight (a, b, c) }
    requires point { IsSpot (x, y) }
    ensures { result ≡ is_on (a, b, c) (x, y) }
{
    value_at(a, b, x, y) == -c
}

/// The line through two points that differ.
fn line_through(x: i64, y: i64, u: i64, v: i64) -> State
    requires first { IsSpot (x, y) }
    requires second { IsSpot (u, v) }
    requires apart { same_point (x, y) (u, v) ≡ false }
    ensures { result ≡ line_state (fact (straight (through (x, y) (u, v)))) }
{
    let across = lowest(minus(v, y), minus(x, u), 0);
    State::Straight {
        a: across.a,
        b: across.b,
        c: -value_at(across.a, across.b, x, y),
    }
}

fn state_of_point(x: i64, y: i64) -> State
    ensures { result ≡ line_of ((x, y) ∷ []) }
{
    if x.unsigned_abs() <= 1 << 62 && y.unsigned_abs() <= 1 << 62 {
        State::Spot { x, y }
    } else {
        State::Broken
    }
}

/// The state of one point.
pub fn line_point(x: i64, y: i64) -> State
    ensures value { result ≡ line_of ((x, y) ∷ []) }
    ensures formed { IsLineState result }
{
    state_of_point(x, y)
}

fn joined_line(left: State, right: &State) -> State
    requires left { IsLineState left }
    requires right { IsLineState right.now }
    ensures { result ≡ line_join left right.now }
{
    match left {
        State::Empty => match right {
            State::Empty => State::Empty,
            State::Spot { x, y } => State::Spot { x: *x, y: *y },
            State::Straight { a, b, c } => State::Straight {
                a: *a,
                b: *b,
                c: *c,
            },
            _ => State::Broken,
        },
        State::Spot { x, y } => match right {
            State::Empty => State::Spot { x, y },
            State::Spot { x: u, y: v } => join_spots(x, y, *u, *v),
            State::Straight { a, b, c } => line_with(*a, *b, *c, x, y),
            _ => State::Broken,
        },
        State::Straight { a, b, c } => match right {
            State::Empty => State::Straight { a, b, c },
            State::Spot { x, y } => line_with(a, b, c, *x, *y),
            State::Straight { a: k, b: l, c: m } => join_straights(a, b, c, *k, *l, *m),
            _ => State::Broken,
        },
        _ => State::Broken,
    }
}

/// The state of two lists together.
pub fn join_line(left: State, right: &State) -> State
    requires left { IsLineState left }
    requires right { IsLineState right.now }
    ensures value { result ≡ line_join left right.now }
    ensures formed { IsLineState result }
{
    joined_line(left, right)
}

fn is_same(x: i64, y: i64, u: i64, v: i64) -> bool
    ensures { result ≡ same_point (x, y) (u, v) }
{
    x == u && y == v
}

fn join_spots(x: i64, y: i64, u: i64, v: i64) -> State
    requires first { IsSpot (x, y) }
    requires second { IsSpot (u, v) }
    ensures { result ≡ line_join (State.Spot x y) (State.Spot u v) }
{
    if is_same(x, y, u, v) {
        State::Spot { x, y }
    } else {
        line_through(x, y, u, v)
    }
}

fn line_with(a: i128, b: i128, c: i128, x: i64, y: i64) -> State
    requires line { IsStraight (a, b, c) }
    requires point { IsSpot (x, y) }
    ensures { result ≡ line_join (State.Straight a b c) (State.Spot x y) }
{
    if on_line(a, b, c, x, y) {
        State::Straight { a, b, c }
    } else {
        State::Broken
    }
}

fn join_straights(a: i128, b: i128, c: i128, k: i128, l: i128, m: i128) -> State
    ensures { result ≡ line_join (State.Straight a b c) (State.Straight k l m) }
{
    if a == k && b == l && c == m {
        State::Straight { a, b, c }
    } else {
        State::Broken
    }
}

fn is_near(x: i64) -> bool
    ensures { result ≡ nat_le (unsigned_abs x) (2 ^ 62) }
{
    -(1 << 62) <= x && x <= 1 << 62
}

fn in_limit(x: i64, y: i64) -> bool
    ensures { result ≡ in_limit (x, y) }
{
    is_near(x) && is_near(y)
}

// Whether the point lies on the line and isn't beyond the limit.
fn wide_meet(a: i128, b: i128, c: i128, x: i64, y: i64) -> bool
    requires { IsStraight (a, b, c) }
    ensures { result ≡ (in_limit (x, y) && is_on (a, b, c) (x, y)) }
{
    if in_limit(x, y) {
        on_line(a, b, c, x, y)
    } else {
        false
    }
}

// Whether a point leaves a state as it is, with numbers of any size. It stands apart so that a loop over states, which mostly are lines
// of small numbers, branches at the others.
#[cold]
#[inline(never)]
fn wide_stays(state: &State, x: i64, y: i64) -> bool
    requires { IsLineState state.now }
    ensures { IsTrue result ↔ (line_join state.now (line_of ((x, y) ∷ [])) ≡ state.now) }
{
    match state {
        State::Spot { x: u, y: v } => is_same(*u, *v, x, y),
        State::Straight { a, b, c } => wide_meet(*a, *b, *c, x, y),
        _ => matches!(state, State::Broken),
    }
}

// The same of a line: in 64 bits where the numbers are small, as they mostly are.
#[inline(always)]
fn straight_stays(state: &State, a: i128, b: i128, c: i128, x: i64, y: i64) -> bool
    requires line { IsStraight (a, b, c) }
    requires state { state.now ≡ State.Straight a b c }
    ensures { IsTrue result ↔ (line_join state.now (line_of ((x, y) ∷ [])) ≡ state.now) }
{
    if small::are_four_small(a, b, x, y) {
        small::is_level(a as i64, b as i64, c, x, y)
    } else {
        wide_stays(state, x, y)
    }
}

/// Whether a point leaves the state as it is. It looks for a line first, since most states of a run are lines.
#[inline(always)]
pub fn line_stays(state: &State, x: i64, y: i64) -> bool
    requires { IsLineState state.now }
    ensures { IsTrue result ↔ (line_join state.now (line_of ((x, y) ∷ [])) ≡ state.now) }
{
    match state {
        State::Straight { a, b, c } => straight_stays(state, *a, *b, *c, x, y),
        _ => wide_stays(state, x, y),
    }
}
