// The form modulus: the remainder that the values share by the greatest common divisor of their differences.
ghost use Rattle.std.specs.Prelude.{◌≡◌, ◌↔◌, [], ◌∷◌, ◌<◌, pos, IsTrue};
ghost use Rattle.std.specs.Ordering.{int_eq};
ghost use Rattle.dk_forms.specs.Modulus.{IsModulusState, class, modulus_join, modulus_of, modulus_state, remainder};

use crate::State;
use dk_arith::gcd_of;

// What is left of a value by a modulus.
fn remainder_of(m: u64, x: i64) -> u64
    requires { 0 < m }
    ensures { pos result ≡ remainder m x }
{
    let size = x.unsigned_abs();
    if x < 0 {
        m - 1 - (size - 1) % m
    } else {
        size % m
    }
}

// The class of r by a modulus, as a state.
fn class_state(m: u64, r: u64) -> State
    requires { 0 < m }
    ensures { result ≡ modulus_state (class m (pos r)) }
{
    if m == 1 {
        State::Broken
    } else {
        State::Modulus { m, r: r % m }
    }
}

fn join_values(v: i64, w: i64) -> State
    ensures { result ≡ modulus_join (State.One v) (State.One w) }
{
    let distance = v.abs_diff(w);
    if distance == 0 {
        State::One(v)
    } else {
        class_state(distance, remainder_of(distance, v))
    }
}

fn join_value(m: u64, r: u64, w: i64) -> State
    requires { IsModulusState (State.Modulus m r) }
    ensures { result ≡ modulus_join (State.Modulus m r) (State.One w) }
{
    let s = remainder_of(m, w);
    class_state(gcd_of(m, r.abs_diff(s)), r)
}

fn join_to_value(v: i64, m: u64, r: u64) -> State
    requires { IsModulusState (State.Modulus m r) }
    ensures { result ≡ modulus_join (State.One v) (State.Modulus m r) }
{
    join_value(m, r, v)
}

fn join_classes(m: u64, r: u64, n: u64, s: u64) -> State
    requires { IsModulusState (State.Modulus m r) }
    ensures { result ≡ modulus_join (State.Modulus m r) (State.Modulus n s) }
{
    class_state(gcd_of(gcd_of(m, n), r.abs_diff(s)), r)
}

/// The state of one value.
pub fn modulus_point(x: i64) -> State
    ensures value { result ≡ modulus_of (x ∷ []) }
    ensures formed { IsModulusState result }
{
    State::One(x)
}

fn joined_modulus(left: State, right: &State) -> State
    requires left { IsModulusState left }
    requires right { IsModulusState right.now }
    ensures { result ≡ modulus_join left right.now }
{
    match left {
        State::Empty => match right {
            State::Empty => State::Empty,
            State::One(v) => State::One(*v),
            State::Modulus { m, r } => State::Modulus { m: *m, r: *r },
            _ => State::Broken,
        },
        State::One(v) => match right {
            State::Empty => State::One(v),
            State::One(w) => join_values(v, *w),
            State::Modulus { m, r } => join_to_value(v, *m, *r),
            _ => State::Broken,
        },
        State::Modulus { m, r } => match right {
            State::Empty => State::Modulus { m, r },
            State::One(w) => join_value(m, r, *w),
            State::Modulus { m: n, r: s } => join_classes(m, r, *n, *s),
            _ => State::Broken,
        },
        _ => State::Broken,
    }
}

// Whether a value is the one value.
fn is_same(v: i64, w: i64) -> bool
    ensures { IsTrue result → modulus_join (State.One v) (State.One w) ≡ State.One v }
{
    v == w
}

// Whether a value lies in a class.
fn has_value(m: u64, r: u64, w: i64) -> bool
    requires { IsModulusState (State.Modulus m r) }
    ensures { IsTrue result → modulus_join (State.Modulus m r) (State.One w) ≡ State.Modulus m r }
{
    remainder_of(m, w) == r
}

// Whether the second class lies in the first.
fn has_class(m: u64, r: u64, n: u64, s: u64) -> bool
    requires { IsModulusState (State.Modulus m r) }
    ensures { IsTrue result → modulus_join (State.Modulus m r) (State.Modulus n s) ≡ State.Modulus m r }
{
    if n % m == 0 { s % m == r } else { false }
}

// Whether the right state is seen to say no more than the left.
fn adds_nothing(left: &State, right: &State) -> bool
    requires { IsModulusState left.now }
    ensures { IsTrue result → modulus_join left.now right.now ≡ left.now }
{
    match left {
        State::One(v) => match right {
            State::One(w) => is_same(*v, *w),
            _ => false,
        },
        State::Modulus { m, r } => match right {
            State::One(w) => has_value(*m, *r, *w),
            State::Modulus { m: n, r: s } => has_class(*m, *r, *n, *s),
            _ => false,
        },
        _ => false,
    }
}

/// The state of two lists together. A left state to which the right one adds nothing stays, and no divisor is sought.
pub fn join_modulus(left: State, right: &State) -> State
    requires left { IsModulusState left }
    requires right { IsModulusState right.now }
    ensures value { result ≡ modulus_join left right.now }
    ensures formed { IsModulusState result }
{
    if adds_nothing(&left, right) {
        left
    } else {
        joined_modulus(left, right)
    }
}

fn is_value(v: i64, w: i64) -> bool
    ensures { result ≡ int_eq v w }
{
    v == w
}

// Whether a value leaves the remainder r by a modulus.
fn leaves(m: u64, r: u64, x: i64) -> bool
    requires { 0 < m }
    ensures { IsTrue result ↔ (remainder m x ≡ pos r) }
{
    remainder_of(m, x) == r
}

/// Whether a value leaves the state as it is.
#[inline]
#[tactic(auto, using(crate::proofs::ModulusStays::empty_moves, crate::proofs::ModulusStays::one_stays, crate::proofs::ModulusStays::class_stays))]
pub fn modulus_stays(state: &State, x: i64) -> bool
    requires { IsModulusState state.now }
    ensures { IsTrue result ↔ (modulus_join state.now (modulus_of (x ∷ [])) ≡ state.now) }
{
    match state {
        State::One(v) => is_value(*v, x),
        State::Modulus { m, r } => leaves(*m, *r, x),
        _ => matches!(state, State::Broken),
    }
}
