// The form plane: the stretch of a line that all points lie on, or the plane through all points.
ghost use Rattle.std.specs.Prelude.{◌≡◌, ◌↔◌, ◌&&◌, ◌≤◌, ◌^◌, ℤ, pos, false, unsigned_abs, [], ◌∷◌, map, nat_le, IsTrue};
ghost use Rattle.dk_forms.specs.Known.{fact, both};
ghost use Rattle.dk_arith.specs.Vectors.{minus, cross};
ghost use Rattle.dk_forms.specs.Plane.{span, plane, plane_meet, in_space, plane_between, plane_across, first_off, is_before, lesser, greater, are_aligned, is_in_plane, plane_through, IsPoint, IsSpan, IsPlane, plane_from, IsPlaneState, plane_state, plane_known, plane_join, plane_of};
ghost use Rattle.dk_forms.specs.Plane.Points.{triple, quadruple, direction, step, IsGap};
ghost use Rattle.std.specs.List.{list_all, All};

pub(crate) mod line;
pub(crate) mod small;

use crate::State;
use crate::plane::small::Step;
use dk_arith::{Direction, area, lowest, minus, value_in_space};

/// A point in space.
#[derive(Clone, Copy)]
pub struct Point {
    pub x: i64,
    pub y: i64,
    pub z: i64,
}

/// Whether the first isn't after the second: by x, then y, then z.
fn is_before(p: Point, q: Point) -> bool
    ensures { result ≡ is_before (triple p) (triple q) }
{
    if p.x == q.x {
        if p.y == q.y { p.z <= q.z } else { p.y < q.y }
    } else {
        p.x < q.x
    }
}

fn lesser(p: Point, q: Point) -> Point
    requires p { IsPoint (triple p) }
    requires q { IsPoint (triple q) }
    ensures value { triple result ≡ lesser (triple p) (triple q) }
    ensures point { IsPoint (triple result) }
{
    if is_before(p, q) { p } else { q }
}

fn greater(p: Point, q: Point) -> Point
    requires p { IsPoint (triple p) }
    requires q { IsPoint (triple q) }
    ensures value { triple result ≡ greater (triple p) (triple q) }
    ensures point { IsPoint (triple result) }
{
    if is_before(p, q) { q } else { p }
}

/// From p to q.
fn gap(p: Point, q: Point) -> Direction
    requires p { IsPoint (triple p) }
    requires q { IsPoint (triple q) }
    ensures value { direction result ≡ minus (triple q) (triple p) }
    ensures small { IsGap (direction result) }
{
    Direction {
        a: minus(q.x, p.x),
        b: minus(q.y, p.y),
        c: minus(q.z, p.z),
    }
}

/// A plane: the points with `a * x + b * y + c * z + d = 0`.
#[derive(Clone, Copy)]
pub struct Plane {
    pub a: i128,
    pub b: i128,
    pub c: i128,
    pub d: i128,
}

fn is_in_plane(n: Plane, p: Point) -> bool
    requires n { IsPlane (quadruple n) }
    requires p { IsPoint (triple p) }
    ensures { result ≡ is_in_plane (quadruple n) (triple p) }
{
    value_in_space(n.a, n.b, n.c, p.x, p.y, p.z) == -n.d
}

/// A direction across two.
fn normal(u: Direction, f: Direction) -> Direction
    requires u { IsGap (direction u) }
    requires f { IsGap (direction f) }
    ensures value { direction result ≡ cross (direction u) (direction f) }
    ensures a { unsigned_abs result.a ≤ 2 ^ 63 }
    ensures b { unsigned_abs result.b ≤ 2 ^ 63 }
    ensures c { unsigned_abs result.c ≤ 2 ^ 63 }
{
    Direction {
        a: area(u.b, f.c, f.b, u.c),
        b: area(f.a, u.c, u.a, f.c),
        c: area(u.a, f.b, f.a, u.b),
    }
}

/// The plane through three points that aren't on one line.
fn plane_through(p: Point, q: Point, v: Point) -> Plane
    requires p { IsPoint (triple p) }
    requires q { IsPoint (triple q) }
    requires v { IsPoint (triple v) }
    requires off { are_aligned (triple p) (triple q) (triple v) ≡ false }
    ensures value { quadruple result ≡ plane_through (triple p) (triple q) (triple v) }
    ensures proper { IsPlane (quadruple result) }
{
    let k = normal(gap(p, q), gap(p, v));
    plane_across(lowest(k.a, k.b, k.c), p)
}

fn plane_across(n: Direction, p: Point) -> Plane
    requires a { unsigned_abs n.a ≤ 2 ^ 63 }
    requires b { unsigned_abs n.b ≤ 2 ^ 63 }
    requires c { unsigned_abs n.c ≤ 2 ^ 63 }
    requires p { IsPoint (triple p) }
    ensures { quadruple result ≡ plane_across (direction n) (triple p) }
{
    Plane {
        a: n.a,
        b: n.b,
        c: n.c,
        d: -value_in_space(n.a, n.b, n.c, p.x, p.y, p.z),
    }
}

/// The first of the points that isn't on the line through p and q, and p where there is none.
fn first_off(p: Point, q: Point, points: &[Point]) -> Point
    requires p { IsPoint (triple p) }
    requires q { IsPoint (triple q) }
    requires points { All (λ v. IsPoint (triple v)) points.now }
    ensures value { triple result ≡ first_off (triple p) (triple q) (map triple points.now) }
    ensures point { IsPoint (triple result) }
{
    match points {
        [] => p,
        [v, rest @ ..] => if are_on_line(p, q, *v) {
            first_off(p, q, rest)
        } else {
            *v
        },
    }
}

fn all_in_plane(n: Plane, points: &[Point]) -> bool
    requires n { IsPlane (quadruple n) }
    requires points { All (λ v. IsPoint (triple v)) points.now }
    ensures { result ≡ list_all (is_in_plane (quadruple n)) (map triple points.now) }
{
    match points {
        [] => true,
        [v, rest @ ..] => if is_in_plane(n, *v) {
            all_in_plane(n, rest)
        } else {
            false
        },
    }
}

/// What is known of the points, of which p is the least and q the greatest.
fn plane_between(p: Point, q: Point, points: &[Point]) -> State
    requires p { IsPoint (triple p) }
    requires q { IsPoint (triple q) }
    requires points { All (λ v. IsPoint (triple v)) points.now }
    ensures { result ≡ plane_state (plane_between (triple p) (triple q) (map triple points.now)) }
{
    let v = first_off(p, q, points);
    if are_on_line(p, q, v) {
        state_of_span(p, q)
    } else {
        let n = plane_through(p, q, v);
        if all_in_plane(n, points) {
            state_of_plane(n)
        } else {
            State::Broken
        }
    }
}

fn state_of_span(p: Point, q: Point) -> State
    ensures { result ≡ plane_state (fact (span (triple p, triple q))) }
{
    State::Span {
        x1: p.x,
        y1: p.y,
        z1: p.z,
        x2: q.x,
        y2: q.y,
        z2: q.z,
    }
}

fn state_of_plane(n: Plane) -> State
    ensures { result ≡ plane_state (fact (plane (quadruple n))) }
{
    State::Plane {
        a: n.a,
        b: n.b,
        c: n.c,
        d: n.d,
    }
}

fn join_spans(p: Point, q: Point, v: Point, w: Point) -> State
    requires p { IsPoint (triple p) }
    requires q { IsPoint (triple q) }
    requires v { IsPoint (triple v) }
    requires w { IsPoint (triple w) }
    ensures { result ≡ plane_state (plane_meet (span (triple p, triple q)) (span (triple v, triple w))) }
{
    let least = lesser(lesser(lesser(p, q), v), w);
    let greatest = greater(greater(greater(p, q), v), w);
    plane_between(least, greatest, &[p, q, v, w])
}

fn join_planes(n: Plane, m: Plane) -> State
    ensures { result ≡ plane_state (plane_meet (plane (quadruple n)) (plane (quadruple m))) }
{
    if n.a == m.a && n.b == m.b && n.c == m.c && n.d == m.d {
        state_of_plane(n)
    } else {
        State::Broken
    }
}

fn plane_with(n: Plane, p: Point, q: Point) -> State
    requires n { IsPlane (quadruple n) }
    requires p { IsPoint (triple p) }
    requires q { IsPoint (triple q) }
    ensures { result ≡ plane_state (plane_meet (plane (quadruple n)) (span (triple p, triple q))) }
{
    let both = if is_in_plane(n, p) {
        is_in_plane(n, q)
    } else {
        false
    };
    if both {
        state_of_plane(n)
    } else {
        State::Broken
    }
}

fn state_of_point(x: i64, y: i64, z: i64) -> State
    ensures { result ≡ plane_of ((x, y, z) ∷ []) }
{
    let p = Point { x, y, z };
    if in_space(x, y, z) {
        state_of_span(p, p)
    } else {
        State::Broken
    }
}

/// The state of one point.
pub fn plane_point(x: i64, y: i64, z: i64) -> State
    ensures value { result ≡ plane_of ((x, y, z) ∷ []) }
    ensures formed { IsPlaneState result }
{
    state_of_point(x, y, z)
}

fn in_space(x: i64, y: i64, z: i64) -> bool
    ensures { result ≡ in_space (x, y, z) }
{
    x.unsigned_abs() <= 1 << 30 && y.unsigned_abs() <= 1 << 30 && z.unsigned_abs() <= 1 << 30
}

fn copy_of(state: &State) -> State
    requires { IsPlaneState state.now }
    ensures { result ≡ state.now }
{
    match state {
        State::Empty => State::Empty,
        State::Span {
            x1,
            y1,
            z1,
            x2,
            y2,
            z2,
        } => State::Span {
            x1: *x1,
            y1: *y1,
            z1: *z1,
            x2: *x2,
            y2: *y2,
            z2: *z2,
        },
        State::Plane { a, b, c, d } => State::Plane {
            a: *a,
            b: *b,
            c: *c,
            d: *d,
        },
        _ => State::Broken,
    }
}

fn join_to_span(p: Point, q: Point, right: &State) -> State
    requires left { IsSpan (triple p, triple q) }
    requires right { IsPlaneState right.now }
    ensures { result ≡ plane_state (both plane_meet (fact (span (triple p, triple q))) (plane_known right.now)) }
{
    match right {
        State::Empty => state_of_span(p, q),
        State::Span {
            x1,
            y1,
            z1,
            x2,
            y2,
            z2,
        } => join_spans(
            p,
            q,
            Point {
                x: *x1,
                y: *y1,
                z: *z1,
            },
            Point {
                x: *x2,
                y: *y2,
                z: *z2,
            },
        ),
        State::Plane { a, b, c, d } => plane_with(
            Plane {
                a: *a,
                b: *b,
                c: *c,
                d: *d,
            },
            p,
            q,
        ),
        _ => State::Broken,
    }
}

fn join_to_plane(n: Plane, right: &State) -> State
    requires left { IsPlane (quadruple n) }
    requires right { IsPlaneState right.now }
    ensures { result ≡ plane_state (both plane_meet (fact (plane (quadruple n))) (plane_known right.now)) }
{
    match right {
        State::Empty => state_of_plane(n),
        State::Span {
            x1,
            y1,
            z1,
            x2,
            y2,
            z2,
        } => plane_with(
            n,
            Point {
                x: *x1,
                y: *y1,
                z: *z1,
            },
            Point {
                x: *x2,
                y: *y2,
                z: *z2,
            },
        ),
        State::Plane { a, b, c, d } => join_planes(
            n,
            Plane {
                a: *a,
                b: *b,
                c: *c,
                d: *d,
            },
        ),
        _ => State::Broken,
    }
}

fn joined_plane(left: State, right: &State) -> State
    requires left { IsPlaneState left }
    requires right { IsPlaneState right.now }
    ensures { result ≡ plane_join left right.now }
{
    match left {
        State::Empty => copy_of(right),
        State::Span {
            x1,
            y1,
            z1,
            x2,
            y2,
            z2,
        } => join_to_span(
            Point {
                x: x1,
                y: y1,
                z: z1,
            },
            Point {
                x: x2,
                y: y2,
                z: z2,
            },
            right,
        ),
        State::Plane { a, b, c, d } => join_to_plane(Plane { a, b, c, d }, right),
        _ => State::Broken,
    }
}

/// The state of two lists together.
pub fn join_plane(left: State, right: &State) -> State
    requires left { IsPlaneState left }
    requires right { IsPlaneState right.now }
    ensures value { result ≡ plane_join left right.now }
    ensures formed { IsPlaneState result }
{
    joined_plane(left, right)
}

// Whether the point lies in the plane and isn't beyond the limit.
#[tactic(auto, using(crate::proofs::PlaneFacts::point_of_limit))]
fn wide_meet(n: Plane, p: Point) -> bool
    requires n { IsPlane (quadruple n) }
    ensures { result ≡ (in_space (triple p) && is_in_plane (quadruple n) (triple p)) }
{
    if is_point(p) {
        is_in_plane(n, p)
    } else {
        false
    }
}

// From p to q.
fn step(p: Point, q: Point) -> Step
    requires p { IsPoint (triple p) }
    requires q { IsPoint (triple q) }
    ensures value { step result ≡ minus (triple q) (triple p) }
    ensures small { IsGap (step result) }
{
    Step {
        a: small::distance(q.x, p.x),
        b: small::distance(q.y, p.y),
        c: small::distance(q.z, p.z),
    }
}

// Whether the three points lie on one line, in 64 bits.
fn are_on_line(p: Point, q: Point, v: Point) -> bool
    requires p { IsPoint (triple p) }
    requires q { IsPoint (triple q) }
    requires v { IsPoint (triple v) }
    ensures { result ≡ are_aligned (triple p) (triple q) (triple v) }
{
    small::are_parallel(step(p, q), step(p, v))
}

// Whether v lies on the line of p and q, and between them.
fn is_between(p: Point, q: Point, v: Point) -> bool
    requires p { IsPoint (triple p) }
    requires q { IsPoint (triple q) }
    requires v { IsPoint (triple v) }
    ensures { result ≡ (is_before (triple p) (triple v) && (is_before (triple v) (triple q) && are_aligned (triple p) (triple q) (triple v))) }
{
    if is_before(p, v) {
        if is_before(v, q) {
            are_on_line(p, q, v)
        } else {
            false
        }
    } else {
        false
    }
}

fn is_near(x: i64) -> bool
    ensures { result ≡ nat_le (unsigned_abs x) (2 ^ 30) }
{
    -(1 << 30) <= x && x <= 1 << 30
}

fn is_point(p: Point) -> bool
    ensures { result ≡ in_space (triple p) }
{
    is_near(p.x) && is_near(p.y) && is_near(p.z)
}

// The same of a point that may be beyond the limit.
#[tactic(auto, using(crate::proofs::PlaneFacts::point_of_limit))]
fn span_has(p: Point, q: Point, v: Point) -> bool
    requires { IsSpan (triple p, triple q) }
    ensures { result ≡ (in_space (triple v) && (is_before (triple p) (triple v) && (is_before (triple v) (triple q) && are_aligned (triple p) (triple q) (triple v)))) }
{
    if is_point(v) {
        is_between(p, q, v)
    } else {
        false
    }
}

// Whether a point leaves a state as it is, with numbers of any size. It stands apart so that a loop over states, which mostly are planes
// of small numbers, branches at the others.
#[cold]
#[inline(never)]
#[tactic(auto, using(crate::proofs::PlaneStays::empty_moves))]
fn wide_stays(state: &State, x: i64, y: i64, z: i64) -> bool
    requires { IsPlaneState state.now }
    ensures { IsTrue result ↔ (plane_join state.now (plane_of ((x, y, z) ∷ [])) ≡ state.now) }
{
    match state {
        State::Span {
            x1,
            y1,
            z1,
            x2,
            y2,
            z2,
        } => span_has(
            Point {
                x: *x1,
                y: *y1,
                z: *z1,
            },
            Point {
                x: *x2,
                y: *y2,
                z: *z2,
            },
            Point { x, y, z },
        ),
        State::Plane { a, b, c, d } => wide_meet(
            Plane {
                a: *a,
                b: *b,
                c: *c,
                d: *d,
            },
            Point { x, y, z },
        ),
        _ => matches!(state, State::Broken),
    }
}

// The same of a plane: in 64 bits where the numbers are small, as they mostly are.
#[inline(always)]
fn flat_stays(state: &State, n: Plane, p: Point) -> bool
    requires n { IsPlane (quadruple n) }
    requires state { state.now ≡ plane_state (fact (plane (quadruple n))) }
    ensures { IsTrue result ↔ (plane_join state.now (plane_of (triple p ∷ [])) ≡ state.now) }
{
    if small::are_six_small(n.a, n.b, n.c, p.x, p.y, p.z) {
        small::is_flat(n.a as i64, n.b as i64, n.c as i64, n.d, p.x, p.y, p.z)
    } else {
        wide_stays(state, p.x, p.y, p.z)
    }
}

/// Whether a point leaves the state as it is. It looks for a plane first, since most states of a run are planes.
#[inline(always)]
pub fn plane_stays(state: &State, x: i64, y: i64, z: i64) -> bool
    requires { IsPlaneState state.now }
    ensures { IsTrue result ↔ (plane_join state.now (plane_of ((x, y, z) ∷ [])) ≡ state.now) }
{
    match state {
        State::Plane { a, b, c, d } => flat_stays(
            state,
            Plane {
                a: *a,
                b: *b,
                c: *c,
                d: *d,
            },
            Point { x, y, z },
        ),
        _ => wide_stays(state, x, y, z),
    }
}
