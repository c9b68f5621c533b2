// Planes and stretches of a line with a sample: whether they stay as they are, and stretches that grow, as the sample's point lies on the
// line, beyond the last one.
ghost use Rattle.std.specs.Prelude.{◌≡◌, ◌≢◌, ◌∷◌, [], ◌^◌, false, unsigned_abs, nat_le, IsTrue};
ghost use Rattle.dk_base.specs.Values.{values_of};
ghost use Rattle.dk_instances.specs.Fits.{is_whole, tuple_in};
ghost use Rattle.dk_forms.specs.Plane.{IsPlaneState, IsPoint, IsSpan, are_aligned, are_parallel, in_space, is_before, plane_join, plane_of};
ghost use Rattle.dk_forms.specs.Plane.Points.{IsGap};
ghost use Rattle.dk_forms.specs.declared.states.State.TheVariants.{Broken, Span};
ghost use Rattle.dk_template.specs.Proper.{IsProper};
ghost use Rattle.dk_template.specs.Templates.{form_of};
ghost use Rattle.dk_engine.specs.Feeding.{with_sample};
ghost use Rattle.dk_engine.specs.Feeding.Narrow.{IsSeen, grown_state, may_stay, prolonged, with_state};
ghost use Rattle.dk_template.specs.Numbers as number;

use crate::Slot;
use crate::feed::operations::number_at;
use crate::feed::staying::is_seen_to_stay;
use dk_base::{VarId, View};
use dk_forms::{distance, plane_stays, same_products};
use dk_samples::{is_present, value_at};
use dk_template::{State, rows};

/// A stretch of a line in the slot at a place, with the point at which it ends then.
#[derive(Clone, Copy, Debug)]
pub struct Growth {
    pub place: usize,
    pub x: i64,
    pub y: i64,
    pub z: i64,
}

/// Whether a coordinate is within the limit.
#[inline(always)]
pub(crate) fn is_near(x: i64) -> bool
    ensures { result ≡ nat_le (unsigned_abs x) (2 ^ 30) }
{
    -(1 << 30) <= x && x <= 1 << 30
}

// Whether all coordinates of a point are.
#[inline(always)]
fn is_in_space(x: i64, y: i64, z: i64) -> bool
    ensures { result ≡ in_space (x, y, z) }
{
    is_near(x) && is_near(y) && is_near(z)
}

// Whether the first of two points isn't after the second: by x, then y, then z.
#[inline(always)]
fn is_before(x1: i64, y1: i64, z1: i64, x: i64, y: i64, z: i64) -> bool
    ensures { result ≡ is_before (x1, y1, z1) (x, y, z) }
{
    if x1 == x {
        if y1 == y { z1 <= z } else { y1 < y }
    } else {
        x1 < x
    }
}

// Whether two steps in space have the same or opposite directions.
#[inline(always)]
fn are_parallel(a: i64, b: i64, c: i64, d: i64, e: i64, f: i64) -> bool
    requires first { IsGap (a, b, c) }
    requires second { IsGap (d, e, f) }
    ensures { result ≡ are_parallel (a, b, c) (d, e, f) }
{
    if same_products(a, e, d, b) {
        if same_products(a, f, d, c) {
            same_products(b, f, e, c)
        } else {
            false
        }
    } else {
        false
    }
}

// Whether a point and the ends of a stretch lie on one line.
#[inline(always)]
fn is_on_line(x1: i64, y1: i64, z1: i64, x2: i64, y2: i64, z2: i64, x: i64, y: i64, z: i64) -> bool
    requires stretch { IsSpan ((x1, y1, z1), (x2, y2, z2)) }
    requires point { IsPoint (x, y, z) }
    ensures { result ≡ are_aligned (x1, y1, z1) (x, y, z) (x2, y2, z2) }
{
    are_parallel(
        distance(x, x1),
        distance(y, y1),
        distance(z, z1),
        distance(x2, x1),
        distance(y2, y1),
        distance(z2, z1),
    )
}

// Whether a point on the line of a stretch lies between its ends, so that it leaves the stretch as it is.
#[inline(always)]
fn is_within(x1: i64, y1: i64, z1: i64, x2: i64, y2: i64, z2: i64, x: i64, y: i64, z: i64) -> bool
    requires { IsSpan ((x1, y1, z1), (x2, y2, z2)) }
    ensures { IsTrue result → plane_join (Span x1 y1 z1 x2 y2 z2) (plane_of ((x, y, z) ∷ [])) ≡ Span x1 y1 z1 x2 y2 z2 }
{
    if !is_in_space(x, y, z) {
        return false;
    }
    if !is_before(x1, y1, z1, x, y, z) {
        return false;
    }
    if !is_before(x, y, z, x2, y2, z2) {
        return false;
    }
    is_on_line(x1, y1, z1, x2, y2, z2, x, y, z)
}

// Whether a point leaves a plane or a stretch of a line as it is.
#[inline(always)]
fn stays_at(state: &State, x: i64, y: i64, z: i64) -> bool
    requires { IsPlaneState state.now }
    ensures { IsTrue result → plane_join state.now (plane_of ((x, y, z) ∷ [])) ≡ state.now }
{
    match state {
        State::Span {
            x1,
            y1,
            z1,
            x2,
            y2,
            z2,
        } => is_within(*x1, *y1, *z1, *x2, *y2, *z2, x, y, z),
        _ => plane_stays(state, x, y, z),
    }
}

// Whether a stretch with a point more, which is after its last one, ends at the point.
#[inline(always)]
fn reaches(x1: i64, y1: i64, z1: i64, x2: i64, y2: i64, z2: i64, x: i64, y: i64, z: i64) -> bool
    requires stretch { IsSpan ((x1, y1, z1), (x2, y2, z2)) }
    requires after { is_before (x, y, z) (x2, y2, z2) ≡ false }
    ensures { IsTrue result → Span x1 y1 z1 x y z ≡ plane_join (Span x1 y1 z1 x2 y2 z2) (plane_of ((x, y, z) ∷ [])) }
{
    if is_in_space(x, y, z) {
        is_on_line(x1, y1, z1, x2, y2, z2, x, y, z)
    } else {
        false
    }
}

// Whether the state, a stretch of a line that ends before the point, ends at the point with it.
#[inline(always)]
fn grows(state: &State, x: i64, y: i64, z: i64) -> bool
    requires state { IsPlaneState state.now }
    requires after { may_stay state.now x y z ≡ false }
    ensures state { IsTrue result → prolonged state.now x y z ≡ plane_join state.now (plane_of ((x, y, z) ∷ [])) }
    ensures unbroken { IsTrue result → state.now ≢ Broken }
{
    match state {
        State::Span {
            x1,
            y1,
            z1,
            x2,
            y2,
            z2,
        } => reaches(*x1, *y1, *z1, *x2, *y2, *z2, x, y, z),
        _ => false,
    }
}

// Whether the state isn't a stretch of a line that ends before the point. One that does moves.
#[inline(always)]
fn may_stay(state: &State, x: i64, y: i64, z: i64) -> bool
    ensures { result ≡ may_stay state.now x y z }
{
    match state {
        State::Span { x2, y2, z2, .. } => is_before(x, y, z, *x2, *y2, *z2),
        _ => true,
    }
}

/// What a sample makes of a slot, as far as that is seen without a join.
#[derive(Clone, Copy, Debug)]
pub(crate) enum Seen {
    /// It leaves the slot as it is.
    Stays,
    /// The slot is a stretch of a line, which ends at the sample's point then.
    Grows(Growth),
    /// It isn't seen whether the slot stays or grows.
    Neither,
}

// What a point makes of a slot of LinearTernary, which is a plane or a stretch of a line.
#[inline(always)]
fn seen_at(slot: &Slot, growth: Growth) -> Seen
    requires row { slot.now.row.0 ≡ number.linear_ternary }
    requires proper { IsProper (form_of slot.now.row) slot.now.state }
    ensures { IsSeen slot.now (plane_join slot.now.state (plane_of ((growth.x, growth.y, growth.z) ∷ []))) growth.place result }
{
    if may_stay(&slot.state, growth.x, growth.y, growth.z) {
        if stays_at(&slot.state, growth.x, growth.y, growth.z) {
            Seen::Stays
        } else {
            Seen::Neither
        }
    } else if grows(&slot.state, growth.x, growth.y, growth.z) {
        Seen::Grows(growth)
    } else {
        Seen::Neither
    }
}

// Whether none of three variables is missing in a sample.
fn are_present(sample: &[View<'_>], u: VarId, v: VarId, w: VarId) -> bool
    ensures { result ≡ is_whole (tuple_in (u ∷ v ∷ w ∷ []) (values_of sample.now)) }
{
    is_present(value_at(sample, u))
        && (is_present(value_at(sample, v)) && is_present(value_at(sample, w)))
}

// What a sample makes of a slot of LinearTernary over three leaders. It stays as it is where one of them is missing.
#[inline(always)]
fn seen_by(slot: &Slot, sample: &[View<'_>], place: usize, u: VarId, v: VarId, w: VarId) -> Seen
    requires row { slot.now.row.0 ≡ number.linear_ternary }
    requires leaders { slot.now.leaders ≡ u ∷ v ∷ w ∷ [] }
    requires proper { IsProper (form_of slot.now.row) slot.now.state }
    ensures { IsSeen slot.now (with_sample slot.now.row slot.now.leaders (values_of sample.now) slot.now.state) place result }
{
    match (
        number_at(sample, u),
        number_at(sample, v),
        number_at(sample, w),
    ) {
        (Some(x), Some(y), Some(z)) => seen_at(slot, Growth { place, x, y, z }),
        _ => {
            if are_present(sample, u, v, w) {
                Seen::Neither
            } else {
                Seen::Stays
            }
        }
    }
}

// What a sample makes of a slot of another row: a bound or a comparison may be seen to stay as it is.
#[inline(always)]
fn seen_of_another(slot: &Slot, sample: &[View<'_>], place: usize) -> Seen
    ensures { IsSeen slot.now (with_sample slot.now.row slot.now.leaders (values_of sample.now) slot.now.state) place result }
{
    if is_seen_to_stay(slot, sample) {
        Seen::Stays
    } else {
        Seen::Neither
    }
}

/// What a sample makes of the slot at a place: a plane, a stretch of a line, a bound or a comparison may be seen to stay as it is, and a
/// stretch to grow.
#[inline(always)]
pub(crate) fn seen_with(slot: &Slot, sample: &[View<'_>], place: usize) -> Seen
    requires { IsProper (form_of slot.now.row) slot.now.state }
    ensures { IsSeen slot.now (with_sample slot.now.row slot.now.leaders (values_of sample.now) slot.now.state) place result }
{
    if slot.row.0 != rows::LINEAR_TERNARY {
        return seen_of_another(slot, sample, place);
    }
    match slot.leaders.as_slice() {
        [u, v, w] => seen_by(slot, sample, place, *u, *v, *w),
        _ => Seen::Neither,
    }
}

// A stretch of a line gets another last point.
fn prolong(state: &mut State, x: i64, y: i64, z: i64)
    ensures { state.new ≡ prolonged state.old x y z }
{
    if let State::Span { x2, .. } = state {
        *x2 = x;
    }
    if let State::Span { y2, .. } = state {
        *y2 = y;
    }
    if let State::Span { z2, .. } = state {
        *z2 = z;
    }
}

/// The slot's stretch of a line grows.
pub(crate) fn grow(slot: &mut Slot, growth: Growth)
    ensures { slot.new ≡ with_state slot.old (grown_state slot.old growth) }
{
    prolong(&mut slot.state, growth.x, growth.y, growth.z);
}
