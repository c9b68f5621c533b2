// By how much the elements of one sequence are above those of another.
ghost use Rattle.std.specs.Prelude.{◌≡◌, ◌-ℤ◌, if◌then◌else◌, length, zip};
ghost use Rattle.std.specs.List.{list_all};
ghost use Rattle.std.specs.Ordering.{int_eq};
ghost use Rattle.dk_lanes.specs.Shift.{IsBounded, are_above_by, shift_of};

use crate::blocks::{BLOCK, block_wraps_to};
use crate::relation::{AtMost, Below, Relation};

/// By how much each element of one sequence is above the element of another at its place.
#[derive(Clone, Copy, Debug, PartialEq, Eq)]
pub enum Shift {
    /// The sequences are of different lengths, or two of the differences are not equal.
    Unequal,
    /// Both sequences are empty.
    Empty,
    /// By this, which is above -2^64 and below 2^64.
    Const(i128),
}

// By how much y is above x, which is exact.
#[inline(always)]
fn difference(x: i64, y: i64) -> i128
    ensures { result ≡ y -ℤ x }
{
    y as i128 - x as i128
}

// Whether b is above a by as much as y is above x. Two differences that wrap round to one number are equal exactly where both are
// below 0, or none.
#[inline(always)]
fn is_above_alike(x: i64, y: i64, a: i64, b: i64) -> bool
    ensures { result ≡ int_eq (y -ℤ x) (b -ℤ a) }
{
    if y < x {
        b.wrapping_sub(a) == y.wrapping_sub(x) && b < a
    } else {
        b.wrapping_sub(a) == y.wrapping_sub(x) && a <= b
    }
}

// Whether each number of the right block is above its partner by as much as y is above x.
#[inline(always)]
fn block_is_above(x: i64, y: i64, left: &[i64; BLOCK], right: &[i64; BLOCK]) -> bool
    ensures { result ≡ are_above_by (y -ℤ x) left.now right.now }
{
    if y < x {
        block_wraps_to(y.wrapping_sub(x), left, right) && Below::block_holds(right, left)
    } else {
        block_wraps_to(y.wrapping_sub(x), left, right) && AtMost::block_holds(left, right)
    }
}

#[inline(always)]
fn blocks_are_above(x: i64, y: i64, blocks: &[[i64; BLOCK]], others: &[[i64; BLOCK]]) -> bool
    ensures { result ≡ list_all (λ b. are_above_by (y -ℤ x) b.0 b.1) (zip blocks.now others.now) }
{
    blocks
        .iter()
        .zip(others)
        .all(|(left, right)| block_is_above(x, y, left, right))
}

#[inline(always)]
fn rest_is_above(x: i64, y: i64, rest: &[i64], other: &[i64]) -> bool
    ensures { result ≡ are_above_by (y -ℤ x) rest.now other.now }
{
    rest.iter()
        .zip(other)
        .all(|(a, b)| is_above_alike(x, y, *a, *b))
}

// Whether each number of t is above its partner in s by as much as y is above x.
#[inline(always)]
fn is_above(x: i64, y: i64, s: &[i64], t: &[i64]) -> bool
    requires { length s.now ≡ length t.now }
    ensures { result ≡ are_above_by (y -ℤ x) s.now t.now }
{
    let (blocks, rest) = s.as_chunks::<BLOCK>();
    let (others, other) = t.as_chunks::<BLOCK>();
    blocks_are_above(x, y, blocks, others) && rest_is_above(x, y, rest, other)
}

#[inline(always)]
fn shift_where(is_above: bool, x: i64, y: i64) -> Shift
    ensures { result ≡ (if is_above then Shift.Const (y -ℤ x) else Shift.Unequal) }
{
    if is_above {
        Shift::Const(difference(x, y))
    } else {
        Shift::Unequal
    }
}

/// By how much each element of `t` is above the element of `s` at its place, if it is the same at all places.
pub fn offset(s: &[i64], t: &[i64]) -> Shift
    ensures value { result ≡ shift_of s.now t.now }
    ensures bounded { IsBounded result }
{
    if s.len() != t.len() {
        return Shift::Unequal;
    }
    match (s, t) {
        ([x, rest @ ..], [y, other @ ..]) => {
            if s.len() < BLOCK {
                shift_where(rest_is_above(*x, *y, rest, other), *x, *y)
            } else {
                shift_where(is_above(*x, *y, s, t), *x, *y)
            }
        }
        _ => Shift::Empty,
    }
}
