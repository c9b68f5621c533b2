// Relations of two numbers.
ghost use Rattle.std.specs.Prelude.{◌≡◌, Bool, int_le, int_lt, ℤ, zip};
ghost use Rattle.std.specs.List.{list_all};
ghost use Rattle.std.specs.Ordering.{int_eq};

use crate::blocks::{BLOCK, Lanes};

/// A relation of two numbers.
#[derive(Clone, Copy, Debug, PartialEq, Eq)]
pub enum Rel {
    /// Both numbers are equal.
    Eq,
    /// The first is below the second.
    Lt,
    /// The first is at most the second.
    Le,
    /// The first is above the second.
    Gt,
    /// The first is at least the second.
    Ge,
}

// A relation that is known where a scan is compiled, so that the scan's loop has no choice to make.
pub(crate) trait Relation {
    ghost related: { ℤ → ℤ → Bool };

    fn holds(x: i64, y: i64) -> bool
        ensures { result ≡ related x y };

    // Whether it holds of each number and its partner.
    fn block_holds(left: &[i64; BLOCK], right: &[i64; BLOCK]) -> bool
        ensures { result ≡ list_all (λ p. related p.0 p.1) (zip left.now right.now) };
}

pub(crate) struct Equal;

impl Relation for Equal {
    ghost related = { int_eq };

    #[inline(always)]
    fn holds(x: i64, y: i64) -> bool {
        x == y
    }

    #[inline(always)]
    fn block_holds(left: &[i64; BLOCK], right: &[i64; BLOCK]) -> bool {
        let l = Lanes::of(left);
        let r = Lanes::of(right);
        (l.a.simd_eq(r.a) & l.b.simd_eq(r.b) & l.c.simd_eq(r.c) & l.d.simd_eq(r.d)).all()
    }
}

pub(crate) struct Below;

impl Relation for Below {
    ghost related = { int_lt };

    #[inline(always)]
    fn holds(x: i64, y: i64) -> bool {
        x < y
    }

    #[inline(always)]
    fn block_holds(left: &[i64; BLOCK], right: &[i64; BLOCK]) -> bool {
        let l = Lanes::of(left);
        let r = Lanes::of(right);
        (l.a.simd_lt(r.a) & l.b.simd_lt(r.b) & l.c.simd_lt(r.c) & l.d.simd_lt(r.d)).all()
    }
}

pub(crate) struct AtMost;

impl Relation for AtMost {
    ghost related = { int_le };

    #[inline(always)]
    fn holds(x: i64, y: i64) -> bool {
        x <= y
    }

    #[inline(always)]
    fn block_holds(left: &[i64; BLOCK], right: &[i64; BLOCK]) -> bool {
        let l = Lanes::of(left);
        let r = Lanes::of(right);
        (l.a.simd_le(r.a) & l.b.simd_le(r.b) & l.c.simd_le(r.c) & l.d.simd_le(r.d)).all()
    }
}

// The relation with its sides exchanged.
pub(crate) struct Flipped<R>(R);

impl<R: Relation> Relation for Flipped<R> {
    ghost related = { λ x y. R.related y x };

    #[inline(always)]
    fn holds(x: i64, y: i64) -> bool {
        R::holds(y, x)
    }

    #[inline(always)]
    fn block_holds(left: &[i64; BLOCK], right: &[i64; BLOCK]) -> bool {
        R::block_holds(right, left)
    }
}
