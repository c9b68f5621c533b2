// Blocks of eight numbers, as vectors of two lanes.
ghost use Rattle.std.specs.Prelude.{◌≡◌, All, FitsSigned};
ghost use Rattle.std.specs.Int.{w64};
ghost use Rattle.dk_lanes.specs.Blocks.{IsInLanes};
ghost use Rattle.dk_lanes.specs.Lanes.{is_member};
ghost use Rattle.dk_lanes.specs.Shift.{wrap_to};

use std::simd::prelude::*;

/// How many numbers one step of a scan looks at.
pub(crate) const BLOCK: usize = 8;

// The numbers of a block in their order, two in a vector.
#[derive(Clone, Copy)]
pub(crate) struct Lanes {
    pub(crate) a: i64x2,
    pub(crate) b: i64x2,
    pub(crate) c: i64x2,
    pub(crate) d: i64x2,
}

impl Lanes {
    // Each number is read by itself, which is how the proof learns that it is of 64 bits.
    #[inline(always)]
    pub(crate) fn of(block: &[i64; BLOCK]) -> Self
        ensures { IsInLanes block.now result.a result.b result.c result.d }
    {
        let [a, b, c, d, e, f, g, h] = *block;
        Lanes {
            a: i64x2::from_array([a, b]),
            b: i64x2::from_array([c, d]),
            c: i64x2::from_array([e, f]),
            d: i64x2::from_array([g, h]),
        }
    }
}

// Whether a number of the block is k.
#[inline(always)]
pub(crate) fn block_has(block: &[i64; BLOCK], k: i64) -> bool
    ensures { result ≡ is_member block.now k }
{
    let l = Lanes::of(block);
    let ks = i64x2::splat(k);
    (l.a.simd_eq(ks) | l.b.simd_eq(ks) | l.c.simd_eq(ks) | l.d.simd_eq(ks)).any()
}

// Whether each number of the right block is k above its partner, where numbers wrap round.
#[inline(always)]
pub(crate) fn block_wraps_to(k: i64, left: &[i64; BLOCK], right: &[i64; BLOCK]) -> bool
    ensures wraps { result ≡ wrap_to k left.now right.now }
    ensures left { All (FitsSigned w64) left.now }
    ensures right { All (FitsSigned w64) right.now }
{
    let l = Lanes::of(left);
    let r = Lanes::of(right);
    let ks = i64x2::splat(k);
    ((r.a - l.a).simd_eq(ks)
        & (r.b - l.b).simd_eq(ks)
        & (r.c - l.c).simd_eq(ks)
        & (r.d - l.d).simd_eq(ks)).all()
}
