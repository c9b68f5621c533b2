// Small numbers, whose products are exact in 64 bits, and numbers of 64 bits among wider ones.
ghost use Rattle.std.specs.Prelude.{◌≡◌, ◌<◌, ◌≤◌, ◌^◌, ◌+ℤ◌, ◌*ℤ◌, ◌-ℤ◌, neg_ℤ, unsigned_abs, IsTrue};
ghost use Rattle.std.specs.Ordering.{int_eq};
ghost use Rattle.dk_forms.specs.Plane.{are_parallel};
ghost use Rattle.dk_forms.specs.Plane.Points.{IsGap, step};

// A number of 64 bits that is below 2^31 only where n is small: at most 2^30 by its size. It takes the low half of n alone, which tells
// since n isn't wide.
#[inline(always)]
fn spread(n: i128) -> u64
    requires { unsigned_abs n ≤ 2 ^ 63 }
    ensures { result < 2 ^ 31 → unsigned_abs n ≤ 2 ^ 30 }
{
    let above_zero = (n + ((1 << 64) + (1 << 30))) as u128;
    (above_zero & 0xffff_ffff_ffff_ffff) as u64
}

// The same of two numbers.
#[inline(always)]
fn spread_of_two(a: i128, b: i128) -> u64
    requires a { unsigned_abs a ≤ 2 ^ 63 }
    requires b { unsigned_abs b ≤ 2 ^ 63 }
    ensures a { result < 2 ^ 31 → unsigned_abs a ≤ 2 ^ 30 }
    ensures b { result < 2 ^ 31 → unsigned_abs b ≤ 2 ^ 30 }
{
    spread(a) | spread(b)
}

// The same of three.
#[inline(always)]
fn spread_of_three(a: i128, b: i128, c: i128) -> u64
    requires a { unsigned_abs a ≤ 2 ^ 63 }
    requires b { unsigned_abs b ≤ 2 ^ 63 }
    requires c { unsigned_abs c ≤ 2 ^ 63 }
    ensures a { result < 2 ^ 31 → unsigned_abs a ≤ 2 ^ 30 }
    ensures b { result < 2 ^ 31 → unsigned_abs b ≤ 2 ^ 30 }
    ensures c { result < 2 ^ 31 → unsigned_abs c ≤ 2 ^ 30 }
{
    spread_of_two(a, b) | spread(c)
}

/// Whether two factors and the coordinates of a point are all small. It jumps once.
#[inline(always)]
pub(crate) fn are_four_small(a: i128, b: i128, x: i64, y: i64) -> bool
    requires a { unsigned_abs a ≤ 2 ^ 63 }
    requires b { unsigned_abs b ≤ 2 ^ 63 }
    ensures a { IsTrue result → unsigned_abs a ≤ 2 ^ 30 }
    ensures b { IsTrue result → unsigned_abs b ≤ 2 ^ 30 }
    ensures x { IsTrue result → unsigned_abs x ≤ 2 ^ 30 }
    ensures y { IsTrue result → unsigned_abs y ≤ 2 ^ 30 }
{
    spread_of_two(a, b) | spread_of_two(x as i128, y as i128) < 1 << 31
}

/// Whether three factors and the coordinates of a point are all small. It jumps once.
#[inline(always)]
pub(crate) fn are_six_small(a: i128, b: i128, c: i128, x: i64, y: i64, z: i64) -> bool
    requires a { unsigned_abs a ≤ 2 ^ 63 }
    requires b { unsigned_abs b ≤ 2 ^ 63 }
    requires c { unsigned_abs c ≤ 2 ^ 63 }
    ensures a { IsTrue result → unsigned_abs a ≤ 2 ^ 30 }
    ensures b { IsTrue result → unsigned_abs b ≤ 2 ^ 30 }
    ensures c { IsTrue result → unsigned_abs c ≤ 2 ^ 30 }
    ensures x { IsTrue result → unsigned_abs x ≤ 2 ^ 30 }
    ensures y { IsTrue result → unsigned_abs y ≤ 2 ^ 30 }
    ensures z { IsTrue result → unsigned_abs z ≤ 2 ^ 30 }
{
    spread_of_three(a, b, c) | spread_of_three(x as i128, y as i128, z as i128) < 1 << 31
}

/// `a * x`, which is exact.
#[inline(always)]
pub(crate) fn product(a: i64, x: i64) -> i64
    requires a { unsigned_abs a ≤ 2 ^ 31 }
    requires x { unsigned_abs x ≤ 2 ^ 30 }
    ensures value { result ≡ a *ℤ x }
    ensures small { unsigned_abs result ≤ 2 ^ 61 }
{
    a * x
}

/// Whether `a * x + b * y + c` is 0. It is exact, with one multiplication of 64 bits for each factor.
#[inline(always)]
pub(crate) fn is_level(a: i64, b: i64, c: i128, x: i64, y: i64) -> bool
    requires a { unsigned_abs a ≤ 2 ^ 31 }
    requires b { unsigned_abs b ≤ 2 ^ 31 }
    requires c { unsigned_abs c ≤ 2 ^ 126 }
    requires x { unsigned_abs x ≤ 2 ^ 30 }
    requires y { unsigned_abs y ≤ 2 ^ 30 }
    ensures { result ≡ int_eq (a *ℤ x +ℤ b *ℤ y) (neg_ℤ c) }
{
    let sum = product(a, x) + product(b, y);
    -sum as i128 == c
}

/// Whether `a * x + b * y + c * z + d` is 0. It is exact, with one multiplication of 64 bits for each factor.
#[inline(always)]
pub(crate) fn is_flat(a: i64, b: i64, c: i64, d: i128, x: i64, y: i64, z: i64) -> bool
    requires a { unsigned_abs a ≤ 2 ^ 31 }
    requires b { unsigned_abs b ≤ 2 ^ 31 }
    requires c { unsigned_abs c ≤ 2 ^ 31 }
    requires d { unsigned_abs d ≤ 2 ^ 126 }
    requires x { unsigned_abs x ≤ 2 ^ 30 }
    requires y { unsigned_abs y ≤ 2 ^ 30 }
    requires z { unsigned_abs z ≤ 2 ^ 30 }
    ensures { result ≡ int_eq (a *ℤ x +ℤ b *ℤ y +ℤ c *ℤ z) (neg_ℤ d) }
{
    let sum = product(a, x) + product(b, y) + product(c, z);
    -sum as i128 == d
}

/// From one point to another.
#[derive(Clone, Copy)]
pub(crate) struct Step {
    pub a: i64,
    pub b: i64,
    pub c: i64,
}

/// `x - u`, of coordinates of at most 2^30 by their size. It is exact.
#[inline(always)]
pub fn distance(x: i64, u: i64) -> i64
    requires x { unsigned_abs x ≤ 2 ^ 30 }
    requires u { unsigned_abs u ≤ 2 ^ 30 }
    ensures value { result ≡ x -ℤ u }
    ensures small { unsigned_abs result ≤ 2 ^ 31 }
{
    x - u
}

/// Whether `a * b` and `c * d` are equal, of distances, at most 2^31 by their size. It is exact.
#[inline(always)]
pub fn same_products(a: i64, b: i64, c: i64, d: i64) -> bool
    requires a { unsigned_abs a ≤ 2 ^ 31 }
    requires b { unsigned_abs b ≤ 2 ^ 31 }
    requires c { unsigned_abs c ≤ 2 ^ 31 }
    requires d { unsigned_abs d ≤ 2 ^ 31 }
    ensures { result ≡ int_eq (a *ℤ b) (c *ℤ d) }
{
    a * b == c * d
}

pub(crate) fn are_parallel(u: Step, f: Step) -> bool
    requires u { IsGap (step u) }
    requires f { IsGap (step f) }
    ensures { result ≡ are_parallel (step u) (step f) }
{
    if same_products(u.a, f.b, f.a, u.b) {
        if same_products(u.a, f.c, f.a, u.c) {
            same_products(u.b, f.c, f.b, u.c)
        } else {
            false
        }
    } else {
        false
    }
}
