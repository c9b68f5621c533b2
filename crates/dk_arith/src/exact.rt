// Exact sums and products of the coordinates of points and directions.
ghost use Rattle.std.specs.Prelude.{◌≡◌, ◌≤◌, ◌^◌, ℤ, pos, unsigned_abs, ◌+ℤ◌, ◌-ℤ◌, ◌*ℤ◌, ◌≤ℤ◌, int_div};
ghost use Rattle.dk_arith.specs.Directions.{gcd_of_three, leading, signed_as, divisor};

use crate::divisors::gcd_wide;

// The first that isn't 0.
fn leading_of(p: i128, q: i128, r: i128) -> i128
    ensures { result ≡ leading p q r }
{
    if p == 0 {
        if q == 0 { r } else { q }
    } else {
        p
    }
}

// A size, with the sign of a number.
fn with_sign_of(size: i128, like: i128) -> i128
    requires { pos 0 ≤ℤ size }
    ensures { result ≡ signed_as like size }
{
    if like < 0 { -size } else { size }
}

// The greatest common divisor of three numbers.
fn size_of(p: i128, q: i128, r: i128) -> i128
    requires p { unsigned_abs p ≤ 2 ^ 64 }
    requires q { unsigned_abs q ≤ 2 ^ 64 }
    requires r { unsigned_abs r ≤ 2 ^ 64 }
    ensures { result ≡ pos (gcd_of_three p q r) }
{
    gcd_wide(
        gcd_wide(p.unsigned_abs(), q.unsigned_abs()),
        r.unsigned_abs(),
    ) as i128
}

// The greatest common divisor, with the sign of the first number that isn't 0.
fn divisor_of(p: i128, q: i128, r: i128) -> i128
    requires p { unsigned_abs p ≤ 2 ^ 64 }
    requires q { unsigned_abs q ≤ 2 ^ 64 }
    requires r { unsigned_abs r ≤ 2 ^ 64 }
    ensures { result ≡ divisor p q r }
{
    with_sign_of(size_of(p, q, r), leading_of(p, q, r))
}

/// A direction in space; of a direction in the plane the last part is 0.
#[derive(Clone, Copy)]
pub struct Direction {
    pub a: i128,
    pub b: i128,
    pub c: i128,
}

/// The direction that is parallel to `(p, q, r)` and in lowest terms, its first part that isn't 0 positive.
pub fn lowest(p: i128, q: i128, r: i128) -> Direction
    requires p { unsigned_abs p ≤ 2 ^ 64 }
    requires q { unsigned_abs q ≤ 2 ^ 64 }
    requires r { unsigned_abs r ≤ 2 ^ 64 }
    requires some { (p ≡ pos 0) × (q ≡ pos 0) × (r ≡ pos 0) → ⊥ }
    ensures a { result.a ≡ int_div p (divisor p q r) }
    ensures b { result.b ≡ int_div q (divisor p q r) }
    ensures c { result.c ≡ int_div r (divisor p q r) }
    ensures small_a { unsigned_abs result.a ≤ unsigned_abs p }
    ensures small_b { unsigned_abs result.b ≤ unsigned_abs q }
    ensures small_c { unsigned_abs result.c ≤ unsigned_abs r }
{
    let d = divisor_of(p, q, r);
    Direction {
        a: quotient(p, d),
        b: quotient(q, d),
        c: quotient(r, d),
    }
}

// The quotient, cut towards 0.
fn quotient(p: i128, d: i128) -> i128
    requires p { unsigned_abs p ≤ 2 ^ 64 }
    requires d { d ≡ pos 0 → ⊥ }
    ensures { result ≡ int_div p d }
{
    p / d
}

/// `x - u`, which is exact.
pub fn minus(x: i64, u: i64) -> i128
    ensures { result ≡ x -ℤ u }
{
    x as i128 - u as i128
}

/// `a * x + b * y`, which is exact: the left side of a line's equation at a point.
pub fn value_at(a: i128, b: i128, x: i64, y: i64) -> i128
    requires a { unsigned_abs a ≤ 2 ^ 63 }
    requires b { unsigned_abs b ≤ 2 ^ 63 }
    requires x { unsigned_abs x ≤ 2 ^ 62 }
    requires y { unsigned_abs y ≤ 2 ^ 62 }
    ensures value { result ≡ a *ℤ x +ℤ b *ℤ y }
    ensures small { unsigned_abs result ≤ 2 ^ 126 }
{
    a * x as i128 + b * y as i128
}

/// `a * b - c * d`, which is exact.
pub fn area(a: i128, b: i128, c: i128, d: i128) -> i128
    requires a { unsigned_abs a ≤ 2 ^ 31 }
    requires b { unsigned_abs b ≤ 2 ^ 31 }
    requires c { unsigned_abs c ≤ 2 ^ 31 }
    requires d { unsigned_abs d ≤ 2 ^ 31 }
    ensures value { result ≡ a *ℤ b -ℤ c *ℤ d }
    ensures small { unsigned_abs result ≤ 2 ^ 63 }
{
    a * b - c * d
}

/// `a * x + b * y + c * z`, which is exact: the left side of a plane's equation at a point.
pub fn value_in_space(a: i128, b: i128, c: i128, x: i64, y: i64, z: i64) -> i128
    requires a { unsigned_abs a ≤ 2 ^ 63 }
    requires b { unsigned_abs b ≤ 2 ^ 63 }
    requires c { unsigned_abs c ≤ 2 ^ 63 }
    requires x { unsigned_abs x ≤ 2 ^ 30 }
    requires y { unsigned_abs y ≤ 2 ^ 30 }
    requires z { unsigned_abs z ≤ 2 ^ 30 }
    ensures value { result ≡ a *ℤ x +ℤ b *ℤ y +ℤ c *ℤ z }
    ensures small { unsigned_abs result ≤ 2 ^ 95 }
{
    a * x as i128 + b * y as i128 + c * z as i128
}
