// Whether a number is the result of an operation on two others. Nothing wraps.
ghost use Rattle.std.specs.Prelude.{◌≡◌};
ghost use Rattle.dk_meanings.specs.Relations.{is_difference, is_gcd, is_product, is_quotient, is_remainder, is_sum};

use dk_arith::gcd_of;

pub(crate) fn is_sum(z: i64, x: i64, y: i64) -> bool
    ensures { result ≡ is_sum z x y }
{
    z as i128 == x as i128 + y as i128
}

pub(crate) fn is_difference(z: i64, x: i64, y: i64) -> bool
    ensures { result ≡ is_difference z x y }
{
    z as i128 == x as i128 - y as i128
}

pub(crate) fn is_product(z: i64, x: i64, y: i64) -> bool
    ensures { result ≡ is_product z x y }
{
    z as i128 == x as i128 * y as i128
}

// The quotient is cut towards 0; that of the least number and -1 is no number of 64 bits.
pub(crate) fn is_quotient(z: i64, x: i64, y: i64) -> bool
    ensures { result ≡ is_quotient z x y }
{
    match x.checked_div(y) {
        Some(quotient) => z == quotient,
        None => false,
    }
}

// What x is more than y times the quotient that is cut towards 0.
pub(crate) fn is_remainder(z: i64, x: i64, y: i64) -> bool
    ensures { result ≡ is_remainder z x y }
{
    y != 0 && z == x.wrapping_rem(y)
}

// The greatest common divisor is at least 0; that of 0 and 0 is 0.
pub(crate) fn is_gcd(z: i64, x: i64, y: i64) -> bool
    ensures { result ≡ is_gcd z x y }
{
    0 <= z && z.unsigned_abs() == gcd_of(x.unsigned_abs(), y.unsigned_abs())
}
