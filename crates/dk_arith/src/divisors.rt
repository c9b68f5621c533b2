// Greatest common divisors.
ghost use Rattle.std.specs.Prelude.{◌≡◌};
ghost use Rattle.dk_arith.specs.Gcd.{gcd};

/// The greatest common divisor; that of 0 and a number is the number.
pub fn gcd_of(a: u64, b: u64) -> u64
    ensures { result ≡ gcd a b }
{
    let mut x = a;
    let mut y = b;
    while y != 0 {
        let rest = x % y;
        x = y;
        y = rest;
    }
    x
}

// That of wide numbers.
fn gcd_of_wide(a: u128, b: u128) -> u128
    ensures { result ≡ gcd a b }
{
    let mut x = a;
    let mut y = b;
    while y != 0 {
        let rest = x % y;
        x = y;
        y = rest;
    }
    x
}

/// The greatest common divisor of wide numbers, in 64 bits where both have no more.
pub fn gcd_wide(a: u128, b: u128) -> u128
    ensures { result ≡ gcd a b }
{
    if a <= u64::MAX as u128 && b <= u64::MAX as u128 {
        gcd_of(a as u64, b as u64) as u128
    } else {
        gcd_of_wide(a, b)
    }
}
