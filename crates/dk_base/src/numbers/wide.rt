// Whole numbers of more than 64 bits, as text and as numbers of 64 bits.
ghost use Rattle.std.specs.Prelude.{◌≡◌, ◌<◌, ◌^◌, ℕ, ℤ, IfSome, IsTrue, Some, pos, unsigned_abs};
ghost use Rattle.std.specs.Fmt.{signed_decimal};
ghost use Rattle.dk_base.specs.Numbers.{fits_i64};

// The whole number that a text writes.
fn parsed(text: &[u8]) -> Option<i128>
    ensures { (z : ℤ) → unsigned_abs z < 2 ^ 127 → text.now ≡ signed_decimal z → result ≡ Some z }
{
    match str::from_utf8(text) {
        Ok(text) => text.parse().ok(),
        Err(_) => None,
    }
}

// The number, if it has at most 127 bits without its sign.
fn in_wide(number: i128) -> Option<i128>
    ensures read { unsigned_abs number < 2 ^ 127 → result ≡ Some number }
    ensures within { IfSome result (λ z. unsigned_abs z < 2 ^ 127) }
{
    if number.unsigned_abs() < 1 << 127 {
        Some(number)
    } else {
        None
    }
}

/// The whole number that a text writes in decimal, if it has at most 127 bits without its sign.
pub fn parse_wide(text: &[u8]) -> Option<i128>
    ensures read { (z : ℤ) → unsigned_abs z < 2 ^ 127 → text.now ≡ signed_decimal z → result ≡ Some z }
    ensures within { IfSome result (λ z. unsigned_abs z < 2 ^ 127) }
{
    in_wide(parsed(text)?)
}

/// The number, if it is one of 64 bits with its sign.
pub fn in_i64(number: i128) -> Option<i64>
    ensures read { IsTrue (fits_i64 number) → result ≡ Some number }
    ensures within { IfSome result (λ k. IsTrue (fits_i64 k)) }
{
    i64::try_from(number).ok()
}

/// The number, if it is one of 64 bits without a sign.
pub fn in_u64(number: i128) -> Option<u64>
    ensures read { (n : ℕ) → n < 2 ^ 64 → number ≡ pos n → result ≡ Some n }
    ensures within { IfSome result (λ n. n < 2 ^ 64) }
{
    u64::try_from(number).ok()
}
