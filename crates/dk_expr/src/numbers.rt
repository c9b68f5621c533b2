// Numbers in the front of a text.
ghost use Rattle.std.specs.Prelude.{◌≡◌, ◌++◌, ◌+◌, ◌<◌, ◌≤◌, ◌^◌, ℕ, ℤ, IfSome, IsSome, IsTrue, List, Some, int_lt, length, pos, true, unsigned_abs};
ghost use Rattle.std.specs.List.{position_or_len};
ghost use Rattle.std.specs.Fmt.{decimal, signed_decimal};
ghost use Rattle.dk_base.specs.Numbers.{fits_i64};
ghost use Rattle.dk_print.specs.Parts.{sign_text, step_text};
ghost use Rattle.dk_expr.specs.Following.{with_sign};
ghost use Rattle.dk_expr.specs.Readable.{begins_behind_number, ends_number};

use dk_base::{in_i64, parse_wide};

/// A number in the front of a text, and how many bytes it takes.
#[derive(Clone, Copy)]
pub(crate) struct Number {
    pub(crate) value: i128,
    pub(crate) len: usize,
}

/// How many bytes stand in front of the first blank, comma or parenthesis.
pub(crate) fn number_len(bytes: &[u8]) -> usize
    ensures value { result ≡ position_or_len ends_number bytes.now }
    ensures within { result ≤ length bytes.now }
{
    for (i, byte) in bytes.iter().enumerate() {
        if *byte == b' ' || *byte == b',' || *byte == b')' {
            return i;
        }
    }
    bytes.len()
}

/// The whole number of 64 bits that a text writes.
pub(crate) fn int_in(text: &[u8]) -> Option<i64>
    ensures read { (z : ℤ) → IsTrue (fits_i64 z) → text.now ≡ signed_decimal z → result ≡ Some z }
    ensures within { IfSome result (λ k. IsTrue (fits_i64 k)) }
{
    in_i64(parse_wide(text)?)
}

/// The number in the front of the bytes.
pub(crate) fn number_at(bytes: &[u8]) -> Option<Number>
    ensures read { (z : ℤ) (more : List ℕ) → unsigned_abs z < 2 ^ 127 → begins_behind_number more ≡ true → bytes.now ≡ signed_decimal z ++ more → result ≡ Some (record { value = z; len = length (signed_decimal z) }) }
    ensures small { IfSome result (λ n. unsigned_abs n.value < 2 ^ 127) }
    ensures within { IfSome result (λ n. n.len ≤ length bytes.now) }
{
    let len = number_len(bytes);
    let value = parse_wide(&bytes[..len])?;
    Some(Number { value, len })
}

/// The number with this sign.
pub(crate) fn with_sign(is_negative: bool, number: i128) -> i128
    requires { unsigned_abs number < 2 ^ 127 }
    ensures { result ≡ with_sign is_negative number }
{
    if is_negative { -number } else { number }
}

// The number behind a sign of three bytes.
fn behind_sign(is_negative: bool, bytes: &[u8]) -> Option<Number>
    requires { 3 ≤ length bytes.now }
    ensures read { (n : ℕ) (sign more : List ℕ) → n < 2 ^ 127 → length sign ≡ 3 → begins_behind_number more ≡ true → bytes.now ≡ sign ++ decimal n ++ more → result ≡ Some (record { value = with_sign is_negative (pos n); len = 3 + length (decimal n) }) }
    ensures within { IfSome result (λ n. n.len ≤ length bytes.now) }
{
    let number = number_at(&bytes[3..])?;
    Some(Number {
        value: with_sign(is_negative, number.value),
        len: 3 + number.len,
    })
}

/// Whether ` - ` or ` + ` stands in front of the bytes, if one of them does.
pub(crate) fn sign_at(bytes: &[u8]) -> Option<bool>
    ensures read { (k : ℤ) (more : List ℕ) → bytes.now ≡ sign_text k ++ more → result ≡ Some (int_lt k (pos 0)) }
    ensures within { IsSome result → 3 ≤ length bytes.now }
{
    match bytes {
        [b' ', b'-', b' ', ..] => Some(true),
        [b' ', b'+', b' ', ..] => Some(false),
        _ => None,
    }
}

/// The number with its sign in front of the bytes: ` + K` or ` - K`.
pub(crate) fn step_at(bytes: &[u8]) -> Option<Number>
    ensures read { (k : ℤ) (more : List ℕ) → unsigned_abs k < 2 ^ 127 → begins_behind_number more ≡ true → bytes.now ≡ step_text k ++ more → result ≡ Some (record { value = k; len = length (step_text k) }) }
    ensures within { IfSome result (λ n. n.len ≤ length bytes.now) }
{
    behind_sign(sign_at(bytes)?, bytes)
}
