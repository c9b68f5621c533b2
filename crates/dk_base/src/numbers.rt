// Whole numbers as text.
ghost use Rattle.std.specs.Prelude.{◌≡◌, ◌+◌, ◌*◌, ◌^◌, ◌<◌, ◌≤◌, option_and_then, option_map, pos, Some, if◌then◌else◌};
ghost use Rattle.std.specs.Char.{digit_value as value_of_digit};
ghost use Rattle.dk_base.specs.Numbers.{fits_i64, in_u64, integer_of, natural_of, negated, numeral_of, short_digits, short_number, signed, whole_of};
ghost use Rattle.dk_base.specs.Values.Items.{item_in_range, item_in_u64};

pub(crate) mod wide;

use crate::values::items::Item;
use core::dec2flt::read_digits;

/// The value of a digit, or 36.
fn digit_value(byte: u8) -> u8
    ensures { result ≡ value_of_digit byte }
{
    match byte {
        b'0'..=b'9' => byte - b'0',
        b'A'..=b'Z' => byte - b'A' + 10,
        b'a'..=b'z' => byte - b'a' + 10,
        _ => 36,
    }
}

fn with_digit(radix: u8, total: Option<u64>, digit: u8) -> Option<u64>
    ensures { result ≡ option_and_then (λ n. in_u64 (n * radix + digit)) total }
{
    match total {
        None => None,
        Some(n) => match n.checked_mul(u64::from(radix)) {
            None => None,
            Some(scaled) => scaled.checked_add(u64::from(digit)),
        },
    }
}

/// The number that the digits write: missing where 64 bits do not hold it, and bad where the text has other bytes or none.
pub(crate) fn numeral(radix: u8, text: &[u8]) -> Item<u64>
    requires { 1 ≤ radix }
    ensures { result ≡ item_in_u64 (numeral_of radix text.now) }
{
    if text.is_empty() {
        return Item::Bad;
    }
    let mut total = Some(0);
    for byte in text {
        let digit = digit_value(*byte);
        if digit >= radix {
            return Item::Bad;
        }
        total = with_digit(radix, total, digit);
    }
    match total {
        None => Item::Missing,
        Some(n) => Item::Present(n),
    }
}

/// The number that up to 18 decimal digits in front write, and what follows them. 64 bits hold each such number.
fn short_digits(bytes: &[u8]) -> Option<(u64, &[u8])>
    ensures { option_map (λ r. (r.0, r.1.now)) result ≡ short_digits bytes.now }
{
    let (len, size) = read_digits(bytes, 0, 0);
    if len == 0 || len > 18 {
        return None;
    }
    Some((size, &bytes[len..]))
}

// A number of this size, less than 10 to 18, with a minus or without.
fn with_sign(is_negative: bool, size: u64) -> i64
    requires { size < 10 ^ 18 }
    ensures { result ≡ (if is_negative then negated size else pos size) }
{
    if is_negative {
        -(size as i64)
    } else {
        size as i64
    }
}

/// The whole number that up to 18 decimal digits with an optional minus in front write, and what follows them; none where no digit stands
/// there, or more than 18. Whether a minus stands there is no branch, since in many traces it can't be foreseen.
#[inline(always)]
#[tactic(auto, unfolding(crate::specs::Numbers::short_number))]
pub fn short_number(bytes: &[u8]) -> Option<(i64, &[u8])>
    ensures { option_map (λ r. (r.0, r.1.now)) result ≡ short_number bytes.now }
{
    match bytes {
        [] => None,
        [first, ..] => {
            let is_negative = *first == b'-';
            match short_digits(&bytes[usize::from(is_negative)..]) {
                Some((size, rest)) => Some((with_sign(is_negative, size), rest)),
                None => None,
            }
        }
    }
}

fn number_of_sign(is_negative: bool, size: u64) -> Item<i64>
    ensures { result ≡ item_in_range fits_i64 (Some (signed is_negative size)) }
{
    const LIMIT: u64 = 1 << 63;
    if is_negative {
        if size <= LIMIT {
            Item::Present((-(size as i128)) as i64)
        } else {
            Item::Missing
        }
    } else if size < LIMIT {
        Item::Present(size as i64)
    } else {
        Item::Missing
    }
}

fn signed_numeral(is_negative: bool, text: &[u8]) -> Item<i64>
    ensures { result ≡ item_in_range fits_i64 (option_map (signed is_negative) (numeral_of 10 text.now)) }
{
    match numeral(10, text) {
        Item::Bad => Item::Bad,
        Item::Missing => Item::Missing,
        Item::Present(size) => number_of_sign(is_negative, size),
    }
}

/// What `whole` says of any text.
#[tactic(auto, unfolding(crate::specs::Numbers::whole_of))]
fn any_whole(text: &[u8]) -> Item<i64>
    ensures { result ≡ item_in_range fits_i64 (whole_of text.now) }
{
    match text {
        [] => Item::Bad,
        [b'-', digits @ ..] => signed_numeral(true, digits),
        [_, ..] => signed_numeral(false, text),
    }
}

/// The number that decimal digits with an optional minus write: missing where 64 bits do not hold it, and bad where the text is none.
pub(crate) fn whole(text: &[u8]) -> Item<i64>
    ensures { result ≡ item_in_range fits_i64 (whole_of text.now) }
{
    match short_number(text) {
        Some((number, [])) => Item::Present(number),
        _ => any_whole(text),
    }
}

/// The number of 64 bits that decimal digits with an optional minus write, or none where the text is no such number.
#[tactic(auto, unfolding(crate::specs::Numbers::integer_of))]
pub fn parse_integer(text: &[u8]) -> Option<i64>
    ensures { result ≡ integer_of text.now }
{
    match whole(text) {
        Item::Present(number) => Some(number),
        Item::Bad => None,
        Item::Missing => None,
    }
}

/// The number of 64 bits that decimal digits write, or none where the text is no such number.
#[tactic(auto, unfolding(crate::specs::Numbers::natural_of))]
pub fn parse_natural(text: &[u8]) -> Option<u64>
    ensures { result ≡ natural_of text.now }
{
    match numeral(10, text) {
        Item::Present(number) => Some(number),
        Item::Bad => None,
        Item::Missing => None,
    }
}
