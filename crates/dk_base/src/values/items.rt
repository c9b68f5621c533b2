// What a text is as a value of a kind that is no sequence.
ghost use Rattle.std.specs.Prelude.{◌≡◌, ◌≤◌, true, false, option_map, unsigned_abs};
ghost use Rattle.dk_base.specs.Numbers.{fits_i64, fits_u64, numeral_of, signed, whole_of};
ghost use Rattle.dk_base.specs.Values.Items.{bool_item, closes_quote, hash_code_of, hash_item, int_item, is_missing_word, is_quoted, is_text, item_in_range, item_map};

use crate::numbers::{numeral, whole};
use crate::sameness::same_bytes;

/// What a text is as an item of some kind.
#[derive(Clone, Copy)]
pub(crate) enum Item<T> {
    /// No text of the kind.
    Bad,
    /// A missing value.
    Missing,
    /// A value.
    Present(T),
}

pub(crate) fn is_missing_word(text: &[u8]) -> bool
    ensures { result ≡ is_missing_word text.now }
{
    same_bytes(text, b"nonsensical") || same_bytes(text, b"uninit") || same_bytes(text, b"missing")
}

#[tactic(auto, unfolding(crate::specs::Values::Items::bool_item))]
pub(crate) fn bool_item(text: &[u8]) -> Item<bool>
    ensures { result ≡ bool_item text.now }
{
    if same_bytes(text, b"true") || same_bytes(text, b"1") {
        Item::Present(true)
    } else if same_bytes(text, b"false") || same_bytes(text, b"0") {
        Item::Present(false)
    } else if is_missing_word(text) {
        Item::Missing
    } else {
        Item::Bad
    }
}

/// What a text that is no number is as a whole number.
#[tactic(auto, unfolding(crate::specs::Values::Items::int_item))]
fn int_word(text: &[u8]) -> Item<i64>
    ensures { item_in_range fits_i64 (whole_of text.now) ≡ Item.Bad → result ≡ int_item text.now }
{
    if is_missing_word(text) {
        Item::Missing
    } else if same_bytes(text, b"true") {
        Item::Present(1)
    } else if same_bytes(text, b"false") {
        Item::Present(0)
    } else {
        Item::Bad
    }
}

pub(crate) fn int_item(text: &[u8]) -> Item<i64>
    ensures { result ≡ int_item text.now }
{
    match whole(text) {
        Item::Bad => int_word(text),
        found => found,
    }
}

fn code_below_zero(digits: &[u8]) -> Item<u64>
    ensures { result ≡ item_map unsigned_abs (item_in_range fits_u64 (option_map (signed true) (numeral_of 10 digits.now))) }
{
    match numeral(10, digits) {
        Item::Bad => Item::Bad,
        Item::Missing => Item::Missing,
        Item::Present(size) => if size == 0 {
            Item::Present(0)
        } else {
            Item::Missing
        },
    }
}

fn code_above_zero(radix: u8, digits: &[u8]) -> Item<u64>
    requires { 1 ≤ radix }
    ensures { result ≡ item_map unsigned_abs (item_in_range fits_u64 (option_map (signed false) (numeral_of radix digits.now))) }
{
    numeral(radix, digits)
}

#[tactic(auto, unfolding(crate::specs::Numbers::whole_of))]
fn whole_code(text: &[u8]) -> Item<u64>
    ensures { result ≡ item_map unsigned_abs (item_in_range fits_u64 (whole_of text.now)) }
{
    match text {
        [] => Item::Bad,
        [b'-', digits @ ..] => code_below_zero(digits),
        [_, ..] => code_above_zero(10, text),
    }
}

#[tactic(auto, unfolding(crate::specs::Values::Items::hash_code_of))]
fn code(text: &[u8]) -> Item<u64>
    ensures { result ≡ item_map unsigned_abs (item_in_range fits_u64 (hash_code_of text.now)) }
{
    match text {
        [] => Item::Bad,
        [_] => whole_code(text),
        [b'0', b'x', digits @ ..] => code_above_zero(16, digits),
        [_, _, ..] => whole_code(text),
    }
}

/// What a text that is no number is as a hash code.
#[tactic(auto, unfolding(crate::specs::Values::Items::hash_item))]
fn hash_word(text: &[u8]) -> Item<u64>
    ensures { item_map unsigned_abs (item_in_range fits_u64 (hash_code_of text.now)) ≡ Item.Bad → result ≡ hash_item text.now }
{
    if same_bytes(text, b"null") {
        Item::Present(0)
    } else if is_missing_word(text) {
        Item::Missing
    } else {
        Item::Bad
    }
}

pub(crate) fn hash_item(text: &[u8]) -> Item<u64>
    ensures { result ≡ hash_item text.now }
{
    match code(text) {
        Item::Bad => hash_word(text),
        found => found,
    }
}

/// Whether the first quote that no backslash takes with it is the last byte, and no byte is an LF.
fn closes_quote(text: &[u8]) -> bool
    ensures { result ≡ closes_quote false text.now }
{
    let mut escaped = false;
    for (i, byte) in text.iter().enumerate() {
        if *byte == b'\n' {
            return false;
        }
        if !escaped && *byte == b'"' {
            return i + 1 == text.len();
        }
        escaped = !escaped && *byte == b'\\';
    }
    false
}

#[tactic(auto, unfolding(crate::specs::Values::Items::is_quoted))]
fn is_quoted(text: &[u8]) -> bool
    ensures { result ≡ is_quoted text.now }
{
    match text {
        [] => false,
        [b'"', rest @ ..] => closes_quote(rest),
        [_, ..] => false,
    }
}

/// Whether the text writes a string: `null`, or a text from `"` to `"` in which a backslash takes the next byte with it
/// and no other `"` and no LF stands. The words for a missing value write none.
#[tactic(auto, unfolding(crate::specs::Values::Items::is_text))]
pub fn is_text(text: &[u8]) -> bool
    ensures { result ≡ is_text text.now }
{
    same_bytes(text, b"null") || is_quoted(text)
}
