// The values in a text.
ghost use Rattle.std.specs.Prelude.{◌≡◌, ◌==◌, ◌&&◌, ◌∷◌, [], ◌++◌, ◌≤◌, All, IfOk, IfSome, IsSomeAnd, IsTrue, List, OnOk, Some, codes, false, length, map, not, ℕ, ℤ};
ghost use Rattle.std.specs.Fmt.{signed_decimal};
ghost use Rattle.std.specs.List.{join_by, list_all};
ghost use Rattle.dk_base.specs.Numbers.{fits_i64};
ghost use Rattle.dk_print.specs.Parts.{values_text};
ghost use Rattle.dk_expr.specs.Valued.{IsValueText, quoted_end, value_end};

use crate::numbers::{int_in, number_len};
use dk_base::{List, NoMemory, Text};
use dk_template::Few;
use std::alloc::Global;

// What stands behind the word, if the bytes begin with it.
fn behind_word<'a>(bytes: &'a [u8], word: &[u8]) -> Option<&'a [u8]>
    ensures read { (more : List ℕ) → bytes.now ≡ word.now ++ more → IsSomeAnd result (λ rest. rest.now ≡ more) }
    ensures front { IfSome result (λ rest. bytes.now ≡ word.now ++ rest.now) }
{
    bytes.strip_prefix(word)
}

// Whether the byte is the quote that ends a string, where a backslash in front of it may take it with it.
fn closes(is_escaped: bool, byte: u8) -> bool
    ensures { result ≡ (not is_escaped && byte == 34) }
{
    !is_escaped && byte == b'"'
}

// Whether the byte is a backslash that takes the next byte with it.
fn escapes(is_escaped: bool, byte: u8) -> bool
    ensures { result ≡ (not is_escaped && byte == 92) }
{
    !is_escaped && byte == b'\\'
}

// How many bytes there are up to the first quote that no backslash takes with it, the quote included.
fn quoted_len(bytes: &[u8]) -> usize
    ensures value { result ≡ quoted_end false bytes.now }
    ensures within { result ≤ length bytes.now }
{
    let mut is_escaped = false;
    for (i, byte) in bytes.iter().enumerate() {
        if closes(is_escaped, *byte) {
            return i + 1;
        }
        is_escaped = escapes(is_escaped, *byte);
    }
    bytes.len()
}

// How many bytes the value in front takes: a quoted string, or all up to a blank, a comma or a parenthesis.
fn value_len(bytes: &[u8]) -> usize
    ensures value { result ≡ value_end bytes.now }
    ensures within { result ≤ length bytes.now }
{
    match behind_word(bytes, b"\"") {
        Some(rest) => 1 + quoted_len(rest),
        None => number_len(bytes),
    }
}

// The values in front, with commas between them, at most so many of them.
fn push_values(
    alloc: Global,
    bytes: &[u8],
    most: u8,
    values: &mut List<Text>,
) -> Result<(), NoMemory>
    ensures { OnOk result ((texts : List (List ℕ)) → All IsValueText texts → 1 ≤ length texts → length texts ≤ most → bytes.now ≡ join_by (λ t. t) (codes ", ") texts ++ codes " }" → values.new ≡ values.old ++ texts) }
{
    if most == 0 {
        return Ok(());
    }
    let (value, behind) = bytes.split_at(value_len(bytes));
    values.push(Text::from_slice(alloc, value)?)?;
    match behind_word(behind, b", ") {
        Some(rest) => push_values(alloc, rest, most - 1, values),
        None => Ok(()),
    }
}

// A list of one text.
fn list_of_one(alloc: Global, text: &[u8]) -> Result<List<Text>, NoMemory>
    ensures { IfOk result (λ list. list ≡ text.now ∷ []) }
{
    let mut list = List::new(alloc);
    list.push(Text::from_slice(alloc, text)?)?;
    Ok(list)
}

/// The texts of the values: behind ` == `, or between ` one of { ` and ` }`. What is no such text has any values.
pub(crate) fn values_in(alloc: Global, bytes: &[u8]) -> Result<List<Text>, NoMemory>
    ensures { IfOk result (λ values. (texts : List (List ℕ)) → All IsValueText texts → 1 ≤ length texts → length texts ≤ 3 → bytes.now ≡ values_text (λ t. t) texts → values ≡ texts) }
{
    if let Some(value) = behind_word(bytes, b" == ") {
        return list_of_one(alloc, value);
    }
    let mut values = List::new(alloc);
    if let Some(rest) = behind_word(bytes, b" one of { ") {
        push_values(alloc, rest, 3, &mut values)?;
    }
    Ok(values)
}

/// The whole numbers of 64 bits that at most three texts write.
pub(crate) fn ints_of(alloc: Global, texts: &[Text]) -> Option<Few>
    ensures read { (ks : List ℤ) → IsTrue (list_all fits_i64 ks) → length ks ≤ 3 → texts.now ≡ map signed_decimal ks → result ≡ Some ks }
    ensures within { IfSome result (λ ks. IsTrue (list_all fits_i64 ks)) }
{
    let mut ints = [0; 3];
    if ints.len() < texts.len() {
        return None;
    }
    for (place, text) in texts.iter().enumerate() {
        ints[place] = int_in(text.as_slice())?;
    }
    Some(Few::of(alloc, &ints[..texts.len()]))
}
