// What a cell writes.
ghost use Rattle.std.specs.Prelude.{◌≡◌, ◌<◌, ◌++◌, IfOk, IfSome, IsTrue, List, OnOk, Some, flat_map, is_some, length, true, ℕ};
ghost use Rattle.std.specs.Char.{is_ascii_digit};
ghost use Rattle.std.specs.List.{list_all};
ghost use Rattle.dk_base.specs.Numbers.{integer_of};
ghost use Rattle.dk_table.specs.Columns.Cells.{decimal_of, dot_of, is_dot, is_front, is_plain, is_shortest, no, quoted, quoted_byte, size_of, truth, whole, yes};

use dk_base::{NoMemory, parse_integer, same_bytes};

/// So many digits always write a number within 64 bits.
pub(crate) const SURE: usize = 18;

/// A spelling of the two truth values.
#[derive(Clone, Copy, Debug, PartialEq, Eq)]
pub enum TruthWords {
    /// `true` and `false`.
    Lower,
    /// `True` and `False`.
    Title,
    /// `TRUE` and `FALSE`.
    Upper,
}

/// Whether no zero leads but in `0` alone, neither in front nor behind a minus: of the texts that write a whole number, this is the shortest.
pub(crate) fn is_shortest(text: &[u8]) -> bool
    ensures { result ≡ is_shortest text.now }
{
    match text {
        [first, second, ..] => !(*first == b'0' || (*first == b'-' && *second == b'0')),
        _ => true,
    }
}

// What stands behind a text's minus, or the whole text where none leads.
fn size_of(text: &[u8]) -> &[u8]
    ensures { result.now ≡ size_of text.now }
{
    match text {
        [b'-', size @ ..] => size,
        _ => text,
    }
}

fn are_digits(text: &[u8]) -> bool
    ensures { result ≡ list_all is_ascii_digit text.now }
{
    text.iter().all(|byte| byte.is_ascii_digit())
}

// Whether decimal digits, with a minus or without, write a number within 64 bits.
fn is_integer(text: &[u8]) -> bool
    ensures { result ≡ is_some (integer_of text.now) }
{
    if text.len() > SURE {
        return parse_integer(text).is_some();
    }
    let size = size_of(text);
    !size.is_empty() && are_digits(size)
}

/// Whether the cell writes a whole number as numbers are printed: decimal digits without leading zeros, with a minus where it is below zero,
/// within 64 bits.
pub(crate) fn is_whole(cell: &[u8]) -> bool
    ensures { result ≡ is_some (whole cell.now) }
{
    is_shortest(cell) && is_integer(cell)
}

fn yes(words: TruthWords) -> &'static [u8]
    ensures { result.now ≡ yes words }
{
    match words {
        TruthWords::Lower => b"true",
        TruthWords::Title => b"True",
        TruthWords::Upper => b"TRUE",
    }
}

fn no(words: TruthWords) -> &'static [u8]
    ensures { result.now ≡ no words }
{
    match words {
        TruthWords::Lower => b"false",
        TruthWords::Title => b"False",
        TruthWords::Upper => b"FALSE",
    }
}

/// The truth value that the cell writes in this spelling.
#[tactic(auto, unfolding(crate::specs::Columns::Cells::truth))]
pub(crate) fn truth(words: TruthWords, cell: &[u8]) -> Option<bool>
    ensures { result ≡ truth words cell.now }
{
    if same_bytes(cell, yes(words)) {
        Some(true)
    } else if same_bytes(cell, no(words)) {
        Some(false)
    } else {
        None
    }
}

// Whether the bytes in front of a dot are a whole number as it is printed, or `-0`.
#[tactic(auto, unfolding(crate::specs::Columns::Cells::is_front))]
fn is_front(front: &[u8]) -> bool
    ensures { result ≡ is_front front.now }
{
    is_whole(front) || same_bytes(front, b"-0")
}

// Whether the byte at this place is the dot of a decimal.
#[tactic(auto, unfolding(crate::specs::Columns::Cells::is_dot))]
fn is_dot(cell: &[u8], dot: usize) -> bool
    requires { dot < length cell.now }
    ensures { result ≡ is_dot cell.now dot }
{
    cell[dot] == b'.' && is_front(&cell[..dot]) && are_digits(&cell[dot + 1..])
}

/// Where the dot of a decimal with so many places stands.
#[tactic(auto, unfolding(crate::specs::Columns::Cells::dot_of))]
pub(crate) fn dot_of(places: usize, cell: &[u8]) -> Option<usize>
    ensures dot { result ≡ dot_of places cell.now }
    ensures within { IfSome result (λ dot. dot < length cell.now) }
{
    if places >= cell.len() {
        return None;
    }
    let dot = cell.len() - places - 1;
    if is_dot(cell, dot) { Some(dot) } else { None }
}

/// The decimal with so many places that the cell writes, times 10 to their number, within 64 bits. Its digits are put into `digits`, with its minus.
#[tactic(auto, unfolding(crate::specs::Columns::Cells::decimal_of))]
pub(crate) fn decimal(
    places: u32,
    cell: &[u8],
    digits: &mut Vec<u8>,
) -> Result<Option<i64>, NoMemory>
    ensures value { IfOk result (λ number. number ≡ decimal_of places cell.now) }
    ensures digits { IfOk result (λ number. IfSome number (λ z. integer_of digits.new.items ≡ Some z)) }
{
    match dot_of(places as usize, cell) {
        None => Ok(None),
        Some(dot) => {
            digits.clear();
            digits.extend_from_slice(&cell[..dot])?;
            digits.extend_from_slice(&cell[dot + 1..])?;
            Ok(parse_integer(digits.as_slice()))
        }
    }
}

/// Whether the cell writes a decimal with so many places that is within 64 bits, times 10 to their number. Its digits are put into `digits` where
/// they are many.
pub(crate) fn is_decimal(places: u32, cell: &[u8], digits: &mut Vec<u8>) -> Result<bool, NoMemory>
    ensures { IfOk result (λ is. is ≡ is_some (decimal_of places cell.now)) }
{
    if cell.len() > SURE {
        return Ok(decimal(places, cell, digits)?.is_some());
    }
    Ok(dot_of(places as usize, cell).is_some())
}

/// Whether neither `0` leads nor a minus and `0`. Where none does, no zero leads with more digits behind.
pub(crate) fn leads(front: &[u8]) -> bool
    ensures { IsTrue result → (back : List ℕ) → is_shortest (front.now ++ back) ≡ true }
{
    match front {
        [b'-', second, ..] => *second != b'0',
        [first, _, ..] => *first != b'0',
        [first] => *first != b'0' && *first != b'-',
        [] => false,
    }
}

// Whether a text between quotes has this byte as it stands.
fn is_plain(byte: u8) -> bool
    ensures { result ≡ is_plain byte }
{
    byte > b'\\' || !matches!(byte, b'"' | b'\\' | b'\n' | b'\r' | b'\t')
}

// A byte of a text between quotes.
fn push_quoted_byte(text: &mut Vec<u8>, byte: u8) -> Result<(), NoMemory>
    ensures { OnOk result (text.new.items ≡ text.old.items ++ quoted_byte byte) }
{
    match byte {
        b'"' => text.extend_from_slice(b"\\\"")?,
        b'\\' => text.extend_from_slice(b"\\\\")?,
        b'\n' => text.extend_from_slice(b"\\n")?,
        b'\r' => text.extend_from_slice(b"\\r")?,
        b'\t' => text.extend_from_slice(b"\\t")?,
        other => text.push(other)?,
    }
    Ok(())
}

fn push_quoted_bytes(text: &mut Vec<u8>, cell: &[u8]) -> Result<(), NoMemory>
    ensures { OnOk result (text.new.items ≡ text.old.items ++ flat_map quoted_byte cell.now) }
{
    for byte in cell {
        push_quoted_byte(text, *byte)?;
    }
    Ok(())
}

// Whether a text between quotes has these bytes as they stand.
fn are_plain(cell: &[u8]) -> bool
    ensures { result ≡ list_all is_plain cell.now }
{
    cell.iter().all(|byte| is_plain(*byte))
}

// The bytes of a text between quotes.
fn push_inside(text: &mut Vec<u8>, cell: &[u8]) -> Result<(), NoMemory>
    ensures { OnOk result (text.new.items ≡ text.old.items ++ flat_map quoted_byte cell.now) }
{
    if are_plain(cell) {
        text.extend_from_slice(cell)?;
        return Ok(());
    }
    push_quoted_bytes(text, cell)
}

/// The cell between quotes, behind the text. Different cells have different texts.
#[tactic(auto, unfolding(crate::specs::Columns::Cells::quoted))]
pub(crate) fn push_quoted(text: &mut Vec<u8>, cell: &[u8]) -> Result<(), NoMemory>
    ensures { OnOk result (text.new.items ≡ text.old.items ++ quoted cell.now) }
{
    text.push(b'"')?;
    push_inside(text, cell)?;
    text.push(b'"')?;
    Ok(())
}
