// Values of cells, behind a text.
ghost use Rattle.std.specs.Prelude.{◌≡◌, ◌++◌, IfOk, OnOk, Some};
ghost use Rattle.dk_base.specs.Numbers.{integer_of};
ghost use Rattle.dk_base.specs.declared.values.Value.TheVariants as value;
ghost use Rattle.dk_table.specs.Columns.{cell_value, written_value};
ghost use Rattle.dk_table.specs.Columns.Cells.{quoted};
ghost use Rattle.dk_table.specs.Writing.Pushing.{Pushes, value_with};

use crate::columns::ColumnKind;
use crate::columns::cells::{
    SURE, TruthWords, decimal, dot_of, is_shortest, is_whole, leads, push_quoted, truth,
};
use crate::writing::tails::Tail;
use dk_base::NoMemory;
use itoa::Buffer;

// The whole number that a cell writes. The cell is how it is printed.
fn push_whole(text: &mut Vec<u8>, cell: &[u8], tail: &Tail) -> Result<bool, NoMemory>
    ensures { IfOk result (Pushes (written_value ColumnKind.Whole cell.now) tail.now text.old.items text.new.items) }
{
    if !is_whole(cell) {
        return Ok(false);
    }
    tail.push_told(text, cell)?;
    Ok(true)
}

// The truth value that a cell writes.
fn push_truth(
    text: &mut Vec<u8>,
    words: TruthWords,
    cell: &[u8],
    tail: &Tail,
) -> Result<bool, NoMemory>
    ensures { IfOk result (Pushes (written_value (ColumnKind.Truth words) cell.now) tail.now text.old.items text.new.items) }
{
    match truth(words, cell) {
        None => return Ok(false),
        Some(true) => tail.push_told(text, b"true")?,
        Some(false) => tail.push_told(text, b"false")?,
    }
    Ok(true)
}

// The number that these digits write, with a minus or without.
fn push_digits(text: &mut Vec<u8>, number: i64, digits: &[u8], tail: &Tail) -> Result<(), NoMemory>
    requires { integer_of digits.now ≡ Some number }
    ensures { OnOk result (text.new.items ≡ text.old.items ++ value_with tail.now (value.Int number)) }
{
    if is_shortest(digits) {
        return tail.push_told(text, digits);
    }
    let mut buffer = Buffer::new();
    tail.push_told(text, buffer.format(number).as_bytes())
}

// The decimal with so many places that a cell writes, whatever leads.
fn push_scaled(
    text: &mut Vec<u8>,
    places: u32,
    cell: &[u8],
    tail: &Tail,
    digits: &mut Vec<u8>,
) -> Result<bool, NoMemory>
    ensures { IfOk result (Pushes (written_value (ColumnKind.Decimal places) cell.now) tail.now text.old.items text.new.items) }
{
    match decimal(places, cell, digits)? {
        None => Ok(false),
        Some(number) => {
            push_digits(text, number, digits.as_slice(), tail)?;
            Ok(true)
        }
    }
}

// The number that digits in front of a dot and behind it write, where the digits are how it is printed.
fn push_joined(text: &mut Vec<u8>, front: &[u8], back: &[u8], tail: &Tail) -> Result<(), NoMemory>
    ensures { OnOk result (text.new.items ≡ text.old.items ++ ((front.now ++ back.now) ++ tail.now.told)) }
{
    text.extend_from_slice(front)?;
    tail.push_told(text, back)
}

// The decimal with so many places that a cell writes. Mostly its digits are how the number is printed.
fn push_decimal(
    text: &mut Vec<u8>,
    places: u32,
    cell: &[u8],
    tail: &Tail,
    digits: &mut Vec<u8>,
) -> Result<bool, NoMemory>
    ensures { IfOk result (Pushes (written_value (ColumnKind.Decimal places) cell.now) tail.now text.old.items text.new.items) }
{
    if cell.len() > SURE {
        return push_scaled(text, places, cell, tail, digits);
    }
    match dot_of(places as usize, cell) {
        None => Ok(false),
        Some(dot) => {
            let front = &cell[..dot];
            if !leads(front) {
                return push_scaled(text, places, cell, tail, digits);
            }
            push_joined(text, front, &cell[dot + 1..], tail)?;
            Ok(true)
        }
    }
}

// A text.
fn push_text(text: &mut Vec<u8>, cell: &[u8], tail: &Tail) -> Result<(), NoMemory>
    ensures { OnOk result (text.new.items ≡ text.old.items ++ value_with tail.now (value.Str (quoted cell.now))) }
{
    push_quoted(text, cell)?;
    tail.push(text)
}

// The value that a cell with bytes writes.
fn push_written(
    text: &mut Vec<u8>,
    kind: ColumnKind,
    cell: &[u8],
    tail: &Tail,
    digits: &mut Vec<u8>,
) -> Result<bool, NoMemory>
    ensures { IfOk result (Pushes (written_value kind cell.now) tail.now text.old.items text.new.items) }
{
    match kind {
        ColumnKind::Whole => push_whole(text, cell, tail),
        ColumnKind::Truth(words) => push_truth(text, words, cell, tail),
        ColumnKind::Decimal(places) => push_decimal(text, places, cell, tail, digits),
        ColumnKind::Text => {
            push_text(text, cell, tail)?;
            Ok(true)
        }
    }
}

/// The value of a cell in a column of this kind, with what follows it: whether the cell fits its column. An empty cell is missing. Where it doesn't
/// fit, the text stays. Digits of decimals are put into `digits`.
pub(crate) fn push_cell(
    text: &mut Vec<u8>,
    kind: ColumnKind,
    cell: &[u8],
    tail: &Tail,
    digits: &mut Vec<u8>,
) -> Result<bool, NoMemory>
    ensures { IfOk result (Pushes (cell_value kind cell.now) tail.now text.old.items text.new.items) }
{
    if cell.is_empty() {
        tail.push_untold(text)?;
        return Ok(true);
    }
    push_written(text, kind, cell, tail, digits)
}
