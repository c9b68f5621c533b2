// Numbers in a state, and their texts.
ghost use Rattle.std.specs.Prelude.{◌≡◌, ◌++◌, OnOk, pos, slice_index_or};
ghost use Rattle.dk_languages.specs.Literals.Numbers.{minus_of, number_in, number_text, wide_text};

use crate::Language;
use dk_base::{NoMemory, Text};
use dk_template::State;

// The number at a place, or 0 behind the last.
fn number_at(numbers: &[i128], place: usize) -> i128
    ensures { result ≡ slice_index_or numbers.now place (pos 0) }
{
    numbers.get(place).copied().unwrap_or(0)
}

/// The number of the state at this place, or 0 where it has none.
pub(crate) fn number_in(state: &State, place: usize) -> i128
    ensures { result ≡ number_in state.now place }
{
    match state {
        State::Least(number) | State::Greatest(number) => {
            number_at(&[i128::from(*number)], place)
        }
        State::Modulus { m, r } => number_at(&[i128::from(*m), i128::from(*r)], place),
        State::Straight { a, b, c } => number_at(&[*a, *b, *c], place),
        State::Plane { a, b, c, d } => number_at(&[*a, *b, *c, *d], place),
        State::Offset { k } => number_at(&[*k], place),
        _ => 0,
    }
}

// A minus where the number is below 0, behind the text.
fn push_minus(text: &mut Text, number: i128) -> Result<(), NoMemory>
    ensures { OnOk result (text.new ≡ text.old ++ minus_of number) }
{
    if number < 0 {
        text.append(b"-")
    } else {
        Ok(())
    }
}

// The two halves of a number, behind the text.
fn push_wide(text: &mut Text, number: i128) -> Result<(), NoMemory>
    ensures { OnOk result (text.new ≡ text.old ++ wide_text number) }
{
    let size = number.unsigned_abs();
    push_minus(text, number)?;
    text.append(b"dk_wide(")?;
    text.append_number(size / (1 << 64))?;
    text.append(b"u, ")?;
    text.append_number(size % (1 << 64))?;
    text.append(b"u)")
}

// The number in C, behind the text.
fn push_c_number(text: &mut Text, number: i128) -> Result<(), NoMemory>
    ensures { OnOk result (text.new ≡ text.old ++ number_text Language.C number) }
{
    if number.unsigned_abs() < 1 << 63 {
        text.append_number(number)
    } else {
        push_wide(text, number)
    }
}

// The number in SMT-LIB, behind the text.
fn push_smtlib_number(text: &mut Text, number: i128) -> Result<(), NoMemory>
    ensures { OnOk result (text.new ≡ text.old ++ number_text Language.Smtlib number) }
{
    if number >= 0 {
        return text.append_number(number);
    }
    text.append(b"(- ")?;
    text.append_number(number.unsigned_abs())?;
    text.append(b")")
}

/// The number in the language, behind the text.
pub(crate) fn push_number(text: &mut Text, language: Language, number: i128) -> Result<(), NoMemory>
    ensures { OnOk result (text.new ≡ text.old ++ number_text language number) }
{
    match language {
        Language::Python => text.append_number(number),
        Language::C => push_c_number(text, number),
        Language::Smtlib => push_smtlib_number(text, number),
    }
}
