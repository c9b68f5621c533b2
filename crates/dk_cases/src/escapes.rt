// Bytes that are written with escapes.
use dk_base::{NoMemory, Text};
use std::alloc::Global;

// What stands in front of a character.
#[derive(Clone, Copy)]
enum Before {
    Nothing,
    Backslash,
    /// A backslash and an x.
    X,
    /// A backslash, an x and a digit of this value.
    Digit(u32),
}

fn byte_of(first: u32, second: u32) -> u8 {
    ((first % 16) * 16 + second % 16) as u8
}

// Puts what the character behind a backslash stands for behind the bytes, and says what then stands in front of the next one.
fn push_escaped(
    alloc: Global,
    bytes: &mut Text,
    character: u8,
    number: u64,
) -> Result<Before, NoMemory> {
    match character {
        b'n' => bytes.push(b'\n')?,
        b'r' => bytes.push(b'\r')?,
        b't' => bytes.push(b'\t')?,
        b'#' => bytes.append(format!(in alloc; "{number}")?.as_bytes())?,
        b'x' => return Ok(Before::X),
        other => bytes.push(other)?,
    }
    Ok(Before::Nothing)
}

fn digit_of(character: u8) -> u32 {
    char::from(character).to_digit(16).unwrap_or(0)
}

/// Puts the bytes that a text with escapes writes behind the others: `\n`, `\r`, `\t`, `\x` with two hexadecimal digits, `\#` for the number,
/// and a backslash in front of itself.
pub fn push_unescaped(
    alloc: Global,
    bytes: &mut Text,
    text: &str,
    number: u64,
) -> Result<(), NoMemory> {
    let mut before = Before::Nothing;
    for character in text.as_bytes() {
        before = match before {
            Before::Nothing if *character == b'\\' => Before::Backslash,
            Before::Nothing => {
                bytes.push(*character)?;
                Before::Nothing
            }
            Before::Backslash => push_escaped(alloc, bytes, *character, number)?,
            Before::X => Before::Digit(digit_of(*character)),
            Before::Digit(first) => {
                bytes.push(byte_of(first, digit_of(*character)))?;
                Before::Nothing
            }
        };
    }
    Ok(())
}

/// Puts the bytes of the text there so often, with the numbers from 0 on.
pub fn push_repeated(
    alloc: Global,
    bytes: &mut Text,
    text: &str,
    count: u64,
) -> Result<(), NoMemory> {
    for number in 0..count {
        push_unescaped(alloc, bytes, text, number)?;
    }
    Ok(())
}
