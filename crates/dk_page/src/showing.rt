// Bytes as HTML.
ghost use Rattle.std.specs.Prelude.{◌≡◌, ◌++◌, ◌<◌, OnOk, chars, flat_map};
ghost use Rattle.std.specs.Char.{digit_char};
ghost use Rattle.dk_page.specs.Showing.{is_unseen, numbered, plain_char, shown, shown_byte, shown_char, shown_name, shown_text};

use dk_base::{NoMemory, Text};

fn hexadecimal_digit(digit: u8) -> u8
    requires { digit < 16 }
    ensures { result ≡ digit_char digit }
{
    if digit < 10 {
        b'0' + digit
    } else {
        b'a' - 10 + digit
    }
}

// A byte by its number.
fn push_numbered(text: &mut Text, byte: u8) -> Result<(), NoMemory>
    ensures { OnOk result (text.new ≡ text.old ++ numbered byte) }
{
    text.append(b"<var>\\x")?;
    text.append(&[hexadecimal_digit(byte / 16), hexadecimal_digit(byte % 16)])?;
    text.append(b"</var>")
}

fn push_each_numbered(text: &mut Text, bytes: &[u8]) -> Result<(), NoMemory>
    ensures { OnOk result (text.new ≡ text.old ++ flat_map numbered bytes.now) }
{
    for byte in bytes {
        push_numbered(text, *byte)?;
    }
    Ok(())
}

// Whether a character isn't seen, or turns round what follows.
fn is_unseen(character: char) -> bool
    ensures { result ≡ is_unseen character }
{
    let code = character as u32;
    code <= 0x1f
        || (0x7f <= code && code <= 0x9f)
        || code == 0x61c
        || (0x200b <= code && code <= 0x200f)
        || (0x2028 <= code && code <= 0x202e)
        || (0x2060 <= code && code <= 0x206f)
        || code == 0xfeff
}

// A character, which is none that HTML reads specially.
fn push_plain(text: &mut Text, character: char) -> Result<(), NoMemory>
    ensures { OnOk result (text.new ≡ text.old ++ plain_char character) }
{
    let mut buffer = [0; 4];
    let encoded = character.encode_utf8(&mut buffer);
    if is_unseen(character) {
        push_each_numbered(text, encoded.as_bytes())
    } else {
        text.append(encoded.as_bytes())
    }
}

// A character, where a full stop is written so.
fn push_char(text: &mut Text, stop: &str, character: char) -> Result<(), NoMemory>
    ensures { OnOk result (text.new ≡ text.old ++ shown_char stop.now character) }
{
    if character == '.' {
        text.append(stop.as_bytes())
    } else if character == '&' {
        text.append(b"&amp;")
    } else if character == '<' {
        text.append(b"&lt;")
    } else if character == '>' {
        text.append(b"&gt;")
    } else {
        push_plain(text, character)
    }
}

fn push_chars(text: &mut Text, stop: &str, said: &str) -> Result<(), NoMemory>
    ensures { OnOk result (text.new ≡ text.old ++ flat_map (shown_char stop.now) (chars said.now)) }
{
    for character in said.chars() {
        push_char(text, stop, character)?;
    }
    Ok(())
}

// A byte of what is no UTF-8.
fn push_byte(text: &mut Text, stop: &str, byte: u8) -> Result<(), NoMemory>
    ensures { OnOk result (text.new ≡ text.old ++ shown_byte stop.now byte) }
{
    if byte < 128 {
        push_char(text, stop, char::from(byte))
    } else {
        push_numbered(text, byte)
    }
}

fn push_bytes(text: &mut Text, stop: &str, said: &[u8]) -> Result<(), NoMemory>
    ensures { OnOk result (text.new ≡ text.old ++ flat_map (shown_byte stop.now) said.now) }
{
    for byte in said {
        push_byte(text, stop, *byte)?;
    }
    Ok(())
}

fn push_shown(text: &mut Text, stop: &str, said: &[u8]) -> Result<(), NoMemory>
    ensures { OnOk result (text.new ≡ text.old ++ shown stop.now said.now) }
{
    match std::str::from_utf8(said) {
        Ok(characters) => push_chars(text, stop, characters),
        Err(_) => push_bytes(text, stop, said),
    }
}

/// A line's text, behind what is there.
pub(crate) fn push_text(text: &mut Text, said: &[u8]) -> Result<(), NoMemory>
    ensures { OnOk result (text.new ≡ text.old ++ shown_text said.now) }
{
    push_shown(text, ".", said)
}

/// A point's name, behind what is there.
pub(crate) fn push_name(text: &mut Text, name: &[u8]) -> Result<(), NoMemory>
    ensures { OnOk result (text.new ≡ text.old ++ shown_name name.now) }
{
    push_shown(text, ".<wbr>", name)
}
