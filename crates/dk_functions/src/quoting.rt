// Texts of a report in comments and strings.
ghost use Rattle.std.specs.Prelude.{◌≡◌, ◌++◌, OnOk, flat_map};
ghost use Rattle.dk_functions.specs.Quoting.{is_plain_byte, quoted, quoted_byte};

use dk_base::{NoMemory, Text};
use dk_languages::push_octal;

fn is_plain_byte(byte: u8) -> bool
    ensures { result ≡ is_plain_byte byte }
{
    32 <= byte && byte < 127 && byte != b'"' && byte != b'\\' && byte != b'?'
}

fn push_byte(text: &mut Text, byte: u8) -> Result<(), NoMemory>
    ensures { OnOk result (text.new ≡ text.old ++ quoted_byte byte) }
{
    if is_plain_byte(byte) {
        text.push(byte)
    } else {
        push_octal(text, byte)
    }
}

fn push_bytes(text: &mut Text, bytes: &[u8]) -> Result<(), NoMemory>
    ensures { OnOk result (text.new ≡ text.old ++ flat_map quoted_byte bytes.now) }
{
    for byte in bytes {
        push_byte(text, *byte)?;
    }
    Ok(())
}

/// The bytes as a string of Python and C, behind the text.
pub(crate) fn push_quoted(text: &mut Text, bytes: &[u8]) -> Result<(), NoMemory>
    ensures { OnOk result (text.new ≡ text.old ++ quoted bytes.now) }
{
    text.append(b"\"")?;
    push_bytes(text, bytes)?;
    text.append(b"\"")
}
