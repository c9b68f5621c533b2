// Texts that are read as they stand, and the spelling of names.
ghost use Rattle.std.specs.Prelude.{◌≡◌, ◌++◌, OnOk};
ghost use Rattle.dk_base.specs.Names.{escaped, escaped_byte};
ghost use Rattle.dk_write.specs.Names.{has_none, is_line, is_word};

use dk_base::{NoMemory, Text, is_blank};

/// Whether none of the bytes is this one.
pub fn has_none(byte: u8, text: &[u8]) -> bool
    ensures { result ≡ has_none byte text.now }
{
    text.iter().all(|other| *other != byte)
}

/// Whether a text stands as a line, or at the end of one: it has bytes, none of them LF, neither a blank nor a tab at an end, and no CR as
/// the last.
#[tactic(auto, unfolding(crate::specs::Names::is_line))]
pub fn is_line(text: &[u8]) -> bool
    ensures { result ≡ is_line text.now }
{
    match text {
        [] => false,
        [first, ..] => {
            let last = text[text.len() - 1];
            has_none(b'\n', text) && !is_blank(*first) && !is_blank(last) && last != b'\r'
        }
    }
}

/// Whether a text stands as a word of a line: it stands as a line, and has neither blanks nor tabs.
#[tactic(auto, unfolding(crate::specs::Names::is_word))]
pub fn is_word(text: &[u8]) -> bool
    ensures { result ≡ is_word text.now }
{
    is_line(text) && has_none(b' ', text) && has_none(b'\t', text)
}

// A byte of a name, behind the text.
fn push_escaped_byte(text: &mut Text, byte: u8) -> Result<(), NoMemory>
    ensures { OnOk result (text.new ≡ text.old ++ escaped_byte byte) }
{
    match byte {
        b' ' => text.append(b"\\_"),
        b'\\' => text.append(b"\\\\"),
        other => text.push(other),
    }
}

/// The spelling of a name, behind the text: each blank is `\_`, and each backslash is doubled.
pub fn push_escaped(text: &mut Text, name: &[u8]) -> Result<(), NoMemory>
    ensures { OnOk result (text.new ≡ text.old ++ escaped name.now) }
{
    for byte in name {
        push_escaped_byte(text, *byte)?;
    }
    Ok(())
}
