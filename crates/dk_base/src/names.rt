// Names and their spelling.
ghost use Rattle.std.specs.Prelude.{◌≡◌, ◌≢◌, ◌↔◌, ◌∷◌, [], ◌<◌, All, length, IfOk, IfSome, IsTrue, MatchOption};
ghost use Rattle.dk_base.specs.Names.{escaped, unescaped};

use crate::{NoMemory, Text};
use std::alloc::Global;

const BLANK: u8 = b' ';

/// The next byte of the name that is spelled, and the spelling that is left.
#[tactic(auto, unfolding(crate::specs::Names::unescaped))]
fn next_byte(text: &[u8]) -> Option<(u8, &[u8])>
    ensures byte { MatchOption result (unescaped text.now ≡ []) (λ r. unescaped text.now ≡ r.0 ∷ unescaped r.1.now) }
    ensures shorter { IfSome result (λ r. length r.1.now < length text.now) }
{
    match text {
        [] => None,
        [byte] => Some((*byte, &[])),
        [b'\\', b'_', rest @ ..] => Some((b' ', rest)),
        [b'\\', b'\\', rest @ ..] => Some((b'\\', rest)),
        [byte, _, ..] => Some((*byte, &text[1..])),
    }
}

/// The name that a spelling means: `\_` stands for a blank and `\\` for a backslash; any other backslash stays.
pub fn unescape(alloc: Global, text: &[u8]) -> Result<Text, NoMemory>
    ensures { IfOk result (λ name. name ≡ unescaped text.now) }
{
    let mut name = Text::new(alloc);
    let mut left = text;
    'bytes: while let Some((byte, rest)) = next_byte(left) {
        name.push(byte)?;
        left = rest;
    }
    Ok(name)
}

/// Whether no byte is a backslash. Then the spelling is the name.
#[tactic(auto, using(crate::proofs::Spellings::plain_without))]
pub fn is_plain(text: &[u8]) -> bool
    ensures { IsTrue result → unescaped text.now ≡ text.now }
{
    !text.contains(&b'\\')
}

// Whether the text is a spelling of the name, byte by byte.
fn is_spelled(text: &[u8], name: &[u8]) -> bool
    ensures { IsTrue result ↔ (unescaped text.now ≡ name.now) }
{
    let mut left = text;
    for expected in name {
        match next_byte(left) {
            None => return false,
            Some((byte, rest)) => {
                if byte != *expected {
                    return false;
                }
                left = rest;
            }
        }
    }
    next_byte(left).is_none()
}

/// Whether the text is a spelling of the name. It takes no memory.
#[tactic(auto, using(crate::proofs::Spellings::as_spelled))]
pub fn is_spelling(text: &[u8], name: &[u8]) -> bool
    ensures { IsTrue result ↔ (unescaped text.now ≡ name.now) }
{
    if text == name && is_plain(text) {
        return true;
    }
    is_spelled(text, name)
}

fn spell_name(alloc: Global, name: &[u8]) -> Result<Text, NoMemory>
    ensures { IfOk result (λ text. text ≡ escaped name.now) }
{
    let mut text = Text::new(alloc);
    for byte in name {
        match *byte {
            b' ' => text.append(b"\\_")?,
            b'\\' => text.append(b"\\\\")?,
            other => text.push(other)?,
        }
    }
    Ok(text)
}

/// The spelling of a name, in which each blank is `\_` and each backslash `\\`. It has no blank, and means the name.
#[tactic(auto, using(crate::proofs::Spellings::unescaped_of_escaped, crate::proofs::Spellings::no_blank_in_escaped))]
pub fn escape(alloc: Global, name: &[u8]) -> Result<Text, NoMemory>
    ensures spelled { IfOk result (λ text. text ≡ escaped name.now) }
    ensures means { IfOk result (λ text. unescaped text ≡ name.now) }
    ensures without_blanks { IfOk result (λ text. All (λ b. b ≢ BLANK) text) }
{
    spell_name(alloc, name)
}
