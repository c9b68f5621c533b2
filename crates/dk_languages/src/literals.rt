// Values as literals.
ghost use Rattle.std.specs.Prelude.{◌≡◌, ◌<◌, ◌++◌, IfOk, OnOk, false, flat_map, ℕ, List, map};
ghost use Rattle.std.specs.Fmt.{digit_glyph, digits};
ghost use Rattle.std.specs.List.{join_by, list_all};
ghost use Rattle.dk_languages.specs.Literals.{c_byte, can_say, has_string, is_ascii_text, is_null, literals, octal, python_byte, python_string, smtlib_byte, string_text, truth_text};
ghost use Rattle.dk_languages.specs.Literals.Numbers.{number_text};

mod escapes;
pub(crate) mod numbers;

use crate::Language;
use crate::literals::escapes::has_known_escapes;
use crate::literals::numbers::push_number;
use dk_base::{NoMemory, Text};
use dk_template::State;

fn truth_text(language: Language, truth: bool) -> &'static str
    ensures { result.now ≡ truth_text language truth }
{
    match language {
        Language::Python => { if truth { "True" } else { "False" } }
        Language::C | Language::Smtlib => { if truth { "true" } else { "false" } }
    }
}

fn is_null(text: &[u8]) -> bool
    ensures { result ≡ is_null text.now }
{
    text == b"null".as_slice()
}

fn is_ascii_text(text: &[u8]) -> bool
    ensures { result ≡ is_ascii_text text.now }
{
    text.iter().all(|byte| *byte < 128)
}

/// A backslash and the byte's three octal digits, behind the text.
pub fn push_octal(text: &mut Text, byte: u8) -> Result<(), NoMemory>
    ensures { OnOk result (text.new ≡ text.old ++ octal byte) }
{
    text.append(&[
        b'\\',
        b'0' + byte / 64,
        b'0' + byte / 8 % 8,
        b'0' + byte % 8,
    ])
}

fn push_python_byte(text: &mut Text, byte: u8) -> Result<(), NoMemory>
    ensures { OnOk result (text.new ≡ text.old ++ python_byte byte) }
{
    if byte < 128 {
        text.push(byte)
    } else {
        push_octal(text, byte)
    }
}

fn push_python_bytes(text: &mut Text, bytes: &[u8]) -> Result<(), NoMemory>
    ensures { OnOk result (text.new ≡ text.old ++ flat_map python_byte bytes.now) }
{
    for byte in bytes {
        push_python_byte(text, *byte)?;
    }
    Ok(())
}

fn push_python_string(text: &mut Text, bytes: &[u8]) -> Result<(), NoMemory>
    ensures { OnOk result (text.new ≡ text.old ++ python_string bytes.now) }
{
    if is_ascii_text(bytes) {
        return text.append(bytes);
    }
    text.append(b"b")?;
    push_python_bytes(text, bytes)?;
    text.append(b".decode(\"utf-8\", \"surrogateescape\")")
}

fn push_c_byte(text: &mut Text, byte: u8) -> Result<(), NoMemory>
    ensures { OnOk result (text.new ≡ text.old ++ c_byte byte) }
{
    if byte == b'?' {
        text.append(b"\\?")
    } else {
        text.push(byte)
    }
}

fn push_c_bytes(text: &mut Text, bytes: &[u8]) -> Result<(), NoMemory>
    ensures { OnOk result (text.new ≡ text.old ++ flat_map c_byte bytes.now) }
{
    for byte in bytes {
        push_c_byte(text, *byte)?;
    }
    Ok(())
}

fn hexadecimal_digit(digit: u8) -> u8
    requires { digit < 16 }
    ensures { result ≡ digit_glyph false digit }
{
    if digit < 10 {
        b'0' + digit
    } else {
        b'a' - 10 + digit
    }
}

// The hexadecimal digits of a byte, without a leading zero.
#[tactic(auto, using(std::proofs::lemmas::Fmt::hex_one_digit, std::proofs::lemmas::Fmt::hex_two_digits))]
fn push_hexadecimal(text: &mut Text, byte: u8) -> Result<(), NoMemory>
    ensures { OnOk result (text.new ≡ text.old ++ digits 16 false byte) }
{
    if byte < 16 {
        return text.push(hexadecimal_digit(byte));
    }
    text.append(&[hexadecimal_digit(byte / 16), hexadecimal_digit(byte % 16)])
}

fn push_smtlib_byte(text: &mut Text, byte: u8) -> Result<(), NoMemory>
    ensures { OnOk result (text.new ≡ text.old ++ smtlib_byte byte) }
{
    if byte == b'"' {
        return text.append(b"\"\"");
    }
    if 32 <= byte && byte < 127 && byte != b'\\' {
        return text.push(byte);
    }
    text.append(b"\\u{")?;
    push_hexadecimal(text, byte)?;
    text.append(b"}")
}

fn push_smtlib_bytes(text: &mut Text, bytes: &[u8]) -> Result<(), NoMemory>
    ensures { OnOk result (text.new ≡ text.old ++ flat_map smtlib_byte bytes.now) }
{
    for byte in bytes {
        push_smtlib_byte(text, *byte)?;
    }
    Ok(())
}

fn push_smtlib_string(text: &mut Text, bytes: &[u8]) -> Result<(), NoMemory>
    ensures { OnOk result (text.new ≡ text.old ++ string_text Language.Smtlib bytes.now) }
{
    text.append(b"\"")?;
    push_smtlib_bytes(text, bytes)?;
    text.append(b"\"")
}

// The string in the language, behind the text.
fn push_string(text: &mut Text, language: Language, bytes: &[u8]) -> Result<(), NoMemory>
    ensures { OnOk result (text.new ≡ text.old ++ string_text language bytes.now) }
{
    match language {
        Language::Python => {
            if is_null(bytes) {
                text.append(b"None")
            } else {
                push_python_string(text, bytes)
            }
        }
        Language::C => {
            if is_null(bytes) {
                text.append(b"0")
            } else {
                push_c_bytes(text, bytes)
            }
        }
        Language::Smtlib => push_smtlib_string(text, bytes),
    }
}

/// What has a literal in each language.
pub(crate) trait Literal {
    ghost use Rattle.dk_languages.specs.declared.languages.Language.{Language};

    ghost literal_of: { Language → Self → List ℕ };

    fn push_to(&self, text: &mut Text, language: Language) -> Result<(), NoMemory>
        ensures { OnOk result (text.new ≡ text.old ++ literal_of language self.now) };
}

impl Literal for i64 {
    ghost literal_of = { number_text };

    fn push_to(&self, text: &mut Text, language: Language) -> Result<(), NoMemory> {
        push_number(text, language, i128::from(*self))
    }
}

impl Literal for bool {
    ghost literal_of = { truth_text };

    fn push_to(&self, text: &mut Text, language: Language) -> Result<(), NoMemory> {
        text.append(truth_text(language, *self).as_bytes())
    }
}

impl Literal for Text {
    ghost literal_of = { string_text };

    fn push_to(&self, text: &mut Text, language: Language) -> Result<(), NoMemory> {
        push_string(text, language, self.as_slice())
    }
}

// Whether the language has the string.
fn has_string(language: Language, bytes: &[u8]) -> bool
    ensures { result ≡ has_string language bytes.now }
{
    match language {
        Language::Python | Language::C => has_known_escapes(bytes),
        Language::Smtlib => true,
    }
}

// Whether the language has all of the strings.
fn has_strings(language: Language, texts: &[Text]) -> bool
    ensures { result ≡ list_all (has_string language) texts.now }
{
    for text in texts {
        if !has_string(language, text.as_slice()) {
            return false;
        }
    }
    true
}

/// Whether the language can say what the state knows.
pub(crate) fn can_say(language: Language, state: &State) -> bool
    ensures { result ≡ can_say language state.now }
{
    match state {
        State::Empty | State::Broken | State::One(_) | State::Spot { .. } | State::Span { .. } => {
            false
        }
        State::Code(code) => *code == 0,
        State::Texts(texts) => has_strings(language, texts.as_slice()),
        _ => true,
    }
}
