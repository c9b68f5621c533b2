// Names as paths.
ghost use Rattle.std.specs.Prelude.{◌≡◌, ◌++◌, ◌==◌, ◌≤◌, ◌∷◌, [], IfOk, OnOk, drop, flat_map, fold, codes, if◌then◌else◌, length, map, not, take};
ghost use Rattle.std.specs.List.{list_all, prefix_len};
ghost use Rattle.dk_base.specs.Shapes.{is_orig, is_sequence};
ghost use Rattle.dk_languages.specs.Bases.Roots.{is_keyword};
ghost use Rattle.dk_languages.specs.Bases.Paths.{after_byte, behind_root, dotted, has_free_words, has_path, inner_name, is_free_path, is_letter, is_path, is_symbol_byte, is_word_byte, old_prefix, path_name, path_text, pointed, root, root_text, size_text, spaced, stem, word_text};

use crate::Language;
use crate::variables::roots::{is_keyword, push_root};
use dk_base::{Form, Kind, NoMemory, Text, VarInfo, words};
use std::alloc::Global;

/// Where a byte of a path may stand.
#[derive(Clone, Copy, Debug, PartialEq, Eq)]
pub enum Place {
    /// Where a word begins.
    Begin,
    /// In a word, or behind one.
    Word,
    /// Behind the `-` of `->`.
    Dash,
    /// Behind what is no path.
    Broken,
}

fn is_letter(byte: u8) -> bool
    ensures { result ≡ is_letter byte }
{
    (b'a' <= byte && byte <= b'z') || (b'A' <= byte && byte <= b'Z') || byte == b'_'
}

fn is_word_byte(byte: u8) -> bool
    ensures { result ≡ is_word_byte byte }
{
    is_letter(byte) || (b'0' <= byte && byte <= b'9')
}

// Behind a byte where a word begins.
fn after_beginning(byte: u8) -> Place
    ensures { result ≡ after_byte Place.Begin byte }
{
    if is_letter(byte) {
        Place::Word
    } else {
        Place::Broken
    }
}

// Behind a byte that stands behind a byte of a word.
fn after_word_byte(byte: u8) -> Place
    ensures { result ≡ after_byte Place.Word byte }
{
    if is_word_byte(byte) {
        Place::Word
    } else if byte == b'.' {
        Place::Begin
    } else if byte == b'-' {
        Place::Dash
    } else {
        Place::Broken
    }
}

fn after(place: Place, byte: u8) -> Place
    ensures { result ≡ after_byte place byte }
{
    match place {
        Place::Begin => after_beginning(byte),
        Place::Word => after_word_byte(byte),
        Place::Dash => {
            if byte == b'>' {
                Place::Begin
            } else {
                Place::Broken
            }
        }
        Place::Broken => Place::Broken,
    }
}

// Where a byte behind the name would stand.
fn behind(name: &[u8]) -> Place
    ensures { result ≡ fold after_byte Place.Begin name.now }
{
    let mut place = Place::Begin;
    for byte in name {
        place = after(place, *byte);
    }
    place
}

fn is_path(name: &[u8]) -> bool
    ensures { result ≡ is_path name.now }
{
    matches!(behind(name), Place::Word)
}

/// Whether it is what a variable had at the entry.
pub(crate) fn is_orig(form: Form) -> bool
    ensures { result ≡ is_orig form }
{
    matches!(form, Form::Orig)
}

/// Whether the values of the kind are sequences.
pub(crate) fn is_sequence(kind: Kind) -> bool
    ensures { result ≡ is_sequence kind }
{
    matches!(
        kind,
        Kind::BoolSeq | Kind::IntSeq | Kind::HashSeq | Kind::StrSeq
    )
}

/// The name; of `orig(N)` it is N.
pub(crate) fn inner_name(info: &VarInfo) -> &[u8]
    ensures { result.now ≡ inner_name info.now }
{
    let name = info.name.as_slice();
    if !is_orig(info.form) {
        return name;
    }
    if name.len() < 6 {
        return b"";
    }
    &name[5..name.len() - 1]
}

// The name without a final `[..]` or `[]`.
fn stem(name: &[u8]) -> &[u8]
    ensures { result.now ≡ stem name.now }
{
    if name.ends_with(b"[..]") {
        &name[..name.len() - 4]
    } else if name.ends_with(b"[]") {
        &name[..name.len() - 2]
    } else {
        name
    }
}

/// The name of which a path is made.
pub(crate) fn path_name(info: &VarInfo) -> &[u8]
    ensures { result.now ≡ path_name info.now }
{
    let name = inner_name(info);
    if is_sequence(info.kind) {
        stem(name)
    } else {
        name
    }
}

// How many bytes of the first word there are.
#[tactic(auto, using(crate::proofs::Words::word_ends, crate::proofs::Words::word_goes_on, crate::proofs::Words::word_stops))]
fn root_len(path: &[u8]) -> usize
    ensures count { result ≡ prefix_len is_word_byte path.now }
    ensures within { result ≤ length path.now }
{
    for (place, byte) in path.iter().enumerate() {
        if !is_word_byte(*byte) {
            return place;
        }
    }
    path.len()
}

/// The first word of a path.
pub(crate) fn root(path: &[u8]) -> &[u8]
    ensures { result.now ≡ root path.now }
{
    &path[..root_len(path)]
}

// What stands behind the first word.
fn behind_root(path: &[u8]) -> &[u8]
    ensures { result.now ≡ behind_root path.now }
{
    &path[root_len(path)..]
}

// The byte, or another one where it is none of a word.
fn word_byte_or(byte: u8, other: u8) -> u8
    ensures { result ≡ (if is_word_byte byte then byte else other) }
{
    if is_word_byte(byte) { byte } else { other }
}

/// The bytes of words, and the other byte for each other one, behind the text.
pub fn push_words(text: &mut Text, bytes: &[u8], other: u8) -> Result<(), NoMemory>
    ensures { OnOk result (text.new ≡ text.old ++ map (λ b. if is_word_byte b then b else other) bytes.now) }
{
    for byte in bytes {
        text.push(word_byte_or(*byte, other))?;
    }
    Ok(())
}

// The text with blanks for all that is no word.
fn spaced(alloc: Global, bytes: &[u8]) -> Result<Text, NoMemory>
    ensures { IfOk result (λ text. text ≡ spaced bytes.now) }
{
    let mut text = Text::new(alloc);
    push_words(&mut text, bytes, b' ')?;
    Ok(text)
}

// Whether no word is a keyword.
fn are_free(language: Language, words: &[&[u8]]) -> bool
    ensures { result ≡ list_all (λ w. not (is_keyword language w)) (map (λ w. w.now) words.now) }
{
    for word in words {
        if is_keyword(language, word) {
            return false;
        }
    }
    true
}

// Whether no word behind the root is a keyword.
fn has_free_words(alloc: Global, language: Language, path: &[u8]) -> Result<bool, NoMemory>
    ensures { IfOk result (λ free. free ≡ has_free_words language path.now) }
{
    let text = spaced(alloc, behind_root(path))?;
    let found = words(alloc, text.as_slice())?;
    Ok(are_free(language, &found))
}

/// Whether it is a byte of a quoted symbol of SMT-LIB.
pub fn is_symbol_byte(byte: u8) -> bool
    ensures { result ≡ is_symbol_byte byte }
{
    32 <= byte && byte != 127 && byte != b'|' && byte != b'\\'
}

fn is_symbol(name: &[u8]) -> bool
    ensures { result ≡ list_all is_symbol_byte name.now }
{
    name.iter().all(|byte| is_symbol_byte(*byte))
}

// Whether the name is a path, and no word behind its root is a keyword.
fn is_free_path(alloc: Global, language: Language, name: &[u8]) -> Result<bool, NoMemory>
    ensures { IfOk result (λ free. free ≡ is_free_path language name.now) }
{
    if !is_path(name) {
        return Ok(false);
    }
    has_free_words(alloc, language, name)
}

/// Whether the language can say the name of a base variable.
pub(crate) fn has_path(alloc: Global, language: Language, info: &VarInfo) -> Result<bool, NoMemory>
    ensures { IfOk result (λ has. has ≡ has_path language info.now) }
{
    match language {
        Language::Python | Language::C => is_free_path(alloc, language, path_name(info)),
        Language::Smtlib => Ok(is_symbol(info.name.as_slice())),
    }
}

// `.` for `->`, and each other byte as it is.
fn push_dotted_byte(text: &mut Text, byte: u8) -> Result<(), NoMemory>
    ensures { OnOk result (text.new ≡ text.old ++ (if byte == 45 then [] else if byte == 62 then 46 ∷ [] else byte ∷ [])) }
{
    if byte == b'-' {
        Ok(())
    } else if byte == b'>' {
        text.push(b'.')
    } else {
        text.push(byte)
    }
}

// The path with `.` for `->`, behind the text.
fn push_dotted(text: &mut Text, path: &[u8]) -> Result<(), NoMemory>
    ensures { OnOk result (text.new ≡ text.old ++ dotted path.now) }
{
    for byte in path {
        push_dotted_byte(text, *byte)?;
    }
    Ok(())
}

// What stands behind the root, with `->` behind `this`.
fn push_pointed(text: &mut Text, path: &[u8]) -> Result<(), NoMemory>
    ensures { OnOk result (text.new ≡ text.old ++ pointed path.now) }
{
    let rest = behind_root(path);
    if root(path) == b"this".as_slice() && rest.starts_with(b".") {
        text.append(b"->")?;
        return text.append(&rest[1..]);
    }
    text.append(rest)
}

// A name as a symbol of SMT-LIB.
fn push_symbol(text: &mut Text, name: &[u8]) -> Result<(), NoMemory>
    ensures { OnOk result (text.new ≡ text.old ++ codes "|$" ++ name.now ++ codes "|") }
{
    text.append(b"|$")?;
    text.append(name)?;
    text.append(b"|")
}

// `old_` for a variable of the entry.
fn push_old(text: &mut Text, info: &VarInfo) -> Result<(), NoMemory>
    ensures { OnOk result (text.new ≡ text.old ++ old_prefix info.now) }
{
    if is_orig(info.form) {
        text.append(b"old_")
    } else {
        Ok(())
    }
}

// A variable's root in Python and C, behind the text.
fn push_word(text: &mut Text, language: Language, info: &VarInfo) -> Result<(), NoMemory>
    ensures { OnOk result (text.new ≡ text.old ++ word_text language info.now) }
{
    push_old(text, info)?;
    push_root(text, language, root(path_name(info)))
}

/// A variable's root in Python and C, or its symbol in SMT-LIB, behind the text.
pub(crate) fn push_root_text(
    text: &mut Text,
    language: Language,
    info: &VarInfo,
) -> Result<(), NoMemory>
    ensures { OnOk result (text.new ≡ text.old ++ root_text language info.now) }
{
    match language {
        Language::Python | Language::C => push_word(text, language, info),
        Language::Smtlib => push_symbol(text, info.name.as_slice()),
    }
}

/// A variable's path, behind the text.
pub(crate) fn push_path(text: &mut Text, language: Language, info: &VarInfo) -> Result<(), NoMemory>
    ensures { OnOk result (text.new ≡ text.old ++ path_text language info.now) }
{
    push_root_text(text, language, info)?;
    match language {
        Language::Python => push_dotted(text, behind_root(path_name(info))),
        Language::C => push_pointed(text, path_name(info)),
        Language::Smtlib => Ok(()),
    }
}

fn push_python_size(text: &mut Text, info: &VarInfo) -> Result<(), NoMemory>
    ensures { OnOk result (text.new ≡ text.old ++ size_text Language.Python info.now) }
{
    text.append(b"len(")?;
    push_path(text, Language::Python, info)?;
    text.append(b")")
}

fn push_c_size(alloc: Global, text: &mut Text, info: &VarInfo) -> Result<(), NoMemory>
    ensures { OnOk result (text.new ≡ text.old ++ size_text Language.C info.now) }
{
    let mut path = Text::new(alloc);
    push_path(&mut path, Language::C, info)?;
    text.append(b"size_")?;
    push_words(text, path.as_slice(), b'_')
}

fn push_smtlib_size(text: &mut Text, info: &VarInfo) -> Result<(), NoMemory>
    ensures { OnOk result (text.new ≡ text.old ++ size_text Language.Smtlib info.now) }
{
    text.append(b"|$size(")?;
    text.append(info.name.as_slice())?;
    text.append(b")|")
}

/// The number of a sequence's elements, behind the text.
pub(crate) fn push_size(
    alloc: Global,
    text: &mut Text,
    language: Language,
    info: &VarInfo,
) -> Result<(), NoMemory>
    ensures { OnOk result (text.new ≡ text.old ++ size_text language info.now) }
{
    match language {
        Language::Python => push_python_size(text, info),
        Language::C => push_c_size(alloc, text, info),
        Language::Smtlib => push_smtlib_size(text, info),
    }
}
