// The first word of a path in Python and C.
ghost use Rattle.std.specs.Prelude.{◌≡◌, ◌++◌, OnOk, map};
ghost use Rattle.dk_languages.specs.Bases.Roots.{c_keywords, is_keyword, is_one_of, is_taken, python_keywords, python_names, told_root};

use crate::Language;
use dk_base::{NoMemory, Text};

const PYTHON_KEYWORDS: &[&str] = &[
    "False", "None", "True", "and", "as", "assert", "async", "await", "break", "class", "continue",
    "def", "del", "elif", "else", "except", "finally", "for", "from", "global", "if", "import",
    "in", "is", "lambda", "nonlocal", "not", "or", "pass", "raise", "return", "try", "while",
    "with", "yield",
];

const C_KEYWORDS: &[&str] = &[
    "alignas",
    "alignof",
    "asm",
    "auto",
    "bool",
    "break",
    "case",
    "char",
    "const",
    "constexpr",
    "continue",
    "default",
    "do",
    "double",
    "else",
    "enum",
    "extern",
    "false",
    "float",
    "for",
    "goto",
    "if",
    "inline",
    "int",
    "long",
    "nullptr",
    "register",
    "restrict",
    "return",
    "short",
    "signed",
    "sizeof",
    "static",
    "static_assert",
    "struct",
    "switch",
    "thread_local",
    "true",
    "typedef",
    "typeof",
    "typeof_unqual",
    "union",
    "unsigned",
    "void",
    "volatile",
    "while",
];

// Names that the rows use in Python.
const PYTHON_NAMES: &[&str] = &[
    "abs",
    "all",
    "any",
    "element",
    "following",
    "gcd",
    "len",
    "max",
    "min",
    "partner",
    "reversed",
    "zip",
];

fn python_keywords() -> &'static [&'static str]
    ensures { map (λ word. word.now) result.now ≡ python_keywords }
{
    PYTHON_KEYWORDS
}

fn c_keywords() -> &'static [&'static str]
    ensures { map (λ word. word.now) result.now ≡ c_keywords }
{
    C_KEYWORDS
}

fn python_names() -> &'static [&'static str]
    ensures { map (λ word. word.now) result.now ≡ python_names }
{
    PYTHON_NAMES
}

// Whether the word is one of these.
fn is_one_of(words: &[&str], word: &[u8]) -> bool
    ensures { result ≡ is_one_of (map (λ w. w.now) words.now) word.now }
{
    for other in words {
        if word == other.as_bytes() {
            return true;
        }
    }
    false
}

/// Whether the word is a keyword of the language.
pub(crate) fn is_keyword(language: Language, word: &[u8]) -> bool
    ensures { result ≡ is_keyword language word.now }
{
    match language {
        Language::Python => is_one_of(python_keywords(), word),
        Language::C => is_one_of(c_keywords(), word),
        Language::Smtlib => false,
    }
}

// Whether the word has another meaning in the language, or may have one in what is told.
fn is_taken(language: Language, word: &[u8]) -> bool
    ensures { result ≡ is_taken language word.now }
{
    if is_keyword(language, word) {
        return true;
    }
    match language {
        Language::Python => is_one_of(python_names(), word),
        Language::C | Language::Smtlib => word.starts_with(b"dk_"),
    }
}

/// The first word of a path in the language, behind the text.
pub(crate) fn push_root(text: &mut Text, language: Language, root: &[u8]) -> Result<(), NoMemory>
    ensures { OnOk result (text.new ≡ text.old ++ told_root language root.now) }
{
    if root == b"this".as_slice() {
        return text.append(b"self");
    }
    if root == b"return".as_slice() {
        return text.append(b"result");
    }
    text.append(root)?;
    if is_taken(language, root) {
        return text.append(b"_");
    }
    Ok(())
}
