// The function of a point.
ghost use Rattle.std.specs.Prelude.{◌≡◌, ◌++◌, OnOk, map};
ghost use Rattle.dk_functions.specs.Functions.{assertion, closing, comment, function_name, mark, opening, preamble, smtlib_head, symbol_byte};

use crate::parameters::push_parameters;
use crate::quoting::push_quoted;
use dk_base::{NoMemory, Text, VarInfo};
use dk_languages::{Language, is_symbol_byte, push_words};
use std::alloc::Global;

/// What stands in front of all functions.
pub fn preamble(language: Language) -> &'static str
    ensures { result.now ≡ preamble language }
{
    match language {
        Language::Python => "from math import gcd\n\n\n",
        Language::C => "#include \"dk_told.h\"\n\n",
        Language::Smtlib => {
            "(define-fun-rec dk_gcd ((a Int) (b Int)) Int (ite (= b 0) a (dk_gcd b (mod a b))))\n\n"
        }
    }
}

// A byte of a quoted symbol, or a low line.
fn symbol_byte(byte: u8) -> u8
    ensures { result ≡ symbol_byte byte }
{
    if is_symbol_byte(byte) { byte } else { b'_' }
}

fn push_symbol_bytes(text: &mut Text, bytes: &[u8]) -> Result<(), NoMemory>
    ensures { OnOk result (text.new ≡ text.old ++ map symbol_byte bytes.now) }
{
    for byte in bytes {
        text.push(symbol_byte(*byte))?;
    }
    Ok(())
}

// The name of the point's function as a word.
fn push_word_name(text: &mut Text, point: &[u8]) -> Result<(), NoMemory>
    ensures python { OnOk result (text.new ≡ text.old ++ function_name Language.Python point.now) }
    ensures c { OnOk result (text.new ≡ text.old ++ function_name Language.C point.now) }
{
    text.append(b"holds_at_")?;
    push_words(text, point, b'_')
}

// The name of the point's function as a quoted symbol.
fn push_symbol_name(text: &mut Text, point: &[u8]) -> Result<(), NoMemory>
    ensures { OnOk result (text.new ≡ text.old ++ function_name Language.Smtlib point.now) }
{
    text.append(b"|holds at ")?;
    push_symbol_bytes(text, point)?;
    text.append(b"|")
}

fn push_python_opening(
    alloc: Global,
    text: &mut Text,
    infos: &[VarInfo],
    point: &[u8],
) -> Result<(), NoMemory>
    ensures { OnOk result (text.new ≡ text.old ++ opening Language.Python infos.now point.now) }
{
    text.append(b"def ")?;
    push_word_name(text, point)?;
    text.append(b"(")?;
    push_parameters(alloc, text, Language::Python, infos, ", ")?;
    text.append(b"):\n    ")?;
    push_quoted(text, point)?;
    text.append(b"\n")
}

fn push_c_opening(
    alloc: Global,
    text: &mut Text,
    infos: &[VarInfo],
    point: &[u8],
) -> Result<(), NoMemory>
    ensures { OnOk result (text.new ≡ text.old ++ opening Language.C infos.now point.now) }
{
    text.append(b"// ")?;
    push_quoted(text, point)?;
    text.append(b", of ")?;
    push_parameters(alloc, text, Language::C, infos, ", ")?;
    text.append(b"\n#define ")?;
    push_word_name(text, point)?;
    text.append(b"() do { \\\n")
}

// Where a function of SMT-LIB begins, up to its parameters.
fn push_smtlib_head(text: &mut Text, point: &[u8]) -> Result<(), NoMemory>
    ensures { OnOk result (text.new ≡ text.old ++ smtlib_head point.now) }
{
    text.append(b"; ")?;
    push_quoted(text, point)?;
    text.append(b"\n(define-fun ")?;
    push_symbol_name(text, point)?;
    text.append(b" (")
}

fn push_smtlib_opening(
    alloc: Global,
    text: &mut Text,
    infos: &[VarInfo],
    point: &[u8],
) -> Result<(), NoMemory>
    ensures { OnOk result (text.new ≡ text.old ++ opening Language.Smtlib infos.now point.now) }
{
    push_smtlib_head(text, point)?;
    push_parameters(alloc, text, Language::Smtlib, infos, " ")?;
    text.append(b") Bool (and true\n")
}

/// Where the function of a point with these variables begins, behind the text.
pub fn push_opening(
    alloc: Global,
    text: &mut Text,
    language: Language,
    infos: &[VarInfo],
    point: &[u8],
) -> Result<(), NoMemory>
    ensures { OnOk result (text.new ≡ text.old ++ opening language infos.now point.now) }
{
    match language {
        Language::Python => push_python_opening(alloc, text, infos, point),
        Language::C => push_c_opening(alloc, text, infos, point),
        Language::Smtlib => push_smtlib_opening(alloc, text, infos, point),
    }
}

fn closing(language: Language) -> &'static str
    ensures { result.now ≡ closing language }
{
    match language {
        Language::Python => "\n\n",
        Language::C => "} while (0)\n\n",
        Language::Smtlib => "))\n\n",
    }
}

/// Where the function ends, behind the text.
pub fn push_closing(text: &mut Text, language: Language) -> Result<(), NoMemory>
    ensures { OnOk result (text.new ≡ text.old ++ closing language) }
{
    text.append(closing(language).as_bytes())
}

fn push_python_assertion(text: &mut Text, said: &[u8], expression: &[u8]) -> Result<(), NoMemory>
    ensures { OnOk result (text.new ≡ text.old ++ assertion Language.Python said.now expression.now) }
{
    text.append(b"    assert ")?;
    text.append(expression)?;
    text.append(b", ")?;
    push_quoted(text, said)?;
    text.append(b"\n")
}

fn push_c_assertion(text: &mut Text, said: &[u8], expression: &[u8]) -> Result<(), NoMemory>
    ensures { OnOk result (text.new ≡ text.old ++ assertion Language.C said.now expression.now) }
{
    text.append(b"    dk_holds(")?;
    push_quoted(text, said)?;
    text.append(b", ")?;
    text.append(expression)?;
    text.append(b"); \\\n")
}

fn push_smtlib_assertion(text: &mut Text, said: &[u8], expression: &[u8]) -> Result<(), NoMemory>
    ensures { OnOk result (text.new ≡ text.old ++ assertion Language.Smtlib said.now expression.now) }
{
    text.append(b"    ")?;
    text.append(expression)?;
    text.append(b" ; ")?;
    push_quoted(text, said)?;
    text.append(b"\n")
}

/// The line of this text in the function, where the language says it by this expression, behind the text.
pub fn push_assertion(
    text: &mut Text,
    language: Language,
    said: &[u8],
    expression: &[u8],
) -> Result<(), NoMemory>
    ensures { OnOk result (text.new ≡ text.old ++ assertion language said.now expression.now) }
{
    match language {
        Language::Python => push_python_assertion(text, said, expression),
        Language::C => push_c_assertion(text, said, expression),
        Language::Smtlib => push_smtlib_assertion(text, said, expression),
    }
}

fn mark(language: Language) -> &'static str
    ensures { result.now ≡ mark language }
{
    match language {
        Language::Python => "# not told: ",
        Language::C => "// not told: ",
        Language::Smtlib => "; not told: ",
    }
}

/// The line of this text in front of the function, where the language can't say it, behind the text.
pub fn push_comment(text: &mut Text, language: Language, said: &[u8]) -> Result<(), NoMemory>
    ensures { OnOk result (text.new ≡ text.old ++ comment language said.now) }
{
    text.append(mark(language).as_bytes())?;
    push_quoted(text, said)?;
    text.append(b"\n")
}
