// The parameters of a point's function.
ghost use Rattle.std.specs.Prelude.{◌≡◌, ◌++◌, ◌∷◌, [], IfOk, OnOk, flat_map, fold, map};
ghost use Rattle.std.specs.List.{join_by, list_any};
ghost use Rattle.std.specs.Str.{bytes_eq};
ghost use Rattle.dk_functions.specs.Functions.{joined};
ghost use Rattle.dk_functions.specs.Parameters.{parameter_sort, parameter_text, parameter_texts, sort_of, texts_of, with_text};

use dk_base::{Kind, List, NoMemory, Text, VarInfo};
use dk_languages::{Language, Parameter, parameters};
use std::alloc::Global;
use std::slice::from_ref;

// The sort of a variable of a kind in SMT-LIB.
fn sort_of(kind: Kind) -> &'static str
    ensures { result.now ≡ sort_of kind }
{
    match kind {
        Kind::Bool => "Bool",
        Kind::Int | Kind::Hash => "Int",
        Kind::Str => "String",
        Kind::BoolSeq => "(Array Int Bool)",
        Kind::IntSeq | Kind::HashSeq => "(Array Int Int)",
        Kind::StrSeq => "(Array Int String)",
    }
}

fn parameter_sort(kind: Kind, parameter: &Parameter) -> &'static str
    ensures { result.now ≡ parameter_sort kind parameter.now }
{
    if parameter.is_size {
        "Int"
    } else {
        sort_of(kind)
    }
}

// The name of a parameter with its sort.
fn sorted_parameter(alloc: Global, kind: Kind, parameter: &Parameter) -> Result<Text, NoMemory>
    ensures { IfOk result (λ text. text ≡ parameter_text Language.Smtlib kind parameter.now) }
{
    let mut text = Text::from_slice(alloc, b"(")?;
    text.append(parameter.name.as_slice())?;
    text.append(b" ")?;
    text.append(parameter_sort(kind, parameter).as_bytes())?;
    text.append(b")")?;
    Ok(text)
}

// A parameter that variables of the kind are told by.
fn parameter_text(
    alloc: Global,
    language: Language,
    kind: Kind,
    parameter: &Parameter,
) -> Result<Text, NoMemory>
    ensures { IfOk result (λ text. text ≡ parameter_text language kind parameter.now) }
{
    match language {
        Language::Smtlib => sorted_parameter(alloc, kind, parameter),
        Language::Python | Language::C => Text::from_slice(alloc, parameter.name.as_slice()),
    }
}

// Whether the text is one of these.
fn is_there(texts: &[Text], text: &Text) -> bool
    ensures { result ≡ list_any (bytes_eq text.now) texts.now }
{
    texts
        .iter()
        .any(|other| text.as_slice() == other.as_slice())
}

// One text more, if it isn't there.
fn push_text(texts: &mut List<Text>, text: Text) -> Result<(), NoMemory>
    ensures { OnOk result (texts.new ≡ with_text texts.old text) }
{
    if is_there(texts.as_slice(), &text) {
        return Ok(());
    }
    texts.push(text)
}

// The texts of a variable's parameters.
fn push_texts_of(
    alloc: Global,
    texts: &mut List<Text>,
    language: Language,
    info: &VarInfo,
) -> Result<(), NoMemory>
    ensures { OnOk result (texts.new ≡ fold with_text texts.old (texts_of language info.now)) }
{
    let found = parameters(alloc, language, from_ref(info))?;
    let own = found.as_slice();
    for parameter in own {
        push_text(
            texts,
            parameter_text(alloc, language, info.kind, parameter)?,
        )?;
    }
    Ok(())
}

// The texts of all parameters, in order, each once.
fn parameter_texts(
    alloc: Global,
    language: Language,
    infos: &[VarInfo],
) -> Result<List<Text>, NoMemory>
    ensures { IfOk result (λ texts. texts ≡ parameter_texts language infos.now) }
{
    let mut texts = List::new(alloc);
    for info in infos {
        push_texts_of(alloc, &mut texts, language, info)?;
    }
    Ok(texts)
}

// The texts, each behind this.
fn push_rest(text: &mut Text, between: &str, texts: &[Text]) -> Result<(), NoMemory>
    ensures { OnOk result (text.new ≡ text.old ++ flat_map (λ t. between.now ++ t) texts.now) }
{
    for other in texts {
        text.append(between.as_bytes())?;
        text.append(other.as_slice())?;
    }
    Ok(())
}

// The texts with this between them, behind the text.
fn push_joined(text: &mut Text, between: &str, texts: &[Text]) -> Result<(), NoMemory>
    ensures { OnOk result (text.new ≡ text.old ++ joined between.now texts.now) }
{
    match texts {
        [] => Ok(()),
        [first, rest @ ..] => {
            text.append(first.as_slice())?;
            push_rest(text, between, rest)
        }
    }
}

/// The parameters that a point's variables are told by, with this between them, behind the text.
pub(crate) fn push_parameters(
    alloc: Global,
    text: &mut Text,
    language: Language,
    infos: &[VarInfo],
    between: &str,
) -> Result<(), NoMemory>
    ensures { OnOk result (text.new ≡ text.old ++ joined between.now (parameter_texts language infos.now)) }
{
    let texts = parameter_texts(alloc, language, infos)?;
    push_joined(text, between, texts.as_slice())
}
