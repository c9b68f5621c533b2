// The base variables of a point in a language.
ghost use Rattle.std.specs.Prelude.{◌≡◌, ◌∷◌, [], ◌++◌, IfOk, OnOk, flat_map, map};
ghost use Rattle.std.specs.List.{list_all};
ghost use Rattle.dk_base.specs.Shapes.{is_base_form};
ghost use Rattle.dk_languages.specs.Bases.{base_of, bases, clash, is_clear, is_of_same, is_sayable, is_told, parameters, parameters_of, root_parameter, root_source, size_parameter, takes_size, told_base};

pub(crate) mod paths;
mod roots;

use crate::Language;
use crate::variables::paths::{
    has_path, inner_name, is_orig, is_sequence, path_name, push_path, push_root_text, push_size,
    root,
};
use dk_base::{Form, List, NoMemory, Text, VarInfo};
use std::alloc::Global;

/// A base variable in a language.
#[derive(Debug, Drop)]
pub struct Base {
    /// Whether the language can say it; else the texts are empty.
    pub is_told: bool,
    /// The expression of its value.
    pub path: Text,
    /// The number of its elements, where it is a sequence.
    pub size: Text,
}

/// A parameter that variables of a point are told by: an object, a value, or the number of a sequence's elements.
#[derive(Debug, Drop)]
pub struct Parameter {
    /// Its name in the language.
    pub name: Text,
    /// The first word of the variables' names, or the name of the sequence.
    pub source: Text,
    /// Whether it is what was there at the entry.
    pub is_orig: bool,
    /// Whether it is the number of a sequence's elements.
    pub is_size: bool,
}

fn is_base_form(form: Form) -> bool
    ensures { result ≡ is_base_form form }
{
    matches!(form, Form::Declared | Form::Orig)
}

// What a root stands for.
fn root_source(language: Language, info: &VarInfo) -> &[u8]
    ensures { result.now ≡ root_source language info.now }
{
    match language {
        Language::Python | Language::C => root(path_name(info)),
        Language::Smtlib => inner_name(info),
    }
}

fn root_parameter(alloc: Global, language: Language, info: &VarInfo) -> Result<Parameter, NoMemory>
    ensures { IfOk result (λ parameter. parameter ≡ root_parameter language info.now) }
{
    let mut name = Text::new(alloc);
    push_root_text(&mut name, language, info)?;
    let source = Text::from_slice(alloc, root_source(language, info))?;
    Ok(Parameter {
        name,
        source,
        is_orig: is_orig(info.form),
        is_size: false,
    })
}

fn size_parameter(alloc: Global, language: Language, info: &VarInfo) -> Result<Parameter, NoMemory>
    ensures { IfOk result (λ parameter. parameter ≡ size_parameter language info.now) }
{
    let mut name = Text::new(alloc);
    push_size(alloc, &mut name, language, info)?;
    let source = Text::from_slice(alloc, inner_name(info))?;
    Ok(Parameter {
        name,
        source,
        is_orig: is_orig(info.form),
        is_size: true,
    })
}

// Whether a sequence's size is a parameter of its own.
fn takes_size(language: Language, info: &VarInfo) -> bool
    ensures { result ≡ takes_size language info.now }
{
    match language {
        Language::Python => false,
        Language::C | Language::Smtlib => is_sequence(info.kind),
    }
}

// Whether it is a base variable whose name the language can say.
fn is_sayable(alloc: Global, language: Language, info: &VarInfo) -> Result<bool, NoMemory>
    ensures { IfOk result (λ sayable. sayable ≡ is_sayable language info.now) }
{
    if !is_base_form(info.form) {
        return Ok(false);
    }
    has_path(alloc, language, info)
}

// The parameters of a variable, behind the others.
fn push_parameters_of(
    alloc: Global,
    found: &mut List<Parameter>,
    language: Language,
    info: &VarInfo,
) -> Result<(), NoMemory>
    ensures { OnOk result (found.new ≡ found.old ++ parameters_of language info.now) }
{
    if !is_sayable(alloc, language, info)? {
        return Ok(());
    }
    found.push(root_parameter(alloc, language, info)?)?;
    if !takes_size(language, info) {
        return Ok(());
    }
    found.push(size_parameter(alloc, language, info)?)
}

/// The parameters that a point's variables are told by, in the order of the variables; one that several share comes again.
pub fn parameters(
    alloc: Global,
    language: Language,
    infos: &[VarInfo],
) -> Result<List<Parameter>, NoMemory>
    ensures { IfOk result (λ found. found ≡ parameters language infos.now) }
{
    let mut found = List::new(alloc);
    for info in infos {
        push_parameters_of(alloc, &mut found, language, info)?;
    }
    Ok(found)
}

// Whether both stand for the same thing.
fn is_of_same(parameter: &Parameter, other: &Parameter) -> bool
    ensures { result ≡ is_of_same parameter.now other.now }
{
    parameter.source.as_slice() == other.source.as_slice()
        && parameter.is_orig == other.is_orig
        && parameter.is_size == other.is_size
}

// Whether one name stands for two things.
fn clash(parameter: &Parameter, other: &Parameter) -> bool
    ensures { result ≡ clash parameter.now other.now }
{
    parameter.name.as_slice() == other.name.as_slice() && !is_of_same(parameter, other)
}

// Whether the parameter clashes with none of the others.
fn is_clear(others: &[Parameter], parameter: &Parameter) -> bool
    ensures { result ≡ is_clear others.now parameter.now }
{
    others.iter().all(|other| !clash(parameter, other))
}

// Whether all of these clash with none of the others.
fn are_clear(others: &[Parameter], parameters: &[Parameter]) -> bool
    ensures { result ≡ list_all (is_clear others.now) parameters.now }
{
    parameters
        .iter()
        .all(|parameter| is_clear(others, parameter))
}

// Whether the variable is told, the point's parameters being these.
fn is_told(
    alloc: Global,
    language: Language,
    others: &[Parameter],
    info: &VarInfo,
) -> Result<bool, NoMemory>
    ensures { IfOk result (λ told. told ≡ is_told language others.now info.now) }
{
    if !is_sayable(alloc, language, info)? {
        return Ok(false);
    }
    let mut own = List::new(alloc);
    push_parameters_of(alloc, &mut own, language, info)?;
    Ok(are_clear(others, own.as_slice()))
}

// A variable that is told.
fn told_base(alloc: Global, language: Language, info: &VarInfo) -> Result<Base, NoMemory>
    ensures { IfOk result (λ base. base ≡ told_base language info.now) }
{
    let mut path = Text::new(alloc);
    let mut size = Text::new(alloc);
    push_path(&mut path, language, info)?;
    push_size(alloc, &mut size, language, info)?;
    Ok(Base {
        is_told: true,
        path,
        size,
    })
}

// The variable in the language, the point's parameters being these.
fn base_of(
    alloc: Global,
    language: Language,
    others: &[Parameter],
    info: &VarInfo,
) -> Result<Base, NoMemory>
    ensures { IfOk result (λ base. base ≡ base_of language others.now info.now) }
{
    if is_told(alloc, language, others, info)? {
        return told_base(alloc, language, info);
    }
    Ok(Base {
        is_told: false,
        path: Text::new(alloc),
        size: Text::new(alloc),
    })
}

/// The variables of a point in a language, in order. A base variable is told where the language can say its name, and nothing else of the
/// point goes by its parameters' names; derived ones are not told by themselves.
pub fn bases(alloc: Global, language: Language, infos: &[VarInfo]) -> Result<List<Base>, NoMemory>
    ensures { IfOk result (λ found. found ≡ bases language infos.now) }
{
    let others = parameters(alloc, language, infos)?;
    let mut found = List::new(alloc);
    for info in infos {
        found.push(base_of(alloc, language, others.as_slice(), info)?)?;
    }
    Ok(found)
}
