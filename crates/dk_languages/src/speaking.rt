// The variables of a point in a language, derived ones too.
ghost use Rattle.std.specs.Prelude.{◌≡◌, IfOk, slice_get};
ghost use Rattle.dk_languages.specs.Speaking.{form_at, form_fillings, index_of, is_spoken, path_in, sequence_of, size_in, spoken, told_in};

mod forms;

use crate::fillings::{Filling, fill};
use crate::speaking::forms::{end_of, presence_of, start_of, value_of};
use crate::{Base, Language};
use dk_base::{Form, List, NoMemory, Text, VarId, VarInfo};
use std::alloc::Global;

/// A variable in a language. In C and SMT-LIB a sequence is the elements of `value` from `start` on and before `end`.
#[derive(Debug, Drop)]
pub(crate) struct Spoken {
    /// The variable's value.
    pub(crate) value: Text,
    /// The place of a sequence's first element.
    pub(crate) start: Text,
    /// The place behind its last element.
    pub(crate) end: Text,
    /// Where it is there; no text where it is there always.
    pub(crate) presence: Text,
}

fn form_at(infos: &[VarInfo], v: VarId) -> Form
    ensures { result ≡ form_at infos.now v }
{
    match infos.get(v.0 as usize) {
        Some(info) => info.form,
        None => Form::Declared,
    }
}

// The sequence that a variable comes from; a base variable comes from itself.
fn sequence_of(v: VarId, form: Form) -> VarId
    ensures { result ≡ sequence_of v form }
{
    match form {
        Form::Declared | Form::Orig => v,
        Form::Size(s) | Form::First(s) | Form::Last(s) => s,
        Form::At(s, _)
        | Form::Upto(s, _)
        | Form::Before(s, _)
        | Form::Since(s, _)
        | Form::After(s, _) => s,
    }
}

// The index that a variable comes from, where there is one.
fn index_of(v: VarId, form: Form) -> VarId
    ensures { result ≡ index_of v form }
{
    match form {
        Form::At(_, i)
        | Form::Upto(_, i)
        | Form::Before(_, i)
        | Form::Since(_, i)
        | Form::After(_, i) => i,
        _ => sequence_of(v, form),
    }
}

fn told_at(bases: &[Base], v: VarId) -> bool
    ensures { result ≡ told_in (slice_get bases.now v.0) }
{
    match bases.get(v.0 as usize) {
        Some(base) => base.is_told,
        None => false,
    }
}

fn path_at(bases: &[Base], v: VarId) -> &[u8]
    ensures { result.now ≡ path_in (slice_get bases.now v.0) }
{
    match bases.get(v.0 as usize) {
        Some(base) => base.path.as_slice(),
        None => b"",
    }
}

fn size_at(bases: &[Base], v: VarId) -> &[u8]
    ensures { result.now ≡ size_in (slice_get bases.now v.0) }
{
    match bases.get(v.0 as usize) {
        Some(base) => base.size.as_slice(),
        None => b"",
    }
}

/// Whether the language can say the variable.
pub(crate) fn is_spoken(infos: &[VarInfo], bases: &[Base], v: VarId) -> bool
    ensures { result ≡ is_spoken infos.now bases.now v }
{
    let form = form_at(infos, v);
    told_at(bases, sequence_of(v, form)) && told_at(bases, index_of(v, form))
}

fn filling(alloc: Global, letter: u8, bytes: &[u8]) -> Result<Filling, NoMemory>
    ensures { IfOk result (λ filling. filling ≡ record { letter = letter; text = bytes.now }) }
{
    let text = Text::from_slice(alloc, bytes)?;
    Ok(Filling { letter, text })
}

// What stands for the letters of a form.
fn form_fillings(
    alloc: Global,
    infos: &[VarInfo],
    bases: &[Base],
    v: VarId,
) -> Result<List<Filling>, NoMemory>
    ensures { IfOk result (λ fillings. fillings ≡ form_fillings infos.now bases.now v) }
{
    let form = form_at(infos, v);
    let sequence = sequence_of(v, form);
    let mut fillings = List::new(alloc);
    fillings.push(filling(alloc, b'P', path_at(bases, sequence))?)?;
    fillings.push(filling(alloc, b'S', size_at(bases, sequence))?)?;
    fillings.push(filling(alloc, b'I', path_at(bases, index_of(v, form)))?)?;
    Ok(fillings)
}

/// The variable in the language.
pub(crate) fn spoken_of(
    alloc: Global,
    language: Language,
    infos: &[VarInfo],
    bases: &[Base],
    v: VarId,
) -> Result<Spoken, NoMemory>
    ensures { IfOk result (λ s. s ≡ spoken language infos.now bases.now v) }
{
    let form = form_at(infos, v);
    let list = form_fillings(alloc, infos, bases, v)?;
    let fillings = list.as_slice();
    Ok(Spoken {
        value: fill(alloc, fillings, value_of(language, form))?,
        start: fill(alloc, fillings, start_of(language, form))?,
        end: fill(alloc, fillings, end_of(language, form))?,
        presence: fill(alloc, fillings, presence_of(language, form))?,
    })
}
