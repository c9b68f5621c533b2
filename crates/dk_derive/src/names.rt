// The names of derived variables.
ghost use Rattle.std.specs.Prelude.{◌≡◌, ◌++◌, IfOk};
ghost use Rattle.dk_derive.specs.Names.{name_over, stem, text_over};

use dk_base::{Form, NoMemory, Text};
use dk_points::orig_name;
use std::alloc::Global;

// The name without its final `[..]` or, where it has none, without its final `[]`.
#[tactic(auto, unfolding(crate::specs::Names::stem))]
fn stem(name: &[u8]) -> &[u8]
    ensures { result.now ≡ stem name.now }
{
    if name.ends_with(b"[..]") {
        &name[..name.len() - 4]
    } else if name.ends_with(b"[]") {
        &name[..name.len() - 2]
    } else {
        name
    }
}

fn concatenate(alloc: Global, front: &[u8], back: &[u8]) -> Result<Text, NoMemory>
    ensures { IfOk result (λ text. text ≡ front.now ++ back.now) }
{
    let mut text = Text::from_slice(alloc, front)?;
    text.append(back)?;
    Ok(text)
}

// A name, and behind it an index or a range.
fn with_brackets(
    alloc: Global,
    name: &[u8],
    opening: &[u8],
    index: &[u8],
    closing: &[u8],
) -> Result<Text, NoMemory>
    ensures { IfOk result (λ text. text ≡ name.now ++ opening.now ++ index.now ++ closing.now) }
{
    let mut text = concatenate(alloc, name, opening)?;
    text.append(index)?;
    text.append(closing)?;
    Ok(text)
}

// The text of a form over the plain names of a sequence and of an index.
#[tactic(auto, unfolding(crate::specs::Names::text_over))]
fn text_over(alloc: Global, sequence: &[u8], index: &[u8], form: Form) -> Result<Text, NoMemory>
    ensures { IfOk result (λ text. text ≡ text_over sequence.now index.now form) }
{
    match form {
        Form::Declared => Text::from_slice(alloc, sequence),
        Form::Orig => Text::from_slice(alloc, sequence),
        Form::Size(_) => with_brackets(alloc, b"", b"size(", sequence, b")"),
        Form::First(_) => concatenate(alloc, stem(sequence), b"[0]"),
        Form::Last(_) => concatenate(alloc, stem(sequence), b"[-1]"),
        Form::At(_, _) => with_brackets(alloc, stem(sequence), b"[", index, b"]"),
        Form::Upto(_, _) => with_brackets(alloc, stem(sequence), b"[0..", index, b"]"),
        Form::Before(_, _) => with_brackets(alloc, stem(sequence), b"[0..", index, b"-1]"),
        Form::Since(_, _) => with_brackets(alloc, stem(sequence), b"[", index, b"..]"),
        Form::After(_, _) => with_brackets(alloc, stem(sequence), b"[", index, b"+1..]"),
    }
}

/// The name of a form over the plain names of a sequence and of an index, which are orig ones or not.
pub(crate) fn name_over(
    alloc: Global,
    orig: bool,
    sequence: &[u8],
    index: &[u8],
    form: Form,
) -> Result<Text, NoMemory>
    ensures { IfOk result (λ name. name ≡ name_over orig sequence.now index.now form) }
{
    let text = text_over(alloc, sequence, index, form)?;
    if orig {
        orig_name(alloc, text.as_slice())
    } else {
        Ok(text)
    }
}
