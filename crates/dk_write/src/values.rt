// Values of records and constants.
ghost use Rattle.std.specs.Prelude.{◌≡◌, ◌++◌, ◌&&◌, IfOk, OnOk, unwrap_or, if◌then◌else◌};
ghost use Rattle.std.specs.List.{list_all};
ghost use Rattle.std.specs.Option.{option_map_or};
ghost use Rattle.dk_base.specs.Values.{value_of};
ghost use Rattle.dk_base.specs.Values.Items.{is_text as is_text_of};
ghost use Rattle.dk_base.specs.Values.Spelling.{spelling};
ghost use Rattle.dk_decl.specs.Types.{is_missing};
ghost use Rattle.dk_write.specs.Records.{mark_text, value_text};
ghost use Rattle.dk_write.specs.Writable.{is_of_kind, is_value_of};

use crate::names::is_line;
use dk_base::{Arena, Kind, NoMemory, Text, Value, View, is_text, spell};
use std::alloc::Global;

/// Whether it is the missing value.
pub(crate) fn is_missing(view: View<'_>) -> bool
    ensures { result ≡ is_missing (value_of view.entry) }
{
    matches!(view, View::Missing)
}

/// The text of a value of a record.
pub(crate) fn value_text(alloc: Global, view: View<'_>) -> Result<Text, NoMemory>
    ensures { IfOk result (λ text. text ≡ value_text (value_of view.entry)) }
{
    if is_missing(view) {
        Text::from_slice(alloc, b"nonsensical")
    } else {
        spell(alloc, view)
    }
}

/// The mark of a value of a record: 2 of the missing one, and else 1.
pub(crate) fn mark_text(view: View<'_>) -> &'static [u8]
    ensures { result.now ≡ mark_text (value_of view.entry) }
{
    if is_missing(view) { b"2" } else { b"1" }
}

/// The spelling of a constant, behind the text.
pub(crate) fn push_constant(
    alloc: Global,
    text: &mut Text,
    constant: &Option<Value>,
) -> Result<(), NoMemory>
    ensures { OnOk result (text.new ≡ text.old ++ spelling (unwrap_or constant.now Value.Missing)) }
{
    match constant {
        Some(value) => {
            let arena = Arena::new(alloc);
            let spelled = spell(alloc, value.place(&arena)?)?;
            text.append(spelled.as_slice())
        }
        None => text.append(b"missing"),
    }
}

fn are_texts(texts: &[&[u8]]) -> bool
    ensures { result ≡ list_all (λ t. is_text_of t.now) texts.now }
{
    for text in texts {
        if !is_text(text) {
            return false;
        }
    }
    true
}

// Whether it is a value of the kind, or the missing one.
fn is_of_kind(kind: Kind, view: View<'_>) -> bool
    ensures { result ≡ is_of_kind kind (value_of view.entry) }
{
    match (kind, view) {
        (_, View::Missing) => true,
        (Kind::Bool, View::Bool(_)) => true,
        (Kind::Int, View::Int(_)) => true,
        (Kind::Hash, View::Hash(_)) => true,
        (Kind::Str, View::Str(text)) => is_text(text),
        (Kind::BoolSeq, View::BoolSeq(_)) => true,
        (Kind::IntSeq, View::IntSeq(_)) => true,
        (Kind::HashSeq, View::HashSeq(_)) => true,
        (Kind::StrSeq, View::StrSeq(texts)) => are_texts(texts),
        _ => false,
    }
}

/// Whether a variable of the kind can have the value, which a line tells. Any value is one of an opaque variable, which isn't read.
pub(crate) fn is_value_of(
    alloc: Global,
    kind: Option<Kind>,
    view: View<'_>,
) -> Result<bool, NoMemory>
    ensures { IfOk result (λ is. is ≡ is_value_of kind (value_of view.entry)) }
{
    let text = value_text(alloc, view)?;
    Ok(match kind {
        Some(own) => is_of_kind(own, view) && is_line(text.as_slice()),
        None => is_line(text.as_slice()),
    })
}
