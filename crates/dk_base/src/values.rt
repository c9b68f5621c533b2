// Values: views of them in an arena, and values that are kept.
ghost use Rattle.std.specs.Prelude.{◌≡◌, ◌↔◌, IfOk, IfSome, IsNone, IsTrue, OnErr, Some, map};

pub(crate) mod items;
pub(crate) mod parsing;
mod sequences;
pub(crate) mod spelling;
pub(crate) mod tuples;

use crate::{Arena, Kind, List, NoMemory, Text};
use bumpalo::collections::into_bump_slice;
use std::alloc::Global;

/// A value whose strings and sequences lie elsewhere, as in an arena.
#[derive(Clone, Copy, Debug)]
pub enum View<'a> {
    /// The missing value, which every kind has.
    Missing,
    /// A truth value.
    Bool(bool),
    /// A whole number.
    Int(i64),
    /// A hash code.
    Hash(u64),
    /// A string as it is spelled, quotes included.
    Str(&'a [u8]),
    /// A sequence of truth values.
    BoolSeq(&'a [bool]),
    /// A sequence of whole numbers.
    IntSeq(&'a [i64]),
    /// A sequence of hash codes.
    HashSeq(&'a [u64]),
    /// A sequence of strings.
    StrSeq(&'a [&'a [u8]]),
}

/// A value that owns its strings and sequences.
#[derive(Debug, Drop)]
pub enum Value {
    /// The missing value, which every kind has.
    Missing,
    /// A truth value.
    Bool(bool),
    /// A whole number.
    Int(i64),
    /// A hash code.
    Hash(u64),
    /// A string as it is spelled, quotes included.
    Str(Text),
    /// A sequence of truth values.
    BoolSeq(List<bool>),
    /// A sequence of whole numbers.
    IntSeq(List<i64>),
    /// A sequence of hash codes.
    HashSeq(List<u64>),
    /// A sequence of strings.
    StrSeq(List<Text>),
}

fn keep_texts(alloc: Global, texts: &[&[u8]]) -> Result<List<Text>, NoMemory>
    ensures { IfOk result (λ kept. kept ≡ map (λ t. t.now) texts.now) }
{
    let mut kept = List::new(alloc);
    for text in texts {
        kept.push(Text::from_slice(alloc, text)?)?;
    }
    Ok(kept)
}

fn place_texts<'a>(texts: &[Text], arena: &'a Arena) -> Result<&'a [&'a [u8]], NoMemory>
    ensures { IfOk result (λ placed. map (λ t. t.now) placed.now ≡ texts.now) }
{
    let mut placed: Vec<&'a [u8], &'a Arena> = Vec::with_capacity(arena, texts.len())?;
    for text in texts {
        let copy: &'a [u8] = arena.try_alloc_slice_copy(text.as_slice())?;
        placed.push(copy)?;
    }
    Ok(into_bump_slice(placed))
}

fn place_slice<'a, T: Copy>(items: &List<T>, arena: &'a Arena) -> Result<&'a [T], NoMemory>
    ensures { IfOk result (λ placed. placed.now ≡ items.now) }
{
    let copy: &'a [T] = arena.try_alloc_slice_copy(items.as_slice())?;
    Ok(copy)
}

// Copies of these texts.
fn copy_texts(alloc: Global, texts: &[Text]) -> Result<List<Text>, NoMemory>
    ensures { IfOk result (λ copies. copies ≡ texts.now) }
{
    let mut copies = List::new(alloc);
    for text in texts {
        copies.push(Text::from_slice(alloc, text.as_slice())?)?;
    }
    Ok(copies)
}

impl Value {
    ghost use Rattle.dk_base.specs.Values.{has_items, kind_of, value_of};

    /// The value that the view shows, with its own strings and sequences.
    pub fn keep(alloc: Global, view: View<'_>) -> Result<Value, NoMemory>
        ensures { IfOk result (λ value. value ≡ value_of view.entry) }
    {
        Ok(match view {
            View::Missing => Value::Missing,
            View::Bool(truth) => Value::Bool(truth),
            View::Int(number) => Value::Int(number),
            View::Hash(code) => Value::Hash(code),
            View::Str(text) => Value::Str(Text::from_slice(alloc, text)?),
            View::BoolSeq(truths) => Value::BoolSeq(List::from_slice(alloc, truths)?),
            View::IntSeq(numbers) => Value::IntSeq(List::from_slice(alloc, numbers)?),
            View::HashSeq(codes) => Value::HashSeq(List::from_slice(alloc, codes)?),
            View::StrSeq(texts) => Value::StrSeq(keep_texts(alloc, texts)?),
        })
    }

    /// An equal value, with its own strings and sequences.
    pub fn copy(&self, alloc: Global) -> Result<Value, NoMemory>
        ensures { IfOk result (λ copy. copy ≡ self.now) }
    {
        Ok(match self {
            Value::Missing => Value::Missing,
            Value::Bool(truth) => Value::Bool(*truth),
            Value::Int(number) => Value::Int(*number),
            Value::Hash(code) => Value::Hash(*code),
            Value::Str(text) => Value::Str(Text::from_slice(alloc, text.as_slice())?),
            Value::BoolSeq(truths) => Value::BoolSeq(List::from_slice(alloc, truths.as_slice())?),
            Value::IntSeq(numbers) => Value::IntSeq(List::from_slice(alloc, numbers.as_slice())?),
            Value::HashSeq(codes) => Value::HashSeq(List::from_slice(alloc, codes.as_slice())?),
            Value::StrSeq(texts) => Value::StrSeq(copy_texts(alloc, texts.as_slice())?),
        })
    }

    /// A view of the value where it lies, which takes no memory. A sequence of strings alone has none: `place` lays its strings out.
    pub fn view(&self) -> Option<View<'_>>
        ensures shown { IfSome result (λ view. value_of view ≡ self.now) }
        ensures none { IsNone result ↔ (kind_of self.now ≡ Some Kind.StrSeq) }
    {
        match self {
            Value::Missing => Some(View::Missing),
            Value::Bool(truth) => Some(View::Bool(*truth)),
            Value::Int(number) => Some(View::Int(*number)),
            Value::Hash(code) => Some(View::Hash(*code)),
            Value::Str(text) => Some(View::Str(text.as_slice())),
            Value::BoolSeq(truths) => Some(View::BoolSeq(truths.as_slice())),
            Value::IntSeq(numbers) => Some(View::IntSeq(numbers.as_slice())),
            Value::HashSeq(codes) => Some(View::HashSeq(codes.as_slice())),
            Value::StrSeq(_) => None,
        }
    }

    /// A view of the value, with its strings and sequences in the arena. Strings and sequences alone can want memory.
    pub fn place<'a>(&self, arena: &'a Arena) -> Result<View<'a>, NoMemory>
        ensures value { IfOk result (λ view. value_of view ≡ self.now) }
        ensures err { OnErr result (IsTrue (has_items self.now)) }
    {
        Ok(match self {
            Value::Missing => View::Missing,
            Value::Bool(truth) => View::Bool(*truth),
            Value::Int(number) => View::Int(*number),
            Value::Hash(code) => View::Hash(*code),
            Value::Str(text) => View::Str(arena.try_alloc_slice_copy(text.as_slice())?),
            Value::BoolSeq(truths) => View::BoolSeq(place_slice(truths, arena)?),
            Value::IntSeq(numbers) => View::IntSeq(place_slice(numbers, arena)?),
            Value::HashSeq(codes) => View::HashSeq(place_slice(codes, arena)?),
            Value::StrSeq(texts) => View::StrSeq(place_texts(texts.as_slice(), arena)?),
        })
    }
}
