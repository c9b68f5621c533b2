// What a text is as a sequence.
ghost use Rattle.std.specs.Prelude.{◌≡◌, ◌<◌, ℕ, List, [], ◌∷◌, IfOk, IfSome, MatchOption, length, map, option_map};
ghost use Rattle.dk_base.specs.Pieces.{pieces};
ghost use Rattle.dk_base.specs.Values.Items.{bool_item, hash_item, int_item, item_map, str_item};
ghost use Rattle.dk_base.specs.Values.Sequences.{IsFrontItem, all_of, inside, sequence};
ghost use Rattle.dk_base.specs.declared.splitting.Cut.TheVariants.{AtBlanksOutsideQuotes};
ghost use Rattle.dk_base.specs.declared.values.items.Item.{Item};

use crate::numbers::short_number;
use crate::sameness::same_bytes;
use crate::splitting::{Cut, next_piece};
use crate::values::items::{Item, bool_item, hash_item, int_item, is_missing_word, is_text};
use crate::{Arena, NoMemory};
use bumpalo::collections::into_bump_slice;

/// An item that holds no text.
pub(crate) trait Element: Copy {
    ghost item_of: { List ℕ → Item Self };

    fn read(text: &[u8]) -> Item<Self>
        ensures { result ≡ item_of text.now };

    /// The item that the first piece writes, if it is read where it stands; and what is left behind it.
    fn front(text: &[u8]) -> Option<(Self, &[u8])>
        ensures { IfSome result (λ r. IsFrontItem item_of text.now r.0 r.1.now) };
}

impl Element for bool {
    ghost item_of = { bool_item };

    fn read(text: &[u8]) -> Item<bool> {
        bool_item(text)
    }

    fn front(_text: &[u8]) -> Option<(bool, &[u8])> {
        None
    }
}

impl Element for i64 {
    ghost item_of = { int_item };

    fn read(text: &[u8]) -> Item<i64> {
        int_item(text)
    }

    fn front(text: &[u8]) -> Option<(i64, &[u8])> {
        short_item(text)
    }
}

impl Element for u64 {
    ghost item_of = { hash_item };

    fn read(text: &[u8]) -> Item<u64> {
        hash_item(text)
    }

    fn front(_text: &[u8]) -> Option<(u64, &[u8])> {
        None
    }
}

/// The short whole number that stands in front, if it is the whole first piece; and what is left behind it.
fn short_item(text: &[u8]) -> Option<(i64, &[u8])>
    ensures { IfSome result (λ r. IsFrontItem int_item text.now r.0 r.1.now) }
{
    let Some((number, rest)) = short_number(text) else {
        return None;
    };
    match rest {
        [] => Some((number, rest)),
        [b' ', left @ ..] => Some((number, left)),
        _ => None,
    }
}

/// What the first piece is as an item, and what is left behind it; none where the text has no piece.
fn next_item<T: Element>(text: &[u8]) -> Option<(Item<T>, &[u8])>
    ensures first { MatchOption result (map T.item_of (pieces AtBlanksOutsideQuotes text.now) ≡ [])
        (λ r. map T.item_of (pieces AtBlanksOutsideQuotes text.now) ≡ r.0 ∷ map T.item_of (pieces AtBlanksOutsideQuotes r.1.now)) }
    ensures shorter { IfSome result (λ r. length r.1.now < length text.now) }
{
    if let Some((item, left)) = T::front(text) {
        return Some((Item::Present(item), left));
    }
    match next_piece(Cut::AtBlanksOutsideQuotes, text) {
        None => None,
        Some((piece, left)) => Some((T::read(piece), left)),
    }
}

/// The items that the pieces of the text write, in the arena.
fn read_items<'a, T: Element>(arena: &'a Arena, text: &[u8]) -> Result<Item<&'a [T]>, NoMemory>
    ensures { IfOk result (λ found. item_map (λ s. s.now) found ≡ all_of (map T.item_of (pieces AtBlanksOutsideQuotes text.now))) }
{
    let mut items = Vec::new(arena);
    let mut is_missing = false;
    let mut left = text;
    'items: while let Some((item, rest)) = next_item::<T>(left) {
        match item {
            Item::Bad => return Ok(Item::Bad),
            Item::Missing => is_missing = true,
            Item::Present(value) => items.push(value)?,
        }
        left = rest;
    }
    if is_missing {
        return Ok(Item::Missing);
    }
    Ok(Item::Present(into_bump_slice(items)))
}

#[tactic(auto, using(crate::proofs::ReadBack::text_no_word), unfolding(crate::specs::Values::Items::str_item))]
fn str_item(text: &[u8]) -> Item<&[u8]>
    ensures { item_map (λ s. s.now) result ≡ str_item text.entry.now }
{
    if is_text(text) {
        Item::Present(text)
    } else if is_missing_word(text) {
        Item::Missing
    } else {
        Item::Bad
    }
}

/// The strings that the pieces of the text write; they are parts of it.
fn read_texts<'a>(arena: &'a Arena, text: &'a [u8]) -> Result<Item<&'a [&'a [u8]]>, NoMemory>
    ensures { IfOk result (λ found. item_map (λ s. map (λ t. t.now) s.now) found ≡ all_of (map str_item (pieces AtBlanksOutsideQuotes text.entry.now))) }
{
    let mut items: Vec<&'a [u8], &'a Arena> = Vec::new(arena);
    let mut is_missing = false;
    let mut left = text;
    'items: while let Some((piece, rest)) = next_piece(Cut::AtBlanksOutsideQuotes, left) {
        match str_item(piece) {
            Item::Bad => return Ok(Item::Bad),
            Item::Missing => is_missing = true,
            Item::Present(item) => items.push(item)?,
        }
        left = rest;
    }
    if is_missing {
        return Ok(Item::Missing);
    }
    Ok(Item::Present(into_bump_slice(items)))
}

fn inside(text: &[u8]) -> Option<&[u8]>
    ensures { option_map (λ s. s.now) result ≡ inside text.now }
{
    match text {
        [b'[', inner @ .., b']'] => Some(inner),
        _ => None,
    }
}

/// The sequence of items without text that the text writes, in the arena.
#[tactic(auto, unfolding(crate::specs::Values::Sequences::sequence))]
pub(crate) fn sequence<'a, T: Element>(
    arena: &'a Arena,
    text: &[u8],
) -> Result<Item<&'a [T]>, NoMemory>
    ensures { IfOk result (λ found. item_map (λ s. s.now) found ≡ sequence T.item_of text.now) }
{
    if is_missing_word(text) || same_bytes(text, b"null") {
        return Ok(Item::Missing);
    }
    match inside(text) {
        None => Ok(Item::Bad),
        Some(inner) => read_items(arena, inner),
    }
}

/// The sequence of strings that the text writes. They are parts of one copy of it in the arena.
#[tactic(auto, unfolding(crate::specs::Values::Sequences::sequence))]
pub(crate) fn text_sequence<'a>(
    arena: &'a Arena,
    text: &[u8],
) -> Result<Item<&'a [&'a [u8]]>, NoMemory>
    ensures { IfOk result (λ found. item_map (λ s. map (λ t. t.now) s.now) found ≡ sequence str_item text.now) }
{
    if is_missing_word(text) || same_bytes(text, b"null") {
        return Ok(Item::Missing);
    }
    match inside(text) {
        None => Ok(Item::Bad),
        Some(inner) => {
            let copy: &'a [u8] = arena.try_alloc_slice_copy(inner)?;
            read_texts(arena, copy)
        }
    }
}

/// The string that the text writes, as a copy in the arena.
pub(crate) fn text_value<'a>(arena: &'a Arena, text: &[u8]) -> Result<Item<&'a [u8]>, NoMemory>
    ensures { IfOk result (λ found. item_map (λ s. s.now) found ≡ str_item text.now) }
{
    match str_item(text) {
        Item::Bad => Ok(Item::Bad),
        Item::Missing => Ok(Item::Missing),
        Item::Present(text) => {
            let copy: &'a [u8] = arena.try_alloc_slice_copy(text)?;
            Ok(Item::Present(copy))
        }
    }
}
