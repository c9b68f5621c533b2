// What a variable may be compared with, as text.
ghost use Rattle.std.specs.Prelude.{◌≡◌, IfOk, map};
ghost use Rattle.std.specs.List.{list_all};
ghost use Rattle.dk_decl.specs.Brackets.{bracket_parts, compar_of, first_index, index_number, index_of, is_index, numbers_of};

use dk_base::{Compar, NoMemory, parse_integer};
use std::alloc::{AllocError, Global};

/// The parts of the text between its `[`.
#[tactic(auto, unfolding(crate::specs::Brackets::bracket_parts))]
fn bracket_parts(alloc: Global, text: &[u8]) -> Result<Vec<&[u8]>, AllocError>
    ensures { IfOk result (λ found. map (λ part. part.now) found.items ≡ bracket_parts text.entry.now) }
{
    text.split(|byte| *byte == b'[').collect(alloc)
}

/// The number in front of the `]` that ends the part.
#[tactic(auto, unfolding(crate::specs::Brackets::index_of))]
fn index_of(part: &[u8]) -> Option<i64>
    ensures { result ≡ index_of part.now }
{
    match part {
        [digits @ .., b']'] => parse_integer(digits),
        _ => None,
    }
}

fn are_indices(brackets: &[&[u8]]) -> bool
    ensures { result ≡ list_all is_index (map (λ part. part.now) brackets.now) }
{
    for part in brackets {
        if index_of(part).is_none() {
            return false;
        }
    }
    true
}

fn first_index(brackets: &[&[u8]]) -> i64
    ensures { result ≡ first_index (map (λ part. part.now) brackets.now) }
{
    match brackets {
        [] => -1,
        [part, ..] => index_of(part).unwrap_or(-1),
    }
}

/// The number in the first brackets, if each bracket holds a number.
#[tactic(auto, unfolding(crate::specs::Brackets::index_number))]
fn index_number(brackets: &[&[u8]]) -> Option<i64>
    ensures { result ≡ index_number (map (λ part. part.now) brackets.now) }
{
    if are_indices(brackets) {
        Some(first_index(brackets))
    } else {
        None
    }
}

#[tactic(auto, unfolding(crate::specs::Brackets::numbers_of))]
fn numbers_of(parts: &[&[u8]]) -> Option<Compar>
    ensures { result ≡ numbers_of (map (λ part. part.now) parts.now) }
{
    match parts {
        [] => None,
        [front, brackets @ ..] => match parse_integer(front) {
            None => None,
            Some(elem) => match index_number(brackets) {
                None => None,
                Some(index) => Some(Compar { elem, index }),
            },
        },
    }
}

/// What the text says: an element number, and an index number in brackets; further brackets have no effect.
#[tactic(auto, unfolding(crate::specs::Brackets::compar_of))]
pub(crate) fn compar_of(alloc: Global, text: &[u8]) -> Result<Option<Compar>, NoMemory>
    ensures { IfOk result (λ found. found ≡ compar_of text.now) }
{
    let parts = bracket_parts(alloc, text)?;
    Ok(numbers_of(parts.as_slice()))
}
