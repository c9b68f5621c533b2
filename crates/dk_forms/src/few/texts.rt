// The form few texts: the distinct values, ascending by their bytes, if they are at most three.
ghost use Rattle.std.specs.Prelude.{◌≡◌, ◌↔◌, ◌<◌, ◌≤◌, [], ◌∷◌, length, insert, map, IfOk, IsTrue, MatchOption};
ghost use Rattle.std.specs.List.{list_any};
ghost use Rattle.std.specs.Ordering.{nat_cmp};
ghost use Rattle.std.specs.Str.{bytes_eq};
ghost use Rattle.std.specs.Cmp.Lexicographic.{slice_cmp};
ghost use Rattle.dk_forms.specs.Known.Distinct.{few_meet, put};
ghost use Rattle.dk_forms.specs.Known.Place.{IsTextPlace};
ghost use Rattle.dk_forms.specs.Texts.{texts_state, texts_join, texts_of, IsTextsState};

use crate::State;
use crate::few::ints::FoundPlace;
use dk_base::{List, NoMemory, Text};
use std::alloc::Global;
use std::cmp::Ordering;

// Where a text stands among ascending texts.
fn find_text(items: &[Text], x: &[u8]) -> FoundPlace
    ensures { IsTextPlace items.now x.now result }
{
    for (i, y) in items.iter().enumerate() {
        match x.cmp(y.as_slice()) {
            Ordering::Less => return FoundPlace::Before(i),
            Ordering::Equal => return FoundPlace::There,
            Ordering::Greater => {}
        }
    }
    FoundPlace::Before(items.len())
}

// Copies of these texts.
pub(crate) fn copies(alloc: Global, texts: &[Text]) -> Result<List<Text>, NoMemory>
    ensures { IfOk result (λ all. all ≡ texts.now) }
{
    let mut all = List::new(alloc);
    for text in texts {
        all.push(Text::from_slice(alloc, text.as_slice())?)?;
    }
    Ok(all)
}

// A list of these texts.
fn list_of(alloc: Global, texts: Vec<Text>) -> Result<List<Text>, NoMemory>
    ensures { IfOk result (λ list. list ≡ texts.items) }
{
    let mut list = List::new(alloc);
    for text in texts {
        list.push(text)?;
    }
    Ok(list)
}

// With one text more at a place.
fn insert_text(
    alloc: Global,
    texts: List<Text>,
    at: usize,
    text: &[u8],
) -> Result<List<Text>, NoMemory>
    requires { at ≤ length texts }
    ensures { IfOk result (λ more. more ≡ insert texts at text.now) }
{
    let mut items = texts.into_vec();
    items.insert(at, Text::from_slice(alloc, text)?)?;
    list_of(alloc, items)
}

// With one text more, or none where that makes more than three.
fn with_text(alloc: Global, texts: List<Text>, text: &[u8]) -> Result<Option<List<Text>>, NoMemory>
    requires { length texts ≤ 3 }
    ensures { IfOk result (λ found. MatchOption found (3 < length (put (slice_cmp nat_cmp) text.now texts)) (λ more. (more ≡ put (slice_cmp nat_cmp) text.now texts) × (length more ≤ 3))) }
{
    match find_text(texts.as_slice(), text) {
        FoundPlace::There => Ok(Some(texts)),
        FoundPlace::Before(at) => {
            if texts.len() < 3 {
                Ok(Some(insert_text(alloc, texts, at, text)?))
            } else {
                Ok(None)
            }
        }
    }
}

// The texts of both, if they are at most three.
fn union_texts(alloc: Global, xs: &[Text], ys: List<Text>) -> Result<State, NoMemory>
    requires { length ys ≤ 3 }
    ensures { IfOk result (λ state. state ≡ texts_state (few_meet (slice_cmp nat_cmp) 3 xs.now ys)) }
{
    let mut all = ys;
    for x in xs {
        match with_text(alloc, all, x.as_slice())? {
            Some(more) => all = more,
            None => return Ok(State::Broken),
        }
    }
    Ok(State::Texts(all))
}

/// The state of one value.
pub fn text_point(alloc: Global, value: &[u8]) -> Result<State, NoMemory>
    ensures { IfOk result (λ state. state ≡ texts_of (value.now ∷ [])) }
{
    let mut one = List::new(alloc);
    one.push(Text::from_slice(alloc, value)?)?;
    Ok(State::Texts(one))
}

// The distinct values, if they are at most three.
fn union_values(alloc: Global, values: &[&[u8]]) -> Result<State, NoMemory>
    ensures { IfOk result (λ state. state ≡ texts_state (few_meet (slice_cmp nat_cmp) 3 (map (λ t. t.now) values.now) [])) }
{
    let mut all = List::new(alloc);
    for value in values {
        match with_text(alloc, all, value)? {
            Some(more) => all = more,
            None => return Ok(State::Broken),
        }
    }
    Ok(State::Texts(all))
}

/// The state of some values.
pub fn texts_point(alloc: Global, values: &[&[u8]]) -> Result<State, NoMemory>
    ensures { IfOk result (λ state. state ≡ texts_of (map (λ t. t.now) values.now)) }
{
    if values.is_empty() {
        Ok(State::Empty)
    } else {
        union_values(alloc, values)
    }
}

/// The state of two lists together.
pub fn join_texts(alloc: Global, left: State, right: &State) -> Result<State, NoMemory>
    requires left { IsTextsState left }
    requires right { IsTextsState right.now }
    ensures { IfOk result (λ state. state ≡ texts_join left right.now) }
{
    match right {
        State::Empty => Ok(left),
        State::Texts(ys) => match left {
            State::Empty => Ok(State::Texts(copies(alloc, ys.as_slice())?)),
            State::Texts(xs) => union_texts(alloc, ys.as_slice(), xs),
            _ => Ok(State::Broken),
        },
        _ => Ok(State::Broken),
    }
}

// Whether a text is one of these.
fn has_text(texts: &[Text], x: &[u8]) -> bool
    ensures { result ≡ list_any (bytes_eq x.now) texts.now }
{
    texts.iter().any(|y| x == y.as_slice())
}

/// Whether a value leaves the state as it is. No text is made.
#[inline]
#[tactic(auto, using(crate::proofs::FewStays::texts_stay))]
pub fn text_stays(state: &State, value: &[u8]) -> bool
    requires { IsTextsState state.now }
    ensures { IsTrue result ↔ (texts_join state.now (texts_of (value.now ∷ [])) ≡ state.now) }
{
    match state {
        State::Texts(texts) => has_text(texts.as_slice(), value),
        _ => matches!(state, State::Broken),
    }
}

/// Whether some values leave the state as it is. No text is made.
pub fn texts_all_stay(state: &State, values: &[&[u8]]) -> bool
    requires { IsTextsState state.now }
    ensures { IsTrue result ↔ (texts_join state.now (texts_of (map (λ t. t.now) values.now)) ≡ state.now) }
{
    match values {
        [] => true,
        [v, rest @ ..] => if text_stays(state, v) {
            texts_all_stay(state, rest)
        } else {
            false
        },
    }
}
