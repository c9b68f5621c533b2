// States, as they are read.
ghost use Rattle.std.specs.Prelude.{◌≡◌, ◌++◌, ◌-◌, ◌<◌, ◌≤◌, ◌^◌, ◌∷◌, [], ℕ, ℤ, Bool, IfOk, List, codes, length, map};
ghost use Rattle.std.specs.Fmt.{signed_decimal};
ghost use Rattle.dk_base.specs.Values.{IsOfKind};
ghost use Rattle.dk_base.specs.Values.Spelling.{IsWritten, bool_text, hash_text, spelling};
ghost use Rattle.dk_base.specs.declared.values.Value.{Value as Values};
ghost use Rattle.dk_forms.specs.declared.states.State.{State as States};
ghost use Rattle.dk_state.specs.Fitting.{FitsState};
ghost use Rattle.dk_state.specs.Lines.{behind_blank, fields_text};
ghost use Rattle.dk_state.specs.Reading.{HasNone, ends_line};
ghost use Rattle.dk_state.specs.StateWords.{state_word, state_word_in, told_fields};
ghost use Rattle.dk_state.specs.States.{state_fields};

use crate::front::Front;
use dk_base::{Kind, List, NoMemory, Text, Value, same_bytes};
use dk_template::{Few, State};
use std::alloc::Global;

// The word that a state begins with.
#[derive(Clone, Copy)]
enum Word {
    Empty,
    Holds,
    Least,
    Greatest,
    Ints,
    Truth,
    Code,
    Texts,
    One,
    Modulus,
    Spot,
    Straight,
    Span,
    Plane,
    Offset,
    Other,
}

// The word of any state.
fn any_word_in(field: &[u8]) -> Word
    ensures { result ≡ state_word_in field.now }
{
    if same_bytes(field, b"empty") {
        Word::Empty
    } else if same_bytes(field, b"holds") {
        Word::Holds
    } else if same_bytes(field, b"least") {
        Word::Least
    } else if same_bytes(field, b"greatest") {
        Word::Greatest
    } else if same_bytes(field, b"ints") {
        Word::Ints
    } else if same_bytes(field, b"truth") {
        Word::Truth
    } else if same_bytes(field, b"code") {
        Word::Code
    } else if same_bytes(field, b"texts") {
        Word::Texts
    } else if same_bytes(field, b"one") {
        Word::One
    } else if same_bytes(field, b"modulus") {
        Word::Modulus
    } else if same_bytes(field, b"spot") {
        Word::Spot
    } else if same_bytes(field, b"straight") {
        Word::Straight
    } else if same_bytes(field, b"span") {
        Word::Span
    } else if same_bytes(field, b"plane") {
        Word::Plane
    } else if same_bytes(field, b"offset") {
        Word::Offset
    } else {
        Word::Other
    }
}

// The word, which of most states is that of a stretch or a plane.
fn word_in(field: &[u8]) -> Word
    ensures { result ≡ state_word_in field.now }
{
    if same_bytes(field, b"span") {
        Word::Span
    } else if same_bytes(field, b"plane") {
        Word::Plane
    } else {
        any_word_in(field)
    }
}

// Between brackets, the fields that are left of the line are the text of a sequence.
fn items(alloc: Global, kind: Kind, front: &mut Front<'_>) -> Result<Value, NoMemory>
    ensures read { (v : Values) (fields rest : List ℕ) → IsOfKind kind v → IsWritten v → HasNone ends_line fields → spelling v ≡ codes "[" ++ (fields ++ codes "]") → front.old ≡ behind_blank fields ++ 10 ∷ rest → IfOk result (λ own. (own ≡ v) × (front.new ≡ 10 ∷ rest)) }
    ensures within { IfOk result (λ own. IsOfKind kind own × IsWritten own) }
    ensures shorter { length front.new ≤ length front.old }
{
    let fields = front.last_field();
    let mut text = Text::new(alloc);
    text.append(b"[")?;
    text.append(fields)?;
    text.append(b"]")?;
    front.parse_value(alloc, kind, text.as_slice())
}

// The numbers of the value, one to three.
fn ints_in(alloc: Global, value: &Value) -> State
    ensures read { (ks : List ℤ) → 0 < length ks → length ks ≤ 3 → value.now ≡ Value.IntSeq ks → result ≡ State.Ints ks }
    ensures within { IsWritten value.now → FitsState result }
{
    match value {
        Value::IntSeq(numbers) => if 0 < numbers.len() && numbers.len() <= 3 {
            State::Ints(Few::of(alloc, numbers.as_slice()))
        } else {
            State::Empty
        },
        _ => State::Empty,
    }
}

// The numbers that are left of the line, one to three.
fn ints(alloc: Global, front: &mut Front<'_>) -> Result<State, NoMemory>
    ensures read { (ks : List ℤ) (rest : List ℕ) → FitsState (State.Ints ks) → front.old ≡ fields_text (map signed_decimal ks) ++ 10 ∷ rest → IfOk result (λ own. (own ≡ State.Ints ks) × (front.new ≡ 10 ∷ rest)) }
    ensures within { IfOk result FitsState }
    ensures shorter { length front.new ≤ length front.old }
{
    let value = items(alloc, Kind::IntSeq, front)?;
    Ok(ints_in(alloc, &value))
}

// The texts of the value, one or more.
fn texts_in(value: Value) -> State
    ensures read { (ts : List (List ℕ)) → 0 < length ts → value ≡ Value.StrSeq ts → result ≡ State.Texts ts }
    ensures within { IsWritten value → FitsState result }
{
    match value {
        Value::StrSeq(texts) => if texts.is_empty() {
            State::Empty
        } else {
            State::Texts(texts)
        },
        _ => State::Empty,
    }
}

// The texts that are left of the line, one or more.
fn texts(alloc: Global, front: &mut Front<'_>) -> Result<State, NoMemory>
    ensures read { (ts : List (List ℕ)) (rest : List ℕ) → FitsState (State.Texts ts) → front.old ≡ fields_text ts ++ 10 ∷ rest → IfOk result (λ own. (own ≡ State.Texts ts) × (front.new ≡ 10 ∷ rest)) }
    ensures within { IfOk result FitsState }
    ensures shorter { length front.new ≤ length front.old }
{
    let value = items(alloc, Kind::StrSeq, front)?;
    Ok(texts_in(value))
}

// The truth value of the value.
fn truth_in(value: &Value) -> State
    ensures read { (b : Bool) → value.now ≡ Value.Bool b → result ≡ State.Truth b }
    ensures within { FitsState result }
{
    match value {
        Value::Bool(truth) => State::Truth(*truth),
        _ => State::Empty,
    }
}

// The truth value that is left of the line.
fn truth(alloc: Global, front: &mut Front<'_>) -> Result<State, NoMemory>
    ensures read { (b : Bool) (rest : List ℕ) → front.old ≡ fields_text (bool_text b ∷ []) ++ 10 ∷ rest → IfOk result (λ own. (own ≡ State.Truth b) × (front.new ≡ 10 ∷ rest)) }
    ensures within { IfOk result FitsState }
    ensures shorter { length front.new ≤ length front.old }
{
    let value = front.value(alloc, Kind::Bool)?;
    Ok(truth_in(&value))
}

// The hash code of the value.
fn code_in(value: &Value) -> State
    ensures read { (h : ℕ) → value.now ≡ Value.Hash h → result ≡ State.Code h }
    ensures within { IsWritten value.now → FitsState result }
{
    match value {
        Value::Hash(code) => State::Code(*code),
        _ => State::Empty,
    }
}

// The hash code that is left of the line.
fn code(alloc: Global, front: &mut Front<'_>) -> Result<State, NoMemory>
    ensures read { (h : ℕ) (rest : List ℕ) → h < 2 ^ 64 → front.old ≡ fields_text (hash_text h ∷ []) ++ 10 ∷ rest → IfOk result (λ own. (own ≡ State.Code h) × (front.new ≡ 10 ∷ rest)) }
    ensures within { IfOk result FitsState }
    ensures shorter { length front.new ≤ length front.old }
{
    let value = front.value(alloc, Kind::Hash)?;
    Ok(code_in(&value))
}

// The least and the greatest of points on a line.
fn span(front: &mut Front<'_>) -> State
    ensures read { (x1 y1 z1 x2 y2 z2 : ℤ) (rest : List ℕ) → FitsState (State.Span x1 y1 z1 x2 y2 z2) → front.old ≡ fields_text (told_fields (State.Span x1 y1 z1 x2 y2 z2)) ++ 10 ∷ rest → (result ≡ State.Span x1 y1 z1 x2 y2 z2) × (front.new ≡ 10 ∷ rest) }
    ensures within { FitsState result }
    ensures shorter { length front.new ≤ length front.old }
{
    let x1 = front.integer();
    let y1 = front.integer();
    let z1 = front.integer();
    let x2 = front.integer();
    let y2 = front.integer();
    let z2 = front.integer();
    State::Span {
        x1,
        y1,
        z1,
        x2,
        y2,
        z2,
    }
}

fn straight(front: &mut Front<'_>) -> State
    ensures read { (a b c : ℤ) (rest : List ℕ) → FitsState (State.Straight a b c) → front.old ≡ fields_text (told_fields (State.Straight a b c)) ++ 10 ∷ rest → (result ≡ State.Straight a b c) × (front.new ≡ 10 ∷ rest) }
    ensures within { FitsState result }
    ensures shorter { length front.new ≤ length front.old }
{
    let a = front.wide();
    let b = front.wide();
    let c = front.wide();
    State::Straight { a, b, c }
}

fn plane(front: &mut Front<'_>) -> State
    ensures read { (a b c d : ℤ) (rest : List ℕ) → FitsState (State.Plane a b c d) → front.old ≡ fields_text (told_fields (State.Plane a b c d)) ++ 10 ∷ rest → (result ≡ State.Plane a b c d) × (front.new ≡ 10 ∷ rest) }
    ensures within { FitsState result }
    ensures shorter { length front.new ≤ length front.old }
{
    let a = front.wide();
    let b = front.wide();
    let c = front.wide();
    let d = front.wide();
    State::Plane { a, b, c, d }
}

fn modulus(front: &mut Front<'_>) -> State
    ensures read { (m r : ℕ) (rest : List ℕ) → FitsState (State.Modulus m r) → front.old ≡ fields_text (told_fields (State.Modulus m r)) ++ 10 ∷ rest → (result ≡ State.Modulus m r) × (front.new ≡ 10 ∷ rest) }
    ensures within { FitsState result }
    ensures shorter { length front.new ≤ length front.old }
{
    let m = front.natural();
    let r = front.natural();
    State::Modulus { m, r }
}

fn spot(front: &mut Front<'_>) -> State
    ensures read { (x y : ℤ) (rest : List ℕ) → FitsState (State.Spot x y) → front.old ≡ fields_text (told_fields (State.Spot x y)) ++ 10 ∷ rest → (result ≡ State.Spot x y) × (front.new ≡ 10 ∷ rest) }
    ensures within { FitsState result }
    ensures shorter { length front.new ≤ length front.old }
{
    let x = front.integer();
    let y = front.integer();
    State::Spot { x, y }
}

// What the state tells behind its word.
fn state_of_word(alloc: Global, word: Word, front: &mut Front<'_>) -> Result<State, NoMemory>
    ensures read { (s : States) (rest : List ℕ) → word ≡ state_word s → FitsState s → front.old ≡ fields_text (told_fields s) ++ 10 ∷ rest → IfOk result (λ own. (own ≡ s) × (front.new ≡ 10 ∷ rest)) }
    ensures within { IfOk result FitsState }
    ensures shorter { length front.new ≤ length front.old }
{
    match word {
        Word::Empty => Ok(State::Empty),
        Word::Holds => Ok(State::Holds),
        Word::Least => Ok(State::Least(front.integer())),
        Word::Greatest => Ok(State::Greatest(front.integer())),
        Word::Ints => ints(alloc, front),
        Word::Truth => truth(alloc, front),
        Word::Code => code(alloc, front),
        Word::Texts => texts(alloc, front),
        Word::One => Ok(State::One(front.integer())),
        Word::Modulus => Ok(modulus(front)),
        Word::Spot => Ok(spot(front)),
        Word::Straight => Ok(straight(front)),
        Word::Span => Ok(span(front)),
        Word::Plane => Ok(plane(front)),
        Word::Offset => Ok(State::Offset { k: front.wide() }),
        Word::Other => {
            front.give_up();
            Ok(State::Empty)
        }
    }
}

/// The state whose fields are left of the line.
pub(crate) fn state(alloc: Global, front: &mut Front<'_>) -> Result<State, NoMemory>
    ensures read { (s : States) (rest : List ℕ) → FitsState s → front.old ≡ fields_text (state_fields s) ++ 10 ∷ rest → IfOk result (λ own. (own ≡ s) × (front.new ≡ 10 ∷ rest)) }
    ensures within { IfOk result FitsState }
    ensures shorter { length front.new ≤ length front.old - 1 }
{
    let word = word_in(front.field());
    state_of_word(alloc, word, front)
}
