// The state that was found.
ghost use Rattle.std.specs.Prelude.{◌≡◌, ◌<◌, ◌≤◌, ◌^◌, ℕ, ℤ, Bool, IfOk, IfSome, IsTrue, List, Some, bytes_eq, drop, if◌then◌else◌, length, pos};
ghost use Rattle.std.specs.List.{list_all};
ghost use Rattle.dk_base.specs.Numbers.{fits_i64};
ghost use Rattle.dk_forms.specs.declared.states.State.{State as SomeState};
ghost use Rattle.dk_print.specs.Parts.{known_text};
ghost use Rattle.dk_template.specs.Fitting.{fits};
ghost use Rattle.dk_template.specs.Proper.{IsProper};
ghost use Rattle.dk_expr.specs.Held.{is_held};
ghost use Rattle.dk_expr.specs.Readable.{says_null};
ghost use Rattle.dk_expr.specs.Telling.{Tells, printed_state};

use crate::found::Parsed;
use crate::values::{ints_of, values_in};
use dk_base::{NoMemory, in_i64, in_u64};
use dk_template::{State, StateForm};
use std::alloc::Global;

// The bytes from this place on.
fn bytes_from(text: &[u8], place: usize) -> &[u8]
    ensures { result.now ≡ drop place text.now }
{
    &text[place.min(text.len())..]
}

// Whether the bytes are this word.
fn is_word(bytes: &[u8], word: &[u8]) -> bool
    ensures { result ≡ bytes_eq bytes.now word.now }
{
    bytes == word
}

// A least value.
fn least(bound: i128) -> Option<State>
    ensures read { IsTrue (fits_i64 bound) → result ≡ Some (State.Least bound) }
    ensures held { IfSome result (λ s. IsTrue (is_held s)) }
{
    let least = in_i64(bound)?;
    Some(State::Least(least))
}

// A greatest value.
fn greatest(bound: i128) -> Option<State>
    ensures read { IsTrue (fits_i64 bound) → result ≡ Some (State.Greatest bound) }
    ensures held { IfSome result (λ s. IsTrue (is_held s)) }
{
    let greatest = in_i64(bound)?;
    Some(State::Greatest(greatest))
}

// A truth value.
fn truth(bytes: &[u8]) -> Option<State>
    ensures read { (b : Bool) → bytes.now ≡ known_text (State.Truth b) → result ≡ Some (State.Truth b) }
    ensures held { IfSome result (λ s. IsTrue (is_held s)) }
{
    if is_word(bytes, b" == true") {
        Some(State::Truth(true))
    } else if is_word(bytes, b" == false") {
        Some(State::Truth(false))
    } else {
        None
    }
}

// A hash code: null, or any other one.
fn code(bytes: &[u8]) -> State
    ensures { result ≡ State.Code (if says_null bytes.now then 0 else 1) }
{
    if is_word(bytes, b" == null") {
        State::Code(0)
    } else {
        State::Code(1)
    }
}

// The state of the whole numbers that a text lists.
fn ints(alloc: Global, bytes: &[u8]) -> Result<Option<State>, NoMemory>
    ensures read { IfOk result (λ state. (ks : List ℤ) → IsTrue (list_all fits_i64 ks) → 1 ≤ length ks → length ks ≤ 3 → bytes.now ≡ known_text (State.Ints ks) → state ≡ Some (State.Ints ks)) }
    ensures held { IfOk result (λ state. IfSome state (λ s. IsTrue (is_held s))) }
{
    let texts = values_in(alloc, bytes)?;
    Ok(match ints_of(alloc, texts.as_slice()) {
        Some(few) => Some(State::Ints(few)),
        None => None,
    })
}

// A modulus with its remainder.
fn modulus(m: i128, r: i128) -> Option<State>
    ensures read { (n k : ℕ) → n < 2 ^ 64 → k < 2 ^ 64 → m ≡ pos n → r ≡ pos k → result ≡ Some (State.Modulus n k) }
    ensures held { IfSome result (λ s. IsTrue (is_held s)) }
{
    let m = in_u64(m)?;
    let r = in_u64(r)?;
    Some(State::Modulus { m, r })
}

/// The state of this form that was found in the text, if there is one.
pub(crate) fn state_of(
    alloc: Global,
    form: StateForm,
    text: &[u8],
    found: Parsed,
) -> Result<Option<State>, NoMemory>
    ensures told { IfOk result (λ state. (s : SomeState) → IsProper form s → IsTrue (fits s) → IsTrue (is_held s) → Tells text.now found s → state ≡ Some (printed_state s)) }
    ensures held { IfOk result (λ state. IfSome state (λ s. IsTrue (is_held s))) }
{
    let values = bytes_from(text, found.values);
    Ok(match form {
        StateForm::Plain => Some(State::Holds),
        StateForm::Least => least(found.bound),
        StateForm::Greatest => greatest(found.bound),
        StateForm::Ints => ints(alloc, values)?,
        StateForm::Truth => truth(values),
        StateForm::Code => Some(code(bytes_from(text, found.code))),
        StateForm::Texts => Some(State::Texts(values_in(alloc, values)?)),
        StateForm::Modulus => modulus(found.modulus, found.remainder),
        StateForm::Line => Some(State::Straight {
            a: found.first_factor,
            b: found.second_factor,
            c: found.constant,
        }),
        StateForm::Plane => Some(State::Plane {
            a: found.first_factor,
            b: found.second_factor,
            c: found.third_factor,
            d: found.constant,
        }),
        StateForm::Offset => Some(State::Offset { k: found.offset }),
    })
}
