// States, as they are saved.
ghost use Rattle.std.specs.Prelude.{◌≡◌, ◌++◌, OnOk, map};
ghost use Rattle.std.specs.Fmt.{signed_decimal};
ghost use Rattle.dk_base.specs.Values.Spelling.{bool_text, hash_text};
ghost use Rattle.dk_state.specs.Lines.{behind_blank, fields_text};
ghost use Rattle.dk_state.specs.States.{state_fields};

use crate::fields::{push_field, push_number, push_value};
use dk_base::{NoMemory, Text, Value};
use dk_template::State;
use std::alloc::Global;

fn push_numbers(text: &mut Text, numbers: &[i64]) -> Result<(), NoMemory>
    ensures { OnOk result (text.new ≡ text.old ++ fields_text (map signed_decimal numbers.now)) }
{
    for number in numbers {
        push_number(text, *number)?;
    }
    Ok(())
}

fn push_texts(text: &mut Text, texts: &[Text]) -> Result<(), NoMemory>
    ensures { OnOk result (text.new ≡ text.old ++ fields_text texts.now) }
{
    for item in texts {
        push_field(text, item.as_slice())?;
    }
    Ok(())
}

// The coordinates of a point.
fn push_place(text: &mut Text, x: i64, y: i64, z: i64) -> Result<(), NoMemory>
    ensures { OnOk result (text.new ≡ text.old ++ (behind_blank (signed_decimal x) ++ (behind_blank (signed_decimal y) ++ behind_blank (signed_decimal z)))) }
{
    push_number(text, x)?;
    push_number(text, y)?;
    push_number(text, z)
}

// The factors of a line or a plane.
fn push_factors(text: &mut Text, a: i128, b: i128, c: i128) -> Result<(), NoMemory>
    ensures { OnOk result (text.new ≡ text.old ++ (behind_blank (signed_decimal a) ++ (behind_blank (signed_decimal b) ++ behind_blank (signed_decimal c)))) }
{
    push_number(text, a)?;
    push_number(text, b)?;
    push_number(text, c)
}

// The fields of the least and the greatest of points on a line.
fn push_span(
    text: &mut Text,
    x1: i64,
    y1: i64,
    z1: i64,
    x2: i64,
    y2: i64,
    z2: i64,
) -> Result<(), NoMemory>
    ensures { OnOk result (text.new ≡ text.old ++ fields_text (state_fields (State.Span x1 y1 z1 x2 y2 z2))) }
{
    text.append(b" span")?;
    push_place(text, x1, y1, z1)?;
    push_place(text, x2, y2, z2)
}

// The fields of a plane.
fn push_plane(text: &mut Text, a: i128, b: i128, c: i128, d: i128) -> Result<(), NoMemory>
    ensures { OnOk result (text.new ≡ text.old ++ fields_text (state_fields (State.Plane a b c d))) }
{
    text.append(b" plane")?;
    push_factors(text, a, b, c)?;
    push_number(text, d)
}

// A word and one number.
fn push_one(text: &mut Text, word: &[u8], number: i64) -> Result<(), NoMemory>
    ensures { OnOk result (text.new ≡ text.old ++ (behind_blank word.now ++ behind_blank (signed_decimal number))) }
{
    push_field(text, word)?;
    push_number(text, number)
}

/// The fields of the state, behind the text.
pub(crate) fn push_state(alloc: Global, text: &mut Text, state: &State) -> Result<(), NoMemory>
    ensures { OnOk result (text.new ≡ text.old ++ fields_text (state_fields state.now)) }
{
    match state {
        State::Empty => push_field(text, b"empty"),
        State::Broken => push_field(text, b"broken"),
        State::Holds => push_field(text, b"holds"),
        State::Least(bound) => push_one(text, b"least", *bound),
        State::Greatest(bound) => push_one(text, b"greatest", *bound),
        State::Ints(values) => {
            push_field(text, b"ints")?;
            push_numbers(text, values.as_slice())
        }
        State::Truth(truth) => {
            push_field(text, b"truth")?;
            push_value(alloc, text, &Value::Bool(*truth))
        }
        State::Code(code) => {
            push_field(text, b"code")?;
            push_value(alloc, text, &Value::Hash(*code))
        }
        State::Texts(texts) => {
            push_field(text, b"texts")?;
            push_texts(text, texts.as_slice())
        }
        State::One(value) => push_one(text, b"one", *value),
        State::Modulus { m, r } => {
            push_field(text, b"modulus")?;
            push_number(text, *m)?;
            push_number(text, *r)
        }
        State::Spot { x, y } => {
            push_field(text, b"spot")?;
            push_number(text, *x)?;
            push_number(text, *y)
        }
        State::Straight { a, b, c } => {
            push_field(text, b"straight")?;
            push_factors(text, *a, *b, *c)
        }
        State::Span {
            x1,
            y1,
            z1,
            x2,
            y2,
            z2,
        } => push_span(text, *x1, *y1, *z1, *x2, *y2, *z2),
        State::Plane { a, b, c, d } => push_plane(text, *a, *b, *c, *d),
        State::Offset { k } => {
            push_field(text, b"offset")?;
            push_number(text, *k)
        }
    }
}
