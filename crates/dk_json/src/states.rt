// What a state says.
ghost use Rattle.std.specs.Prelude.{OnOk};
ghost use Rattle.json.specs.Tree.{json_tokens};
ghost use Rattle.dk_json.specs.States.{state_fields, state_json};
ghost use Rattle.dk_json.specs.Trees.{Adds, fields_tokens};

use crate::fields::{push_items_field, push_natural_field, push_number_field};
use dk_base::NoMemory;
use dk_template::State;
use json::Writer;

// A modulus and a remainder.
fn push_modulus(writer: &mut Writer, modulus: u64, remainder: u64) -> Result<(), NoMemory>
    ensures { OnOk result (Adds writer.old writer.new (fields_tokens (state_fields (State.Modulus modulus remainder)))) }
{
    push_natural_field(writer, "modulus", modulus)?;
    push_natural_field(writer, "remainder", remainder)
}

// The numbers of a line.
fn push_line(writer: &mut Writer, a: i128, b: i128, c: i128) -> Result<(), NoMemory>
    ensures { OnOk result (Adds writer.old writer.new (fields_tokens (state_fields (State.Straight a b c)))) }
{
    push_number_field(writer, "a", a)?;
    push_number_field(writer, "b", b)?;
    push_number_field(writer, "c", c)
}

// The numbers of a plane.
fn push_plane(writer: &mut Writer, a: i128, b: i128, c: i128, d: i128) -> Result<(), NoMemory>
    ensures { OnOk result (Adds writer.old writer.new (fields_tokens (state_fields (State.Plane a b c d)))) }
{
    push_line(writer, a, b, c)?;
    push_number_field(writer, "d", d)
}

// The parameters of the state.
fn push_parameters(writer: &mut Writer, state: &State) -> Result<(), NoMemory>
    ensures { OnOk result (Adds writer.old writer.new (fields_tokens (state_fields state.now))) }
{
    match state {
        State::Least(number) => push_number_field(writer, "least", i128::from(*number)),
        State::Greatest(number) => push_number_field(writer, "greatest", i128::from(*number)),
        State::Ints(numbers) => push_items_field(writer, "values", numbers.as_slice()),
        State::Truth(truth) => push_items_field(writer, "values", &[*truth]),
        State::Texts(texts) => push_items_field(writer, "values", texts.as_slice()),
        State::Code(code) => push_natural_field(writer, "code", *code),
        State::Modulus { m, r } => push_modulus(writer, *m, *r),
        State::Straight { a, b, c } => push_line(writer, *a, *b, *c),
        State::Plane { a, b, c, d } => push_plane(writer, *a, *b, *c, *d),
        State::Offset { k } => push_number_field(writer, "offset", *k),
        _ => Ok(()),
    }
}

/// The parameters of the state, by their names, as an object.
pub(crate) fn push_state(writer: &mut Writer, state: &State) -> Result<(), NoMemory>
    ensures { OnOk result (Adds writer.old writer.new (json_tokens (state_json state.now))) }
{
    writer.begin_object()?;
    push_parameters(writer, state)?;
    writer.end_object()?;
    Ok(())
}
