// The texts of instances.
ghost use Rattle.std.specs.Prelude.{◌≡◌, ◌++◌, ◌==◌, IfOk, OnOk, codes, flat_map, if◌then◌else◌};
ghost use Rattle.dk_filters.specs.Facts.{info_at};
ghost use Rattle.dk_print.specs.Parts.{name_at, part_text};
ghost use Rattle.dk_print.specs.Shown.{part_shown};
ghost use Rattle.dk_print.specs.Texts.{instance_text, var_names};

use crate::parts::{Part, parts_of};
use crate::states::{
    bound_in, code_in, constant_in, factor_at, modulus_in, offset_in, remainder_in,
};
use crate::terms::{push_constant, push_step, push_term, push_times};
use crate::values::push_known;
use dk_base::{NoMemory, Text, VarId, VarInfo};
use dk_template::{RowId, State};
use std::alloc::Global;

// The name of a variable; no bytes where it isn't there.
fn name_of(vars: &[VarInfo], var: VarId) -> &[u8]
    ensures { result.now ≡ (info_at vars.now var).name }
{
    match vars.get(var.0 as usize) {
        Some(info) => info.name.as_slice(),
        None => b"",
    }
}

// The name of the variable at a role; no bytes where there is none.
fn name_at<'a>(vars: &'a [VarInfo], tuple: &[VarId], role: usize) -> &'a [u8]
    ensures { result.now ≡ name_at (var_names vars.now tuple.now) role }
{
    match tuple.get(role) {
        Some(var) => name_of(vars, *var),
        None => b"",
    }
}

// That the code is null, or these bytes, behind the text.
fn push_null_or(text: &mut Text, code: u64, bytes: &[u8]) -> Result<(), NoMemory>
    ensures { OnOk result (text.new ≡ text.old ++ (if code == 0 then codes " == null" else bytes.now)) }
{
    if code == 0 {
        text.append(b" == null")
    } else {
        text.append(bytes)
    }
}

// What the part says, behind the text.
fn push_part(
    text: &mut Text,
    part: Part,
    vars: &[VarInfo],
    tuple: &[VarId],
    state: &State,
) -> Result<(), NoMemory>
    ensures { OnOk result (text.new ≡ text.old ++ part_text (var_names vars.now tuple.now) state.now (part_shown part)) }
{
    match part {
        Part::Word(bytes) => text.append(bytes),
        Part::Named(role) => text.append(name_at(vars, tuple, role)),
        Part::Bound => text.append_number(bound_in(state)),
        Part::Values => push_known(text, state),
        Part::NullOr(bytes) => push_null_or(text, code_in(state), bytes),
        Part::Remainder => text.append_number(remainder_in(state)),
        Part::Modulus => text.append_number(modulus_in(state)),
        Part::Lead(role) => {
            let factor = factor_at(state, role).unsigned_abs();
            push_times(text, factor, name_at(vars, tuple, role))
        }
        Part::Term(role) => { push_term(text, factor_at(state, role), name_at(vars, tuple, role)) }
        Part::Constant => push_constant(text, constant_in(state)),
        Part::Step => push_step(text, offset_in(state)),
    }
}

// What the parts say, behind the text.
fn push_parts(
    text: &mut Text,
    parts: &[Part],
    vars: &[VarInfo],
    tuple: &[VarId],
    state: &State,
) -> Result<(), NoMemory>
    ensures { OnOk result (text.new ≡ text.old ++ flat_map (λ p. part_text (var_names vars.now tuple.now) state.now (part_shown p)) parts.now) }
{
    for part in parts {
        push_part(text, *part, vars, tuple, state)?;
    }
    Ok(())
}

/// The text of an instance, behind the text: `row` over the variables `tuple` of `vars`, with this state. It is the row's line of the
/// table of texts, with the variables' names as they are and decimal numbers. A row that isn't of the table has no text, a variable
/// that isn't there no name, and a number that the state doesn't have is 0. After an error the text may hold a part of it.
pub fn push_instance(
    text: &mut Text,
    row: RowId,
    vars: &[VarInfo],
    tuple: &[VarId],
    state: &State,
) -> Result<(), NoMemory>
    ensures { OnOk result (text.new ≡ text.old ++ instance_text vars.now row tuple.now state.now) }
{
    push_parts(text, parts_of(row), vars, tuple, state)
}

/// The text of an instance, as `push_instance` writes it.
pub fn instance(
    alloc: Global,
    row: RowId,
    vars: &[VarInfo],
    tuple: &[VarId],
    state: &State,
) -> Result<Text, NoMemory>
    ensures { IfOk result (λ text. text ≡ instance_text vars.now row tuple.now state.now) }
{
    let mut text = Text::new(alloc);
    push_instance(&mut text, row, vars, tuple, state)?;
    Ok(text)
}
