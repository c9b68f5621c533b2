// A line of a report as an object.
ghost use Rattle.std.specs.Prelude.{◌≡◌, ◌∷◌, IfOk, OnOk, None, Some, flat_map, slice_get};
ghost use Rattle.json.specs.Json.{document};
ghost use Rattle.json.specs.Token.{begin_object};
ghost use Rattle.json.specs.Tree.{json_tokens};
ghost use Rattle.dk_json.specs.Lines.{claimed_fields, instance_fields, line_json, name_in, names_json, said_fields, written};
ghost use Rattle.dk_json.specs.Texts.{text_json};
ghost use Rattle.dk_json.specs.Trees.{Adds, fields_tokens};

use crate::fields::{push_optional_field, push_text_field};
use crate::rows::name_of;
use crate::states::push_state;
use crate::texts::push_text;
use dk_base::{NoMemory, VarId, VarInfo};
use dk_template::{RowId, State};
use json::Writer;
use std::alloc::Global;

/// A line of a report: what is claimed of which point, and of how many samples it tells, if it does.
#[derive(Clone, Copy, Debug)]
pub struct Claimed<'a> {
    /// The point's name.
    pub point: &'a [u8],
    /// The text, without the number of samples.
    pub text: &'a [u8],
    /// The number of samples that stands behind the text.
    pub samples: Option<u64>,
}

/// What a text says: a row over variables of a point, and their state.
#[derive(Clone, Copy, Debug)]
pub struct Instance<'a> {
    /// The row of the grammar.
    pub row: RowId,
    /// The variables of the point.
    pub infos: &'a [VarInfo],
    /// The variables that the row is over, by role.
    pub vars: &'a [VarId],
    /// The state of the instance.
    pub state: &'a State,
}

// The name of a variable; no bytes where it isn't there.
fn name_at(infos: &[VarInfo], var: VarId) -> &[u8]
    ensures { result.now ≡ name_in (slice_get infos.now var.0) }
{
    match infos.get(var.0 as usize) {
        Some(info) => info.name.as_slice(),
        None => b"",
    }
}

// Each name, behind the others.
fn push_each_name(writer: &mut Writer, infos: &[VarInfo], vars: &[VarId]) -> Result<(), NoMemory>
    ensures { OnOk result (Adds writer.old writer.new (flat_map (λ v. json_tokens (text_json (name_in (slice_get infos.now v.0)))) vars.now)) }
{
    for var in vars {
        push_text(writer, name_at(infos, *var))?;
    }
    Ok(())
}

// The names of the variables as an array.
fn push_names(writer: &mut Writer, infos: &[VarInfo], vars: &[VarId]) -> Result<(), NoMemory>
    ensures { OnOk result (Adds writer.old writer.new (json_tokens (names_json infos.now vars.now))) }
{
    writer.begin_array()?;
    push_each_name(writer, infos, vars)?;
    writer.end_array()?;
    Ok(())
}

// The point, the text and the number of samples, behind the bracket that opens the object.
fn push_claimed(writer: &mut Writer, claimed: Claimed<'_>) -> Result<(), NoMemory>
    ensures { OnOk result (Adds writer.old writer.new (begin_object ∷ fields_tokens (claimed_fields claimed.entry))) }
{
    writer.begin_object()?;
    push_text_field(writer, "point", claimed.point)?;
    push_text_field(writer, "text", claimed.text)?;
    push_optional_field(writer, "samples", claimed.samples)
}

// What the text says.
fn push_instance(writer: &mut Writer, instance: Instance<'_>) -> Result<(), NoMemory>
    ensures { OnOk result (Adds writer.old writer.new (fields_tokens (instance_fields instance.entry))) }
{
    writer.key("row")?;
    writer.string(name_of(instance.row))?;
    writer.key("variables")?;
    push_names(writer, instance.infos, instance.vars)?;
    writer.key("state")?;
    push_state(writer, instance.state)
}

// That no instance has the text.
fn push_no_instance(writer: &mut Writer) -> Result<(), NoMemory>
    ensures { OnOk result (Adds writer.old writer.new (fields_tokens (said_fields None))) }
{
    writer.key("row")?;
    writer.null()?;
    writer.key("variables")?;
    writer.begin_array()?;
    writer.end_array()?;
    writer.key("state")?;
    writer.begin_object()?;
    writer.end_object()?;
    Ok(())
}

// What the text says, if an instance has it.
fn push_said(writer: &mut Writer, said: Option<Instance<'_>>) -> Result<(), NoMemory>
    ensures { OnOk result (Adds writer.old writer.new (fields_tokens (said_fields said.entry))) }
{
    match said {
        Some(instance) => push_instance(writer, instance),
        None => push_no_instance(writer),
    }
}

/// A line of a report as an object of JSON, with the keys `point`, `text`, `samples`, `row`, `variables` and `state`, in this order and
/// without blanks (RFC 8259). `said` is the instance that has the text; where none has it, `row` is null. `state` has the parameters of the
/// state by their names. A text that is no UTF-8 is the list of its bytes. What a reader of JSON reads of it is exactly this value.
pub fn line(
    alloc: Global,
    claimed: Claimed<'_>,
    said: Option<Instance<'_>>,
) -> Result<Vec<u8>, NoMemory>
    ensures text { IfOk result (λ bytes. bytes.items ≡ written (line_json claimed.entry said.entry)) }
    ensures reads_back { IfOk result (λ bytes. document bytes.items ≡ Some (line_json claimed.entry said.entry)) }
{
    let mut writer = Writer::new(Vec::new(alloc));
    push_claimed(&mut writer, claimed)?;
    push_said(&mut writer, said)?;
    writer.end_object()?;
    Ok(writer.into_inner())
}
