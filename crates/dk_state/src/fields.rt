// Fields of a line, each behind a blank, and the line's end.
ghost use Rattle.std.specs.Prelude.{◌≡◌, ◌++◌, OnOk, codes};
ghost use Rattle.dk_base.specs.Names.{escaped};
ghost use Rattle.dk_base.specs.Values.Spelling.{spelling};
ghost use Rattle.dk_state.specs.Lines.{behind_blank, fields_text, var_fields};

use dk_base::{Arena, NoMemory, Text, Value, VarId, spell};
use dk_write::push_escaped;
use itoa::Integer;
use std::alloc::Global;

/// The end of a line, behind the text.
pub(crate) fn end_line(text: &mut Text) -> Result<(), NoMemory>
    ensures { OnOk result (text.new ≡ text.old ++ codes "\n") }
{
    text.push(b'\n')
}

/// The field, behind the text.
pub(crate) fn push_field(text: &mut Text, field: &[u8]) -> Result<(), NoMemory>
    ensures { OnOk result (text.new ≡ text.old ++ behind_blank field.now) }
{
    text.push(b' ')?;
    text.append(field)
}

/// The number, behind the text.
pub(crate) fn push_number<I: Integer>(text: &mut Text, number: I) -> Result<(), NoMemory>
    ensures { OnOk result (text.new ≡ text.old ++ behind_blank (I.text number)) }
{
    text.push(b' ')?;
    text.append_number(number)
}

/// The variables by their places, behind the text.
pub(crate) fn push_vars(text: &mut Text, vars: &[VarId]) -> Result<(), NoMemory>
    ensures { OnOk result (text.new ≡ text.old ++ fields_text (var_fields vars.now)) }
{
    for v in vars {
        push_number(text, v.0)?;
    }
    Ok(())
}

/// The name as a field, behind the text.
pub(crate) fn push_name(text: &mut Text, name: &[u8]) -> Result<(), NoMemory>
    ensures { OnOk result (text.new ≡ text.old ++ behind_blank (escaped name.now)) }
{
    text.push(b' ')?;
    push_escaped(text, name)
}

/// The value as a field, behind the text.
pub(crate) fn push_value(alloc: Global, text: &mut Text, value: &Value) -> Result<(), NoMemory>
    ensures { OnOk result (text.new ≡ text.old ++ behind_blank (spelling value.now)) }
{
    let arena = Arena::new(alloc);
    let spelled = spell(alloc, value.place(&arena)?)?;
    push_field(text, spelled.as_slice())
}
