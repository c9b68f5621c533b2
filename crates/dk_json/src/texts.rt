// Bytes, numbers and lists as JSON.
ghost use Rattle.std.specs.Prelude.{◌≡◌, OnOk, flat_map, map};
ghost use Rattle.json.specs.Json.{Json, array, boolean};
ghost use Rattle.json.specs.Tree.{json_tokens};
ghost use Rattle.dk_json.specs.Texts.{natural_json, number_json, optional_json, text_json};
ghost use Rattle.dk_json.specs.Trees.{Adds, items_of};

use dk_base::{NoMemory, Text};
use itoa::Buffer;
use json::Writer;

/// The number, behind the others.
pub(crate) fn push_number(writer: &mut Writer, number: i128) -> Result<(), NoMemory>
    ensures { OnOk result (Adds writer.old writer.new (json_tokens (number_json number))) }
{
    let mut buffer = Buffer::new();
    writer.number(buffer.format(number))?;
    Ok(())
}

/// The number, behind the others.
pub(crate) fn push_natural(writer: &mut Writer, number: u64) -> Result<(), NoMemory>
    ensures { OnOk result (Adds writer.old writer.new (json_tokens (natural_json number))) }
{
    writer.u64(number)?;
    Ok(())
}

/// The number or null, behind the others.
pub(crate) fn push_optional(writer: &mut Writer, number: Option<u64>) -> Result<(), NoMemory>
    ensures { OnOk result (Adds writer.old writer.new (json_tokens (optional_json number))) }
{
    match number {
        Some(number) => push_natural(writer, number),
        None => {
            writer.null()?;
            Ok(())
        }
    }
}

/// What is told as a value of JSON.
pub(crate) trait Told {
    ghost json_of: { Self → Json };

    fn push_to(&self, writer: &mut Writer) -> Result<(), NoMemory>
        ensures { OnOk result (Adds writer.old writer.new (json_tokens (json_of self.now))) };
}

impl Told for i64 {
    ghost json_of = { number_json };

    fn push_to(&self, writer: &mut Writer) -> Result<(), NoMemory> {
        push_number(writer, i128::from(*self))
    }
}

impl Told for u8 {
    ghost json_of = { natural_json };

    fn push_to(&self, writer: &mut Writer) -> Result<(), NoMemory> {
        push_natural(writer, u64::from(*self))
    }
}

impl Told for bool {
    ghost json_of = { boolean };

    fn push_to(&self, writer: &mut Writer) -> Result<(), NoMemory> {
        writer.boolean(*self)?;
        Ok(())
    }
}

impl Told for Text {
    ghost json_of = { text_json };

    fn push_to(&self, writer: &mut Writer) -> Result<(), NoMemory> {
        push_text(writer, self.as_slice())
    }
}

// Each item, behind the others.
fn push_each<T: Told>(writer: &mut Writer, items: &[T]) -> Result<(), NoMemory>
    ensures { OnOk result (Adds writer.old writer.new (flat_map (λ x. json_tokens (T.json_of x)) items.now)) }
{
    for item in items {
        item.push_to(writer)?;
    }
    Ok(())
}

/// The items as an array, behind the others.
pub(crate) fn push_items<T: Told>(writer: &mut Writer, items: &[T]) -> Result<(), NoMemory>
    ensures { OnOk result (Adds writer.old writer.new (json_tokens (array (items_of (map T.json_of items.now))))) }
{
    writer.begin_array()?;
    push_each(writer, items)?;
    writer.end_array()?;
    Ok(())
}

/// The bytes as a string, behind the others; bytes that are no UTF-8 are the list of their numbers.
pub(crate) fn push_text(writer: &mut Writer, bytes: &[u8]) -> Result<(), NoMemory>
    ensures { OnOk result (Adds writer.old writer.new (json_tokens (text_json bytes.now))) }
{
    match std::str::from_utf8(bytes) {
        Ok(text) => {
            writer.string(text)?;
            Ok(())
        }
        Err(_) => push_items(writer, bytes),
    }
}
