// Members of an object, one after another.
ghost use Rattle.std.specs.Prelude.{OnOk, map};
ghost use Rattle.json.specs.Json.{array};
ghost use Rattle.dk_json.specs.Texts.{natural_json, number_json, optional_json, text_json};
ghost use Rattle.dk_json.specs.Trees.{Adds, field_tokens, items_of};

use crate::texts::{Told, push_items, push_natural, push_number, push_optional, push_text};
use dk_base::NoMemory;
use json::Writer;

/// A text under a key.
pub(crate) fn push_text_field(writer: &mut Writer, key: &str, bytes: &[u8]) -> Result<(), NoMemory>
    ensures { OnOk result (Adds writer.old writer.new (field_tokens (key.now, text_json bytes.now))) }
{
    writer.key(key)?;
    push_text(writer, bytes)
}

/// A number under a key.
pub(crate) fn push_number_field(
    writer: &mut Writer,
    key: &str,
    number: i128,
) -> Result<(), NoMemory>
    ensures { OnOk result (Adds writer.old writer.new (field_tokens (key.now, number_json number))) }
{
    writer.key(key)?;
    push_number(writer, number)
}

/// A number under a key.
pub(crate) fn push_natural_field(
    writer: &mut Writer,
    key: &str,
    number: u64,
) -> Result<(), NoMemory>
    ensures { OnOk result (Adds writer.old writer.new (field_tokens (key.now, natural_json number))) }
{
    writer.key(key)?;
    push_natural(writer, number)
}

/// A number or null under a key.
pub(crate) fn push_optional_field(
    writer: &mut Writer,
    key: &str,
    number: Option<u64>,
) -> Result<(), NoMemory>
    ensures { OnOk result (Adds writer.old writer.new (field_tokens (key.now, optional_json number))) }
{
    writer.key(key)?;
    push_optional(writer, number)
}

/// A list of items under a key.
pub(crate) fn push_items_field<T: Told>(
    writer: &mut Writer,
    key: &str,
    items: &[T],
) -> Result<(), NoMemory>
    ensures { OnOk result (Adds writer.old writer.new (field_tokens (key.now, array (items_of (map T.json_of items.now))))) }
{
    writer.key(key)?;
    push_items(writer, items)
}
