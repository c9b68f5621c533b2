// Values that are kept, beside the views of a sample.
ghost use Rattle.std.specs.Prelude.{◌≡◌, ◌↔◌, IfOk, IsTrue, map};
ghost use Rattle.dk_base.specs.Values.{value_of};

use dk_base::{List, NoMemory, Text, Value, VarId, View, same_items};
use std::alloc::Global;

// Whether the two lists have the same texts.
fn same_texts(a: &[&[u8]], b: &[Text]) -> bool
    ensures { IsTrue result ↔ (map (λ t. t.now) a.now ≡ b.now) }
{
    if a.len() != b.len() {
        return false;
    }
    for (i, text) in b.iter().enumerate() {
        if !same_items(a[i], text.as_slice()) {
            return false;
        }
    }
    true
}

/// Whether the view shows this value.
pub(crate) fn shows(view: View<'_>, value: &Value) -> bool
    ensures { IsTrue result ↔ (value_of view.entry ≡ value.now) }
{
    match view {
        View::Missing => matches!(value, Value::Missing),
        View::Bool(x) => match value {
            Value::Bool(y) => x == *y,
            _ => false,
        },
        View::Int(x) => match value {
            Value::Int(y) => x == *y,
            _ => false,
        },
        View::Hash(x) => match value {
            Value::Hash(y) => x == *y,
            _ => false,
        },
        View::Str(x) => match value {
            Value::Str(y) => same_items(x, y.as_slice()),
            _ => false,
        },
        View::BoolSeq(x) => match value {
            Value::BoolSeq(y) => same_items(x, y.as_slice()),
            _ => false,
        },
        View::IntSeq(x) => match value {
            Value::IntSeq(y) => same_items(x, y.as_slice()),
            _ => false,
        },
        View::HashSeq(x) => match value {
            Value::HashSeq(y) => same_items(x, y.as_slice()),
            _ => false,
        },
        View::StrSeq(x) => match value {
            Value::StrSeq(y) => same_texts(x, y.as_slice()),
            _ => false,
        },
    }
}

/// Copies of these entries.
pub(crate) fn copies(
    alloc: Global,
    known: &[(VarId, Value)],
) -> Result<Vec<(VarId, Value)>, NoMemory>
    ensures { IfOk result (λ all. all.items ≡ known.now) }
{
    let mut all = Vec::new(alloc);
    for (v, value) in known {
        all.push((*v, value.copy(alloc)?))?;
    }
    Ok(all)
}
