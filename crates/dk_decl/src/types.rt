// Rep-types, and the constants that they take.
ghost use Rattle.std.specs.Prelude.{◌≡◌};
ghost use Rattle.dk_base.specs.Values.{value_of};
ghost use Rattle.dk_decl.specs.Outcomes.{AnswerAgrees};
ghost use Rattle.dk_decl.specs.Types.{constant_at, constant_of, is_missing, rep_kind, rep_type_of};

use crate::outcomes::{bad_variable, in_memory};
use dk_base::{Arena, BlockFault, Kind, Text, Value, ValueFault, View, parse_value, same_bytes};
use std::alloc::Global;

/// How a variable's values are represented: as values of one kind, or as texts that are read past.
#[derive(Clone, Copy)]
pub(crate) enum RepType {
    Of(Kind),
    Opaque,
}

/// A text at a line.
#[derive(Drop)]
pub(crate) struct Placed {
    pub(crate) line: u64,
    pub(crate) text: Text,
}

/// The rep-type of this name.
#[tactic(auto, unfolding(crate::specs::Types::rep_type_of))]
pub(crate) fn rep_type_of(text: &[u8]) -> Option<RepType>
    ensures { result ≡ rep_type_of text.now }
{
    if same_bytes(text, b"boolean") {
        Some(RepType::Of(Kind::Bool))
    } else if same_bytes(text, b"int") {
        Some(RepType::Of(Kind::Int))
    } else if same_bytes(text, b"hashcode") {
        Some(RepType::Of(Kind::Hash))
    } else if same_bytes(text, b"java.lang.String") || same_bytes(text, b"String") {
        Some(RepType::Of(Kind::Str))
    } else if same_bytes(text, b"boolean[]") {
        Some(RepType::Of(Kind::BoolSeq))
    } else if same_bytes(text, b"int[]") {
        Some(RepType::Of(Kind::IntSeq))
    } else if same_bytes(text, b"hashcode[]") {
        Some(RepType::Of(Kind::HashSeq))
    } else if same_bytes(text, b"java.lang.String[]") || same_bytes(text, b"String[]") {
        Some(RepType::Of(Kind::StrSeq))
    } else if same_bytes(text, b"double") || same_bytes(text, b"double[]") {
        Some(RepType::Opaque)
    } else {
        None
    }
}

/// The kind of the variable's values.
pub(crate) fn rep_kind(rep: RepType) -> Option<Kind>
    ensures { result ≡ rep_kind rep }
{
    match rep {
        RepType::Of(kind) => Some(kind),
        RepType::Opaque => None,
    }
}

fn is_missing(view: View<'_>) -> bool
    ensures { result ≡ is_missing (value_of view.entry) }
{
    matches!(view, View::Missing)
}

/// The value of a constant's text at this line.
#[tactic(auto, unfolding(crate::specs::Types::constant_of))]
fn constant_of(
    alloc: Global,
    rep: RepType,
    line: u64,
    text: &[u8],
) -> Result<Option<Value>, BlockFault>
    ensures { AnswerAgrees result (constant_of rep line text.now) }
{
    match rep {
        RepType::Opaque => Ok(None),
        RepType::Of(kind) => {
            let arena = Arena::new(alloc);
            match parse_value(&arena, kind, text) {
                Ok(view) => {
                    if is_missing(view) {
                        return Err(bad_variable(line));
                    }
                    let value = in_memory(Value::keep(alloc, view))?;
                    Ok(Some(value))
                }
                Err(ValueFault::Bad) => Err(bad_variable(line)),
                Err(ValueFault::NoMemory) => Err(BlockFault::NoMemory),
            }
        }
    }
}

/// The value of a constant's text where there is one.
#[tactic(auto, unfolding(crate::specs::Types::constant_at))]
pub(crate) fn constant_at(
    alloc: Global,
    rep: RepType,
    constant: &Option<Placed>,
) -> Result<Option<Value>, BlockFault>
    ensures { AnswerAgrees result (constant_at rep constant.now) }
{
    match constant {
        None => Ok(None),
        Some(constant) => constant_of(alloc, rep, constant.line, constant.text.as_slice()),
    }
}
