// The value that a text writes.
ghost use Rattle.std.specs.Prelude.{◌≡◌, IfOk, Some, None};
ghost use Rattle.dk_base.specs.Values.{IsOfKind, value_of, value_of_text};
ghost use Rattle.dk_base.specs.Values.Spelling.{IsWritten};

use crate::values::items::{Item, bool_item, hash_item, int_item};
use crate::values::sequences::{sequence, text_sequence, text_value};
use crate::{Arena, Kind, NoMemory, View};
use thiserror::Error;

/// Why a text gives no value.
#[derive(Clone, Copy, Debug, PartialEq, Eq, Error)]
pub enum ValueFault {
    /// The text writes no value of the kind.
    #[error("no value of this kind")]
    Bad,
    /// Memory could not be had.
    #[error("out of memory")]
    NoMemory,
}

impl From<NoMemory> for ValueFault {
    ghost use Rattle.std.specs.Prelude.{◌≡◌};
    ghost use Rattle.dk_base.specs.declared.values.parsing.ValueFault.TheVariants as fault;

    ghost from_gives = { λ _ e. e ≡ fault.NoMemory };

    fn from(_: NoMemory) -> Self {
        ValueFault::NoMemory
    }
}

fn value_in<'a>(arena: &'a Arena, kind: Kind, text: &[u8]) -> Result<View<'a>, ValueFault>
    ensures value { IfOk result (λ view. value_of_text kind text.now ≡ Some (value_of view)) }
    ensures bad { result ≡ Err ValueFault.Bad → value_of_text kind text.now ≡ None }
{
    match kind {
        Kind::Bool => match bool_item(text) {
            Item::Bad => Err(ValueFault::Bad),
            Item::Missing => Ok(View::Missing),
            Item::Present(value) => Ok(View::Bool(value)),
        },
        Kind::Int => match int_item(text) {
            Item::Bad => Err(ValueFault::Bad),
            Item::Missing => Ok(View::Missing),
            Item::Present(value) => Ok(View::Int(value)),
        },
        Kind::Hash => match hash_item(text) {
            Item::Bad => Err(ValueFault::Bad),
            Item::Missing => Ok(View::Missing),
            Item::Present(value) => Ok(View::Hash(value)),
        },
        Kind::Str => match text_value(arena, text)? {
            Item::Bad => Err(ValueFault::Bad),
            Item::Missing => Ok(View::Missing),
            Item::Present(value) => Ok(View::Str(value)),
        },
        Kind::BoolSeq => match sequence::<bool>(arena, text)? {
            Item::Bad => Err(ValueFault::Bad),
            Item::Missing => Ok(View::Missing),
            Item::Present(value) => Ok(View::BoolSeq(value)),
        },
        Kind::IntSeq => match sequence::<i64>(arena, text)? {
            Item::Bad => Err(ValueFault::Bad),
            Item::Missing => Ok(View::Missing),
            Item::Present(value) => Ok(View::IntSeq(value)),
        },
        Kind::HashSeq => match sequence::<u64>(arena, text)? {
            Item::Bad => Err(ValueFault::Bad),
            Item::Missing => Ok(View::Missing),
            Item::Present(value) => Ok(View::HashSeq(value)),
        },
        Kind::StrSeq => match text_sequence(arena, text)? {
            Item::Bad => Err(ValueFault::Bad),
            Item::Missing => Ok(View::Missing),
            Item::Present(value) => Ok(View::StrSeq(value)),
        },
    }
}

/// The value that the text writes as one of this kind; its strings and sequences lie in the arena.
///
/// `nonsensical`, `uninit` and `missing` are the missing value of every kind, and so is a number outside its type.
/// A truth value is `true`, `1`, `false` or `0`; a whole number is decimal digits with an optional minus, `true` or `false`;
/// a hash code is `null`, decimal digits with an optional minus, or `0x` and hexadecimal digits; a string is what `is_text` takes.
/// A sequence stands between `[` and `]`, with one or more blanks between its items, or is `null`, which is missing.
/// An item that is no value makes the whole none; else a missing item makes the whole missing.
pub fn parse_value<'a>(arena: &'a Arena, kind: Kind, text: &[u8]) -> Result<View<'a>, ValueFault>
    ensures value { IfOk result (λ view. value_of_text kind text.now ≡ Some (value_of view)) }
    ensures bad { result ≡ Err ValueFault.Bad → value_of_text kind text.now ≡ None }
    ensures of_kind { IfOk result (λ view. IsOfKind kind (value_of view)) }
    ensures written { IfOk result (λ view. IsWritten (value_of view)) }
{
    value_in(arena, kind, text)
}
