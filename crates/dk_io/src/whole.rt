// Writing all of a text, and reading all that is left.
ghost use Rattle.std.specs.Prelude.{◌≡◌, ◌≤◌, ◌<◌, length, IfOk, OnOk, OnErr, IsErrOf, IfSome};
ghost use Rattle.std.specs.Io.KnownBytes.{IsAtEnd, prepend_known};
ghost use Rattle.dk_io.specs.Outside.{Rose, HasCause, DeliversUpTo};
ghost use Rattle.dk_io.specs.Streams.{with_bytes, AddsFront};
ghost use Rattle.dk_io.specs.declared.whole.AllFault.TheVariants.{NoMemory as OutOfMemory, Read as Unread};

use crate::{Failed, Inputs, Sinks, Stream};
use dk_base::{NoMemory, Text};
use std::alloc::{AllocError, Global};
use thiserror::Error;

/// How many bytes a read asks for.
const PIECE: usize = 65_536;

/// Adds all the bytes to the stream. A failed call has added a front of them.
pub fn write_all<S: Sinks>(sinks: &mut S, stream: Stream, bytes: &[u8]) -> Result<(), Failed>
    ensures ok { OnOk result (S.written sinks.new ≡ with_bytes (S.written sinks.old) stream bytes.now) }
    ensures err { OnErr result (AddsFront (S.written sinks.old) (S.written sinks.new) stream bytes.now) }
    ensures calm { OnOk result (S.faults sinks.new ≡ S.faults sinks.old) }
    ensures cause { HasCause (S.faults sinks.old) (S.faults sinks.new) result }
{
    let mut left = bytes;
    'writing: while !left.is_empty() {
        let count = sinks.write(stream, left)?;
        left = &left[count..];
    }
    Ok(())
}

/// Why not all that is left could be read.
#[derive(Clone, Copy, Debug, PartialEq, Eq, Error)]
pub enum AllFault {
    /// A read failed.
    #[error("the file could not be read")]
    Read,
    /// More bytes are left than the limit.
    #[error("the file is too long")]
    TooLong,
    /// Memory could not be had.
    #[error("out of memory")]
    NoMemory,
}

impl From<NoMemory> for AllFault {
    ghost from_gives = { λ _ e. e ≡ OutOfMemory };

    fn from(_: NoMemory) -> Self {
        AllFault::NoMemory
    }
}

impl From<AllocError> for AllFault {
    ghost from_gives = { λ _ e. e ≡ OutOfMemory };

    fn from(_: AllocError) -> Self {
        AllFault::NoMemory
    }
}

impl From<Failed> for AllFault {
    ghost from_gives = { λ _ e. e ≡ Unread };

    fn from(_: Failed) -> Self {
        AllFault::Read
    }
}

// A buffer of this size.
fn buffer(alloc: Global, size: usize) -> Result<Vec<u8>, AllocError>
    ensures { IfOk result (λ buf. length buf.items ≡ size) }
{
    vec![in alloc; 0; size]
}

/// All that is left of the started file, where it is at most as long as the limit, and then nothing is left of it; else `TooLong`.
/// `Read` comes where reading failed before a byte came that is one too many.
pub fn read_all<I: Inputs>(alloc: Global, inputs: &mut I, limit: u64) -> Result<Text, AllFault>
    ensures files { I.file inputs.new ≡ I.file inputs.old }
    ensures ok { IfOk result (λ text. IfSome (I.rest inputs.old) (λ bytes. text ≡ bytes)) }
    ensures fits { IfOk result (λ text. length text ≤ limit) }
    ensures delivered { IfOk result (λ text. I.rest inputs.old ≡ prepend_known text (I.rest inputs.new)) }
    ensures end { OnOk result (IsAtEnd (I.rest inputs.new)) }
    ensures too_long { IsErrOf result AllFault.TooLong → IfSome (I.rest inputs.old) (λ bytes. limit < length bytes) }
    // No delivered byte is one too many.
    ensures read { IsErrOf result AllFault.Read → DeliversUpTo limit (I.rest inputs.old) (I.rest inputs.new) }
    ensures later { I.faults inputs.old ≤ I.faults inputs.new }
    ensures cause { IsErrOf result AllFault.Read → Rose (I.faults inputs.old) (I.faults inputs.new) }
{
    let mut text = Text::new(alloc);
    let mut buf = buffer(alloc, PIECE)?;
    let mut total = 0u64;
    'reading: loop {
        let count = inputs.read(&mut buf)?;
        if count == 0 {
            return Ok(text);
        }
        if count as u64 > limit - total {
            return Err(AllFault::TooLong);
        }
        total += count as u64;
        text.append(&buf[..count])?;
    }
}
