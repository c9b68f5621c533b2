// Files that are read piece by piece, and cut into chunks of whole rows.
ghost use Rattle.std.specs.Prelude.{◌≡◌, ◌≤◌, ◌<◌, ◌+◌, ◌^◌, IfOk, length};
ghost use Rattle.dk_io.specs.Outside.{Rose};
ghost use Rattle.dk_table.specs.Streams.Pieces.{CutsOf, FillsSays, OpenSays, chunk_rows, may_cut_mark, without_mark};

use crate::file_bytes::FileBytes;
use crate::rows::{Rows, behind_mark};
use crate::streaming::chunks::whole_rows;
use crate::streaming::held::Chunk;
use dk_base::{NoMemory, Text};
use dk_io::{Failed, Inputs};
use std::alloc::{AllocError, Global};

/// How many bytes a read asks for.
const PIECE: usize = 65_536;

/// How many bytes are gathered before rows are cut off them.
const CHUNK: usize = 1_048_576;

impl Chunk {
    /// All rows are left.
    pub(crate) fn rows(&self, alloc: Global, separator: u8) -> Result<Rows<'_>, NoMemory>
        ensures left { IfOk result (λ rows. rows.left ≡ chunk_rows separator self.now) }
        ensures few { IfOk result (λ rows. self.now.front + length rows.left < 2 ^ 64) }
    {
        Rows::behind(alloc, separator, self.file, self.front, &self.bytes)
    }
}

/// Why no more bytes were gathered.
#[derive(Clone, Copy, Debug, PartialEq, Eq)]
pub(crate) enum Filled {
    /// There are enough.
    Full,
    /// The file has no more.
    Ended,
    /// A read failed.
    Failed,
}

// A buffer of this size.
fn buffer(alloc: Global, size: usize) -> Result<Vec<u8>, AllocError>
    ensures { IfOk result (λ buf. length buf.items ≡ size) }
{
    vec![in alloc; 0; size]
}

/// Puts bytes of the started file behind the text, at least as many as it has.
pub(crate) fn fill<I: Inputs>(
    alloc: Global,
    text: &mut Text,
    inputs: &mut I,
) -> Result<Filled, NoMemory>
    ensures filled { IfOk result (FillsSays text.old text.new (I.rest inputs.old) (I.rest inputs.new) (Rose (I.faults inputs.old) (I.faults inputs.new))) }
    ensures files { I.file inputs.new ≡ I.file inputs.old }
    ensures later { I.faults inputs.old ≤ I.faults inputs.new }
{
    let mut buf = buffer(alloc, PIECE)?;
    let enough = text.len().saturating_add(text.len().max(CHUNK));
    'reading: while text.len() < enough {
        match inputs.read(&mut buf) {
            Err(Failed) => return Ok(Filled::Failed),
            Ok(0) => return Ok(Filled::Ended),
            Ok(count) => text.append(&buf[..count])?,
        }
    }
    Ok(Filled::Full)
}

/// What was gathered of a file, behind its byte order mark.
#[derive(Drop)]
pub(crate) struct Piece {
    pub(crate) text: Text,
    pub(crate) filled: Filled,
}

/// Why nothing of a file is gathered.
#[derive(Clone, Copy, Debug, PartialEq, Eq)]
pub(crate) enum OpenFault {
    Start,
    NoMemory,
}

impl From<NoMemory> for OpenFault {
    ghost use Rattle.std.specs.Prelude.{◌≡◌};
    ghost use Rattle.dk_table.specs.declared.streaming.filling.OpenFault.TheVariants.{NoMemory as OutOfMemory};

    ghost from_gives = { λ _ e. e ≡ OutOfMemory };

    fn from(_: NoMemory) -> Self {
        OpenFault::NoMemory
    }
}

// Whether a read failed so early that a byte order mark may be cut off.
fn may_cut_mark(filled: Filled, count: usize) -> bool
    ensures { result ≡ may_cut_mark filled count }
{
    match filled {
        Filled::Full => false,
        Filled::Ended => false,
        Filled::Failed => count < 3,
    }
}

// The text behind the byte order mark, where there is one. Nothing is left where a mark may be cut off.
fn without_mark(alloc: Global, text: Text, filled: Filled) -> Result<Text, NoMemory>
    ensures { IfOk result (λ bare. bare ≡ without_mark filled text) }
{
    let count = text.len();
    if may_cut_mark(filled, count) {
        return Ok(Text::new(alloc));
    }
    let bare = behind_mark(text.as_slice());
    if bare.len() == text.len() {
        return Ok(text);
    }
    Text::from_slice(alloc, bare)
}

/// Starts the file of a name, and gathers the first of its bytes.
pub(crate) fn open<I: Inputs>(alloc: Global, name: &str, inputs: &mut I) -> Result<Piece, OpenFault>
    ensures opened { OpenSays (I.file inputs.old name.now) (I.rest inputs.new) (Rose (I.faults inputs.old) (I.faults inputs.new)) result }
    ensures files { I.file inputs.new ≡ I.file inputs.old }
    ensures later { I.faults inputs.old ≤ I.faults inputs.new }
{
    match inputs.start(name) {
        Err(Failed) => Err(OpenFault::Start),
        Ok(()) => {
            let mut text = Text::new(alloc);
            let filled = fill(alloc, &mut text, inputs)?;
            let text = without_mark(alloc, text, filled)?;
            Ok(Piece { text, filled })
        }
    }
}

/// Bytes that are whole rows, and those behind them.
#[derive(Drop)]
pub(crate) struct Cut {
    pub(crate) rows: FileBytes,
    pub(crate) rest: Text,
}

/// Cuts off the text's whole rows. At the file's end all of it is.
pub(crate) fn cut_rows(
    alloc: Global,
    separator: u8,
    text: Text,
    is_last: bool,
) -> Result<Cut, NoMemory>
    ensures { IfOk result (CutsOf separator text is_last) }
{
    let whole = if is_last {
        text.len()
    } else {
        whole_rows(separator, text.as_slice())
    };
    let rest = Text::from_slice(alloc, &text.as_slice()[whole..])?;
    let mut rows = text.into_vec();
    rows.truncate(whole);
    Ok(Cut {
        rows: FileBytes::from_vec(rows),
        rest,
    })
}
