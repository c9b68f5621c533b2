// Reading the files whole, one after another.
ghost use Rattle.std.specs.Prelude.{◌≡◌, ◌≤◌, IfErr, IfOk};
ghost use Rattle.dk_driver.specs.Files.{file_name_at};
ghost use Rattle.dk_io.specs.Outside.{Rose};
ghost use Rattle.dk_table.specs.Tables.Contents.{AreReadAs, FaultSays, OwnFaultSays, ReadAs, helds_of};

use crate::file_bytes::FileBytes;
use dk_arguments::Word;
use dk_base::List;
use dk_driver::FilesFault;
use dk_io::{AllFault, Failed, Inputs, read_all};
use std::alloc::Global;

// Reads the file at a place, of this name. One of 2^64 bytes is answered as want of memory, which would not hold it.
fn read_text<I: Inputs>(
    alloc: Global,
    place: usize,
    name: &str,
    inputs: &mut I,
) -> Result<FileBytes, FilesFault>
    ensures read { IfOk result (ReadAs (I.file inputs.old name.now)) }
    ensures fault { IfErr result (OwnFaultSays (I.file inputs.old name.now) (Rose (I.faults inputs.old) (I.faults inputs.new)) place) }
    ensures files { I.file inputs.new ≡ I.file inputs.old }
    ensures later { I.faults inputs.old ≤ I.faults inputs.new }
{
    match inputs.start(name) {
        Err(Failed) => Err(FilesFault::Start { place }),
        Ok(()) => match read_all(alloc, inputs, u64::MAX) {
            Ok(text) => Ok(FileBytes::new(text)),
            Err(AllFault::Read) => Err(FilesFault::Read { place }),
            Err(AllFault::TooLong) => Err(FilesFault::NoMemory),
            Err(AllFault::NoMemory) => Err(FilesFault::NoMemory),
        },
    }
}

/// The name at a place; where there is none, no bytes.
pub(crate) fn name_at(names: &[Word], place: usize) -> &str
    ensures { result.now ≡ file_name_at names.now place }
{
    match names.get(place) {
        Some(name) => name.as_str(),
        None => "",
    }
}

/// Reads the files of these names.
pub(crate) fn read_texts<I: Inputs>(
    alloc: Global,
    names: &[Word],
    inputs: &mut I,
) -> Result<List<FileBytes>, FilesFault>
    ensures read { IfOk result (AreReadAs (helds_of names.now (I.file inputs.old))) }
    ensures fault { IfErr result (FaultSays names.now (I.file inputs.old) (Rose (I.faults inputs.old) (I.faults inputs.new))) }
    ensures files { I.file inputs.new ≡ I.file inputs.old }
{
    let mut texts = List::new(alloc);
    for place in 0..names.len() {
        match read_text(alloc, place, name_at(names, place), inputs) {
            Ok(text) => texts.push(text)?,
            Err(fault) => return Err(fault),
        }
    }
    Ok(texts)
}
