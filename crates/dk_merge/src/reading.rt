// Reading a file whole.
ghost use Rattle.std.specs.Prelude.{◌≡◌, ◌≤◌, IfErr, IfOk};
ghost use Rattle.dk_io.specs.Outside.{Rose};
ghost use Rattle.dk_merge.specs.Reading.{IsWhole, UnreadGives, fault_of_read, refused_whole};

use dk_base::{Text, Why};
use dk_driver::FileFault;
use dk_io::{AllFault, Failed, Inputs, read_all};
use std::alloc::Global;

/// The fault of a file that is refused as a whole.
pub(crate) fn refused_whole(why: Why) -> FileFault
    ensures { result ≡ refused_whole why }
{
    FileFault::Refused { line: 0, why }
}

fn fault_of_read(fault: AllFault) -> FileFault
    ensures { result ≡ fault_of_read fault }
{
    match fault {
        AllFault::Read => FileFault::Read,
        AllFault::TooLong => refused_whole(Why::TooLong),
        AllFault::NoMemory => FileFault::NoMemory,
    }
}

/// Reads a file of at most so many bytes whole.
pub(crate) fn read_whole<I: Inputs>(
    alloc: Global,
    name: &str,
    room: u64,
    inputs: &mut I,
) -> Result<Text, FileFault>
    ensures whole { IfOk result (λ text. IsWhole room (I.file inputs.old name.now) text (I.rest inputs.new)) }
    ensures fault { IfErr result (UnreadGives room (I.file inputs.old name.now) (Rose (I.faults inputs.old) (I.faults inputs.new)) (I.rest inputs.old) (I.rest inputs.new)) }
    ensures files { I.file inputs.new ≡ I.file inputs.old }
    ensures later { I.faults inputs.old ≤ I.faults inputs.new }
{
    match inputs.start(name) {
        Err(Failed) => Err(FileFault::Start),
        Ok(()) => match read_all(alloc, inputs, room) {
            Ok(text) => Ok(text),
            Err(fault) => Err(fault_of_read(fault)),
        },
    }
}
