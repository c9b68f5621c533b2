// Reading all files of a run, one after another: each is judged before the next one is read.
ghost use Rattle.std.specs.Prelude.{◌≡◌, ◌≤◌, ◌<◌, IfErr, IfOk, length};
ghost use Rattle.dk_io.specs.Outside.{Rose};
ghost use Rattle.dk_driver.specs.Files.{file_name_at};
ghost use Rattle.dk_merge.specs.Gathering.{FilesGive, HasTaken, NotTaken};

use crate::gathered::Gathered;
use crate::reading::read_whole;
use dk_arguments::Word;
use dk_driver::FileFault;
use dk_io::Inputs;
use dk_merge_command_line::Command;
use std::alloc::Global;

/// What is kept of the files that were read, and how many bytes the others may have.
#[derive(Drop)]
pub(crate) struct Gathering {
    pub(crate) gathered: Gathered,
    pub(crate) room: u64,
}

/// The first file that is not taken: its place, and why.
#[derive(Clone, Copy, Debug, PartialEq, Eq)]
pub(crate) struct Untaken {
    pub(crate) place: usize,
    pub(crate) fault: FileFault,
}

/// How many bytes the files may have together.
const ROOM: u64 = 1_073_741_824;

// Reads one file more and takes it.
fn take_file<I: Inputs>(
    alloc: Global,
    gathering: Gathering,
    name: &str,
    inputs: &mut I,
) -> Result<Gathering, FileFault>
    ensures taken { IfOk result (λ next. HasTaken gathering next (I.file inputs.old name.now) (I.rest inputs.new)) }
    ensures fault { IfErr result (NotTaken gathering (I.file inputs.old name.now) (Rose (I.faults inputs.old) (I.faults inputs.new)) (I.rest inputs.old) (I.rest inputs.new)) }
    ensures files { I.file inputs.new ≡ I.file inputs.old }
    ensures later { I.faults inputs.old ≤ I.faults inputs.new }
{
    let Gathering { gathered, room } = gathering;
    let text = read_whole(alloc, name, room, inputs)?;
    let room = room - text.len() as u64;
    let gathered = gathered.with(alloc, text)?;
    Ok(Gathering { gathered, room })
}

/// The name at a place.
pub(crate) fn name_at(names: &[Word], place: usize) -> &str
    requires { place < length names.now }
    ensures { result.now ≡ file_name_at names.now place }
{
    names[place].as_str()
}

/// Reads all files of the run and takes them.
pub(crate) fn gather<I: Inputs>(
    alloc: Global,
    command: &Command,
    inputs: &mut I,
) -> Result<Gathering, Untaken>
    ensures gives { FilesGive command.now (I.file inputs.old) (Rose (I.faults inputs.old) (I.faults inputs.new)) (I.rest inputs.old) (I.rest inputs.new) result }
    ensures files { I.file inputs.new ≡ I.file inputs.old }
    ensures later { I.faults inputs.old ≤ I.faults inputs.new }
{
    let names = command.files.as_slice();
    let mut gathering = Gathering {
        gathered: Gathered::nothing(alloc, command.turns),
        room: ROOM,
    };
    for place in 0..names.len() {
        match take_file(alloc, gathering, name_at(names, place), inputs) {
            Ok(next) => gathering = next,
            Err(fault) => return Err(Untaken { place, fault }),
        }
    }
    Ok(gathering)
}
