// Why files are not read to their ends.
ghost use Rattle.std.specs.Prelude.{◌≡◌};
ghost use Rattle.dk_driver.specs.WholeFile.{fault_at};
ghost use Rattle.dk_driver.specs.Reads.{status_of};

use dk_base::{Fault, NoMemory, Why};
use dk_events::Ended;
use thiserror::Error;

/// Why a file is not read to its end.
#[derive(Clone, Copy, Debug, PartialEq, Eq)]
pub enum FileFault {
    /// A line of it is refused. Lines are numbered from 1.
    Refused { line: u64, why: Why },
    /// It could not be started.
    Start,
    /// It was started, and then a read failed.
    Read,
    NoMemory,
}

impl From<Fault> for FileFault {
    ghost use Rattle.std.specs.Prelude.{◌≡◌};
    ghost use Rattle.dk_driver.specs.WholeFile.{file_fault_of};

    ghost from_gives = { λ fault e. e ≡ file_fault_of fault };

    fn from(fault: Fault) -> Self {
        match fault {
            Fault::Refused { file: _, line, why } => FileFault::Refused { line, why },
            Fault::Read { file: _ } => FileFault::Read,
            Fault::NoMemory => FileFault::NoMemory,
        }
    }
}

impl FileFault {
    // The fault, of the file at this place.
    pub(crate) fn at(self, place: usize) -> FilesFault
        ensures { result ≡ fault_at place self }
    {
        match self {
            FileFault::Refused { line, why } => FilesFault::Refused { place, line, why },
            FileFault::Start => FilesFault::Start { place },
            FileFault::Read => FilesFault::Read { place },
            FileFault::NoMemory => FilesFault::NoMemory,
        }
    }
}

/// Why files are not read to their ends, and at which: its place among their names, from 0.
#[derive(Clone, Copy, Debug, PartialEq, Eq, Error)]
pub enum FilesFault {
    /// A line of the file is refused. Lines are numbered from 1.
    #[error("file {place}, line {line}: {why}")]
    Refused { place: usize, line: u64, why: Why },
    /// The file could not be started.
    #[error("file {place} could not be started")]
    Start { place: usize },
    /// The file was started, and then a read failed.
    #[error("file {place} could not be read")]
    Read { place: usize },
    #[error("out of memory")]
    NoMemory,
}

impl From<NoMemory> for FilesFault {
    ghost use Rattle.std.specs.Prelude.{◌≡◌};
    ghost use Rattle.dk_driver.specs.declared.fault.FilesFault.TheVariants as fault;

    ghost from_gives = { λ _ e. e ≡ fault.NoMemory };

    fn from(_: NoMemory) -> Self {
        FilesFault::NoMemory
    }
}

impl FilesFault {
    /// How a program ends that tells this fault.
    pub fn status(self) -> Ended
        ensures { result ≡ status_of self }
    {
        match self {
            FilesFault::Refused { .. } => Ended::Refused,
            FilesFault::Start { .. } | FilesFault::Read { .. } => Ended::Read,
            FilesFault::NoMemory => Ended::NoMemory,
        }
    }
}
