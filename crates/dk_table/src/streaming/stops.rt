// Why rows that are written as they come end before the files do.
ghost use Rattle.std.specs.Prelude.{◌≡◌};
ghost use Rattle.dk_table.specs.Streams.Stops.{stop_of_fault, stop_of_halt};
ghost use Rattle.dk_table.specs.declared.streaming.stops.Stop.TheVariants.{NoMemory as OutOfMemory};

use crate::faults::{Refusal, TableFault};
use crate::writing::Halt;
use dk_base::NoMemory;

/// Why rows that are written as they come end before the files do.
#[derive(Clone, Copy, Debug, PartialEq, Eq)]
pub(crate) enum Stop {
    /// The table is refused.
    Refused(Refusal),
    /// The file at this place can't be started.
    Unstarted(usize),
    /// The file at this place was started, and then a read failed.
    Unread(usize),
    Write,
    NoMemory,
}

impl From<NoMemory> for Stop {
    ghost from_gives = { λ _ e. e ≡ OutOfMemory };

    fn from(_: NoMemory) -> Self {
        Stop::NoMemory
    }
}

impl From<TableFault> for Stop {
    ghost from_gives = { λ fault e. e ≡ stop_of_fault fault };

    fn from(fault: TableFault) -> Self {
        match fault {
            TableFault::Refused(refusal) => Stop::Refused(refusal),
            TableFault::NoMemory => Stop::NoMemory,
        }
    }
}

impl From<Halt> for Stop {
    ghost from_gives = { λ halt e. e ≡ stop_of_halt halt };

    fn from(halt: Halt) -> Self {
        match halt {
            Halt::Write => Stop::Write,
            Halt::NoMemory => Stop::NoMemory,
        }
    }
}
