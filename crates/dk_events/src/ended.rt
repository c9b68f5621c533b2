// How a program ends.
ghost use Rattle.std.specs.Prelude.{◌≡◌};
ghost use Rattle.dk_events.specs.Statuses.{exit_code};

/// How a program ends that reads files by their events.
#[derive(Clone, Copy, Debug, PartialEq, Eq)]
pub enum Ended {
    /// All files were read to their ends, none holds a fault, and all was written; or the text was written that the words ask for.
    Done = 0,
    /// A line of a file is refused.
    Refused = 1,
    /// The words of the command are refused.
    Usage = 2,
    /// A file could not be read.
    Read = 3,
    /// A stream could not be written to.
    Write = 4,
    /// Memory could not be had.
    NoMemory = 5,
}

impl Ended {
    /// Its number, from 0 to 5, as the program ends with it.
    pub fn code(self) -> u8
        ensures { result ≡ exit_code self }
    {
        self as u8
    }
}
