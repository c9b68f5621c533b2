// Why a table is refused.
ghost use Rattle.std.specs.Prelude.{◌≡◌, Some};
ghost use Rattle.dk_table.specs.Refusals.{why_name, why_number, why_text};
ghost use Rattle.dk_table.specs.declared.faults.TableFault.TheVariants.{NoMemory as OutOfMemory};

use dk_base::NoMemory;
use std::alloc::AllocError;
use std::fmt;

/// Why a table is refused. It is shown as its number and its name, as in `3 RowLength`.
#[derive(Clone, Copy, Debug, PartialEq, Eq)]
pub enum TableWhy {
    /// The file has no row that names the columns.
    NoHeader = 1,
    /// A name that no line of a trace tells, of the point or of a column: it is empty, has a line end, or begins or ends with a tab; or two
    /// columns have one name.
    BadName = 2,
    /// A row has another number of cells than there are columns.
    RowLength = 3,
    /// A cell behind the rows by which kinds were found is none of its column's kind.
    BadCell = 4,
    /// The file names other columns than the first one.
    OtherHeader = 5,
    /// A quote is not closed: the file has an odd number of them. The row is the file's last one.
    OpenQuote = 6,
}

impl TableWhy {
    /// Its number, from 1 to 6.
    pub fn number(self) -> u8
        ensures { result ≡ why_number self }
    {
        self as u8
    }

    /// Its name, as in `RowLength`.
    pub fn name(self) -> &'static str
        ensures { result.now ≡ why_name self }
    {
        match self {
            TableWhy::NoHeader => "NoHeader",
            TableWhy::BadName => "BadName",
            TableWhy::RowLength => "RowLength",
            TableWhy::BadCell => "BadCell",
            TableWhy::OtherHeader => "OtherHeader",
            TableWhy::OpenQuote => "OpenQuote",
        }
    }
}

impl fmt::Display for TableWhy {
    ghost output = { λ why. Some (why_text why) };

    fn fmt<W: fmt::Write>(&self, f: &mut fmt::Formatter<W>) -> fmt::Result {
        let number = self.number();
        let name = self.name();
        write!(f, "{number} {name}")
    }
}

/// Why a table is refused, and where: the place of the file among those that are read, from 0, and the row of that file, from 1.
#[derive(Clone, Copy, Debug, PartialEq, Eq)]
pub struct Refusal {
    pub file: usize,
    pub row: u64,
    pub why: TableWhy,
}

/// Why a table has no trace.
#[derive(Clone, Copy, Debug, PartialEq, Eq)]
pub enum TableFault {
    /// It is refused.
    Refused(Refusal),
    /// Memory could not be had.
    NoMemory,
}

impl From<NoMemory> for TableFault {
    ghost from_gives = { λ _ e. e ≡ OutOfMemory };

    fn from(_: NoMemory) -> Self {
        TableFault::NoMemory
    }
}

impl From<AllocError> for TableFault {
    ghost from_gives = { λ _ e. e ≡ OutOfMemory };

    fn from(_: AllocError) -> Self {
        TableFault::NoMemory
    }
}
