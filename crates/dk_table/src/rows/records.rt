// The rows of a file as `csv` reads them, one after another.
ghost use Rattle.std.specs.Prelude.{◌≡◌, ◌<◌, ◌+◌, ◌^◌, ◌++◌, IfOk, Ok, [], false, length, slice_get, true, unwrap_or};
ghost use Rattle.csv.specs.Reading.{records, strip_bom};
ghost use Rattle.csv.specs.Records.{fields_of};
ghost use Rattle.dk_table.specs.Tables.{config_by, placed_from, rows_in};
ghost use Rattle.dk_table.specs.Tables.PlacedRows.{cell_at};
ghost use Rattle.dk_table.specs.Tables.Cursors.{IsReading, Moves, rows_left};

use csv::{ByteRecord, Reader, ReaderBuilder};
use dk_base::NoMemory;
use std::alloc::Global;
use std::io::{Chain, Read};
use std::marker::Model;

/// A reader of the bytes behind others.
type Bytes<'a> = Chain<&'a [u8], &'a [u8]>;

/// A row of a table and where it stands, which contracts see as its cells with its place.
#[derive(Drop)]
pub(crate) struct Row {
    file: usize,
    number: u64,
    cells: ByteRecord,
}

impl Model for Row {
    ghost use Rattle.csv.specs.Records.{fields_of};
    ghost use Rattle.dk_table.specs.Tables.PlacedRows.{Placed};

    ghost Value = { Placed };

    ghost view = { λ r. record { file = r.file; number = r.number; cells = fields_of r.cells } };
}

impl Row {
    /// The place of its file.
    pub(crate) fn file(&self) -> usize
        ensures { result ≡ self.now.file }
    {
        self.file
    }

    /// Its number in the file, from 1.
    pub(crate) fn number(&self) -> u64
        ensures { result ≡ self.now.number }
    {
        self.number
    }

    /// How many cells it has.
    pub(crate) fn len(&self) -> usize
        ensures { result ≡ length self.now.cells }
    {
        self.cells.len()
    }

    // Reads the next record into the row, which is then the one behind it.
    fn read(&mut self, reader: &mut Reader<Bytes<'_>>) -> Result<bool, NoMemory>
        requires { IsReading self.old reader.old }
        ensures moves { result ≡ Ok true → Moves (rows_left self.old reader.old) (record { row = self.new; left = rows_left self.new reader.new }) true }
        ensures reads { result ≡ Ok true → IsReading self.new reader.new }
        ensures none { result ≡ Ok false → rows_left self.old reader.old ≡ [] }
    {
        let Ok(found) = reader.read_byte_record(&mut self.cells) else {
            // A slice gives no fault, and rows may differ in length: memory alone is wanting.
            return Err(NoMemory);
        };
        if !found {
            return Ok(false);
        }
        self.number += 1;
        Ok(true)
    }

    /// A cell of the row; an empty one where there is none.
    pub(crate) fn cell(&self, place: usize) -> &[u8]
        ensures { result.now ≡ cell_at place self.now }
    {
        match self.cells.get(place) {
            Some(cell) => cell,
            None => b"",
        }
    }
}

/// Goes through the rows of a file, which contracts see as the row that was read last and those that are left. No rows are left behind an
/// error.
#[derive(Drop)]
pub(crate) struct Records<'a> {
    reader: Reader<Bytes<'a>>,
    row: Row,
    is_ended: bool,
}

impl<'a> Model for Records<'a> {
    ghost use Rattle.std.specs.Prelude.{◌≡◌, [], false, if◌then◌else◌};
    ghost use Rattle.dk_table.specs.Tables.Cursors.{Cursor, IsReading, rows_left};

    ghost Value = { Cursor };

    ghost view = { λ r. record { row = r.row; left = (if r.is_ended then [] else rows_left r.row r.reader) } };

    ghost invariant = { λ r. r.is_ended ≡ false → IsReading r.row r.reader };
}

impl<'a> Records<'a> {
    /// All rows of the bytes of the file at a place, whose cells this byte separates, are left.
    pub(crate) fn new(alloc: Global, separator: u8, file: usize, bytes: &'a [u8]) -> Records<'a>
        ensures left { result.left ≡ rows_in separator file bytes.entry.now }
        ensures few { length result.left < 2 ^ 64 }
    {
        // There are no more rows than bytes, so the number of each has 64 bits.
        let size = bytes.len();
        prove!(size <= usize::MAX);
        Records::begun(alloc, separator, file, 0, b"", bytes)
    }

    /// All rows of bytes further on in the file, in front of which so many of its rows stand, are left.
    pub(crate) fn behind(
        alloc: Global,
        separator: u8,
        file: usize,
        front: u64,
        bytes: &'a [u8],
    ) -> Records<'a>
        requires { front + length bytes.now < 2 ^ 64 }
        ensures left { result.left ≡ placed_from file (front + 1) (records (config_by separator) bytes.entry.now) }
        ensures few { front + length result.left < 2 ^ 64 }
    {
        // Behind a line end, which is read past, no byte order mark is looked for.
        Records::begun(alloc, separator, file, front, b"\n", bytes)
    }

    // All rows of the bytes and of those in front of them are left, where so many rows of the file stand in front of all of these.
    fn begun(
        alloc: Global,
        separator: u8,
        file: usize,
        number: u64,
        front: &'a [u8],
        bytes: &'a [u8],
    ) -> Records<'a>
        requires { number + length (records (config_by separator) (strip_bom (front.now ++ bytes.now))) < 2 ^ 64 }
        ensures { result.left ≡ placed_from file (number + 1) (records (config_by separator) (strip_bom (front.entry.now ++ bytes.entry.now))) }
    {
        let reader = ReaderBuilder::new()
            .has_headers(false)
            .flexible(true)
            .delimiter(separator)
            .from_reader(alloc, front.chain(bytes));
        Records {
            reader,
            row: Row {
                file,
                number,
                cells: ByteRecord::new(alloc),
            },
            is_ended: false,
        }
    }

    /// Reads the next row, and answers whether there was one.
    pub(crate) fn next(&mut self) -> Result<bool, NoMemory>
        ensures { IfOk result (λ found. Moves self.old.left self.new found) }
    {
        if self.is_ended {
            return Ok(false);
        }
        let Ok(found) = self.row.read(&mut self.reader) else {
            self.is_ended = true;
            return Err(NoMemory);
        };
        if !found {
            self.is_ended = true;
            return Ok(false);
        }
        Ok(true)
    }

    /// The row that was read last.
    pub(crate) fn row(&self) -> &Row
        ensures { result.now ≡ self.now.row }
    {
        &self.row
    }
}
