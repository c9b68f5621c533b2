// The rows of bytes without quotes, which are lines, one after another.
ghost use Rattle.std.specs.Prelude.{◌≡◌, ◌≤◌, ◌<◌, ◌+◌, ◌^◌, IfOk, IsTrue, Some, [], drop, false, get_or, length, map, ℕ};
ghost use Rattle.csv.specs.Machine.{ends_with, next_record};
ghost use Rattle.csv.specs.declared.parser.State.TheVariants as st;
ghost use Rattle.csv.specs.declared.parser.Terminator.TheVariants as term;
ghost use Rattle.dk_table.specs.Tables.{config_by};
ghost use Rattle.dk_table.specs.Tables.Cursors.{Moves, line_row, rows_of_bytes};
ghost use Rattle.dk_table.specs.Tables.Cutting.{IsCut, IsUnquoted};
ghost use Rattle.dk_table.specs.Tables.Marks.{AreAhead};
ghost use Rattle.dk_table.specs.Tables.PlacedRows.{cell_at};

use crate::rows::marks::Marks;
use dk_base::NoMemory;
use memchr::memchr;
use std::alloc::Global;
use std::marker::Model;

/// Whether none of the bytes is a quote.
pub(crate) fn is_unquoted(bytes: &[u8]) -> bool
    ensures { IsTrue result → IsUnquoted bytes.now }
{
    memchr(b'"', bytes).is_none()
}

/// Whether the byte ends a line.
pub(crate) fn ends_line(byte: u8) -> bool
    ensures { result ≡ ends_with term.CRLF byte }
{
    byte == b'\r' || byte == b'\n'
}

// Goes past the bytes in front of a row that end lines.
fn row_marks(separator: u8, bytes: &[u8], marks: Marks) -> Marks
    requires { AreAhead separator bytes.now marks }
    ensures ahead { AreAhead separator bytes.now result }
    ensures later { marks.place ≤ result.place }
    ensures begins { result.place < length bytes.now → ends_with term.CRLF (get_or bytes.now result.place 0) ≡ false }
    ensures same { next_record (config_by separator) st.StartRecord [] [] (drop result.place bytes.now) ≡ next_record (config_by separator) st.StartRecord [] [] (drop marks.place bytes.now) }
{
    let mut ahead = marks;
    'blank: while ahead.place() < bytes.len() && ends_line(bytes[ahead.place()]) {
        let _end = ahead.next(separator, bytes);
    }
    ahead
}

// Cuts the cells of the row that begins at the marks, and answers the marks behind it.
fn cut_cells<'a>(
    separator: u8,
    bytes: &'a [u8],
    marks: Marks,
    cells: &mut Vec<&'a [u8]>,
) -> Result<Marks, NoMemory>
    requires unquoted { IsUnquoted bytes.now }
    requires ahead { AreAhead separator bytes.now marks }
    requires none { cells.old.items ≡ [] }
    ensures ahead { IfOk result (λ next. AreAhead separator bytes.now next) }
    ensures moves { IfOk result (λ next. marks.place < length bytes.now → marks.place < next.place) }
    ensures cells { IfOk result (λ next. IsCut separator bytes.now marks.place (map (λ c. c.now) cells.new.items) next.place) }
{
    let mut ahead = marks;
    'cells: loop {
        let start = ahead.place();
        let end = ahead.next(separator, bytes);
        cells.push(&bytes[start..end])?;
        if end >= bytes.len() || bytes[end] != separator {
            return Ok(ahead);
        }
    }
}

/// Goes through the rows of the bytes of a file without quotes, which contracts see as the row that was read last and those that are left.
#[derive(Drop)]
pub(crate) struct Lines<'a> {
    separator: u8,
    file: usize,
    number: u64,
    cells: Vec<&'a [u8]>,
    bytes: &'a [u8],
    marks: Marks,
}

impl<'a> Model for Lines<'a> {
    ghost use Rattle.std.specs.Prelude.{◌+◌, ◌-◌, ◌<◌, ◌^◌, Some, drop, length, map};
    ghost use Rattle.csv.specs.declared.parser.State.TheVariants as st;
    ghost use Rattle.dk_table.specs.Tables.Cursors.{Cursor, line_row, rows_of_bytes};
    ghost use Rattle.dk_table.specs.Tables.Cutting.{IsUnquoted};
    ghost use Rattle.dk_table.specs.Tables.Marks.{AreAhead};
    ghost use Rattle.dk_table.specs.Tables.{config_by};

    ghost Value = { Cursor };

    ghost view = { λ l. let row = line_row l.file l.number (map (λ c. c.now) l.cells.items) in
        record { row = row; left = rows_of_bytes row (config_by l.separator) st.StartRecord (Some (drop l.marks.place l.bytes.now)) } };

    ghost invariant = { λ l. IsUnquoted l.bytes.now × AreAhead l.separator l.bytes.now l.marks × (l.number + (length l.bytes.now - l.marks.place) < 2 ^ 64) };
}

impl<'a> Lines<'a> {
    /// All rows of the bytes, which have no quote, of the file at a place, whose cells this byte separates, are left. So many rows of the file
    /// stand in front of them.
    pub(crate) fn new(
        alloc: Global,
        separator: u8,
        file: usize,
        front: u64,
        bytes: &'a [u8],
    ) -> Lines<'a>
        requires unquoted { IsUnquoted bytes.now }
        requires numbered { front + length bytes.now < 2 ^ 64 }
        ensures row { result.row ≡ line_row file front [] }
        ensures left { result.left ≡ rows_of_bytes (line_row file front []) (config_by separator) st.StartRecord (Some bytes.entry.now) }
    {
        Lines {
            separator,
            file,
            number: front,
            cells: Vec::new(alloc),
            bytes,
            marks: Marks::new(separator, bytes),
        }
    }

    /// Reads the next row, and answers whether there was one.
    pub(crate) fn next(&mut self) -> Result<bool, NoMemory>
        ensures { IfOk result (λ found. Moves self.old.left self.new found) }
    {
        let marks = row_marks(self.separator, self.bytes, self.marks);
        self.cells.clear();
        if marks.place() >= self.bytes.len() {
            self.marks = marks;
            return Ok(false);
        }
        self.marks = cut_cells(self.separator, self.bytes, marks, &mut self.cells)?;
        self.number += 1;
        Ok(true)
    }

    /// The place of the file.
    pub(crate) fn file(&self) -> usize
        ensures { result ≡ self.now.row.file }
    {
        self.file
    }

    /// The number of the row that was read last, from 1.
    pub(crate) fn number(&self) -> u64
        ensures { result ≡ self.now.row.number }
    {
        self.number
    }

    /// How many cells it has.
    pub(crate) fn len(&self) -> usize
        ensures { result ≡ length self.now.row.cells }
    {
        self.cells.len()
    }

    /// A cell of it; an empty one where there is none.
    pub(crate) fn cell(&self, place: usize) -> &[u8]
        ensures { result.now ≡ cell_at place self.now.row }
    {
        match self.cells.get(place) {
            Some(cell) => cell,
            None => b"",
        }
    }
}
