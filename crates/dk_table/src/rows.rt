// The rows of a file, one after another.
ghost use Rattle.std.specs.Prelude.{◌≡◌, ◌<◌, ◌+◌, ◌^◌, IfOk, drop, length};
ghost use Rattle.csv.specs.Reading.{records, strip_bom};
ghost use Rattle.dk_table.specs.Tables.{body_in, config_by, placed_from, rows_in};
ghost use Rattle.dk_table.specs.Tables.Cursors.{Moves};
ghost use Rattle.dk_table.specs.Tables.PlacedRows.{cell_at};

pub(crate) mod lines;
mod marks;
mod records;

use crate::file_bytes::FileBytes;
use crate::rows::lines::Lines;
use crate::rows::records::Records;
use crate::words::command::Command;
use dk_base::NoMemory;
use std::alloc::Global;
use std::marker::Model;

/// How the rows of a file are read: where its bytes have no quote they are lines, which is the faster way.
#[derive(Drop)]
enum Source<'a> {
    Lines(Lines<'a>),
    Records(Box<Records<'a>>),
}

/// Goes through the rows of a file, which contracts see as the row that was read last and those that are left.
#[derive(Drop)]
pub(crate) struct Rows<'a> {
    source: Source<'a>,
}

impl<'a> Model for Rows<'a> {
    ghost use Rattle.dk_table.specs.Tables.Cursors.{Cursor};
    ghost use Rattle.dk_table.specs.Tables.Sources.{cursor_of};

    ghost Value = { Cursor };

    ghost view = { λ r. cursor_of r.source };
}

/// The bytes behind the byte order mark, where there is one.
#[tactic(auto, unfolding(csv::specs::Reading::strip_bom))]
pub(crate) fn behind_mark(bytes: &[u8]) -> &[u8]
    ensures { result.now ≡ strip_bom bytes.now }
{
    match bytes {
        [0xEF, 0xBB, 0xBF, rest @ ..] => rest,
        _ => bytes,
    }
}

impl<'a> Rows<'a> {
    /// All rows of the bytes of the file at a place, whose cells this byte separates, are left.
    pub(crate) fn new(
        alloc: Global,
        separator: u8,
        file: usize,
        bytes: &'a FileBytes,
    ) -> Result<Rows<'a>, NoMemory>
        ensures left { IfOk result (λ rows. rows.left ≡ rows_in separator file bytes.entry.now) }
        ensures few { IfOk result (λ rows. length rows.left < 2 ^ 64) }
    {
        if bytes.is_unquoted() {
            // There are no more rows than bytes, so the number of each has 64 bits.
            let marked = bytes.as_slice();
            let size = marked.len();
            prove!(size <= usize::MAX);
            let lines = Lines::new(alloc, separator, file, 0, behind_mark(marked));
            return Ok(Rows {
                source: Source::Lines(lines),
            });
        }
        Rows::by_records(alloc, separator, file, bytes.as_slice())
    }

    /// All rows of bytes further on in the file, in front of which so many of its rows stand, are left. No byte order mark is looked for.
    pub(crate) fn behind(
        alloc: Global,
        separator: u8,
        file: usize,
        front: u64,
        bytes: &'a FileBytes,
    ) -> Result<Rows<'a>, NoMemory>
        requires { front + length bytes.now < 2 ^ 64 }
        ensures left { IfOk result (λ rows. rows.left ≡ placed_from file (front + 1) (records (config_by separator) bytes.entry.now)) }
        ensures few { IfOk result (λ rows. front + length rows.left < 2 ^ 64) }
    {
        if bytes.is_unquoted() {
            let lines = Lines::new(alloc, separator, file, front, bytes.as_slice());
            return Ok(Rows {
                source: Source::Lines(lines),
            });
        }
        let records = Records::behind(alloc, separator, file, front, bytes.as_slice());
        Ok(Rows {
            source: Source::Records(Box::new(alloc, records)?),
        })
    }

    /// The same, by a reader for which it doesn't matter whether there are quotes.
    pub(crate) fn by_records(
        alloc: Global,
        separator: u8,
        file: usize,
        bytes: &'a [u8],
    ) -> Result<Rows<'a>, NoMemory>
        ensures left { IfOk result (λ rows. rows.left ≡ rows_in separator file bytes.entry.now) }
        ensures few { IfOk result (λ rows. length rows.left < 2 ^ 64) }
    {
        let records = Records::new(alloc, separator, file, bytes);
        Ok(Rows {
            source: Source::Records(Box::new(alloc, records)?),
        })
    }

    /// The rows behind the header, where there is one, are left.
    pub(crate) fn body(
        alloc: Global,
        command: &Command,
        file: usize,
        bytes: &'a FileBytes,
    ) -> Result<Rows<'a>, NoMemory>
        ensures { IfOk result (λ rows. rows.left ≡ body_in command.now file bytes.entry.now) }
    {
        let rows = Rows::new(alloc, command.separator, file, bytes)?;
        if command.has_header {
            rows.behind_first()
        } else {
            Ok(rows)
        }
    }

    // The rows behind the first that is left are left.
    fn behind_first(mut self) -> Result<Rows<'a>, NoMemory>
        ensures { IfOk result (λ rows. rows.left ≡ drop 1 self.entry.left) }
    {
        self.next()?;
        Ok(self)
    }

    /// Reads the next row, and answers whether there was one.
    pub(crate) fn next(&mut self) -> Result<bool, NoMemory>
        ensures { IfOk result (λ found. Moves self.old.left self.new found) }
    {
        match &mut self.source {
            Source::Lines(lines) => lines.next(),
            Source::Records(records) => records.next(),
        }
    }

    /// The place of the file.
    pub(crate) fn file(&self) -> usize
        ensures { result ≡ self.now.row.file }
    {
        match &self.source {
            Source::Lines(lines) => lines.file(),
            Source::Records(records) => records.row().file(),
        }
    }

    /// The number in the file, from 1, of the row that was read last.
    pub(crate) fn number(&self) -> u64
        ensures { result ≡ self.now.row.number }
    {
        match &self.source {
            Source::Lines(lines) => lines.number(),
            Source::Records(records) => records.row().number(),
        }
    }

    /// How many cells it has.
    pub(crate) fn len(&self) -> usize
        ensures { result ≡ length self.now.row.cells }
    {
        match &self.source {
            Source::Lines(lines) => lines.len(),
            Source::Records(records) => records.row().len(),
        }
    }

    /// A cell of it; an empty one where there is none.
    pub(crate) fn cell(&self, place: usize) -> &[u8]
        ensures { result.now ≡ cell_at place self.now.row }
    {
        match &self.source {
            Source::Lines(lines) => lines.cell(place),
            Source::Records(records) => records.row().cell(place),
        }
    }
}
