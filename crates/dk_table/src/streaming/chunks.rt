// Chunks of a file, which are whole rows.
ghost use Rattle.std.specs.Prelude.{◌≡◌, false};
ghost use Rattle.csv.specs.Machine.{ends_with, in_field};
ghost use Rattle.csv.specs.declared.parser.Terminator.TheVariants as term;
ghost use Rattle.dk_table.specs.Tables.{config_by};
ghost use Rattle.dk_table.specs.Tables.Chunks.{AreWholeRows, IsBehindLines, stand_behind, stand_of};

use crate::rows::lines::{ends_line, is_unquoted};
use memchr::memrchr2;

/// Where a reader of rows stands between two bytes.
#[derive(Clone, Copy, Debug, PartialEq, Eq)]
enum Stand {
    /// At the start of a row.
    Row,
    /// At the start of another cell.
    Cell,
    /// In a cell without quotes around it.
    InCell,
    /// The byte stands within quotes.
    InQuotes,
    /// Behind a quote that closes a cell, or is the first of two that stand for one.
    BehindQuote,
}

impl Stand {
    // Behind a byte that is read as it stands in a cell.
    fn in_cell(separator: u8, byte: u8) -> Stand
        ensures { result ≡ stand_of (in_field (config_by separator) byte).0 }
    {
        if byte == separator {
            Stand::Cell
        } else if ends_line(byte) {
            Stand::Row
        } else {
            Stand::InCell
        }
    }

    /// Behind the next byte.
    fn behind(self, separator: u8, byte: u8) -> Stand
        ensures { result ≡ stand_behind separator self byte }
    {
        let is_quote = byte == b'"';
        match self {
            Stand::Row if ends_line(byte) => Stand::Row,
            Stand::Row | Stand::Cell | Stand::BehindQuote if is_quote => Stand::InQuotes,
            Stand::InQuotes if is_quote => Stand::BehindQuote,
            Stand::InQuotes => Stand::InQuotes,
            _ => Stand::in_cell(separator, byte),
        }
    }
}

// How many bytes there are up to behind the last one that ends a line.
fn behind_lines(bytes: &[u8]) -> usize
    ensures { IsBehindLines bytes.now result }
{
    match memrchr2(b'\r', b'\n', bytes) {
        None => 0,
        Some(end) => end + 1,
    }
}

// How many bytes in front are whole rows, whether there are quotes or not.
fn whole_records(separator: u8, bytes: &[u8]) -> usize
    ensures { AreWholeRows (config_by separator) bytes.now result }
{
    let mut stand = Stand::Row;
    let mut whole = 0;
    for (place, byte) in bytes.iter().enumerate() {
        stand = stand.behind(separator, *byte);
        if stand == Stand::Row {
            whole = place + 1;
        }
    }
    whole
}

/// How many bytes in front are whole rows: as many as are.
pub(crate) fn whole_rows(separator: u8, bytes: &[u8]) -> usize
    ensures { AreWholeRows (config_by separator) bytes.now result }
{
    if is_unquoted(bytes) && !ends_line(separator) {
        behind_lines(bytes)
    } else {
        whole_records(separator, bytes)
    }
}
