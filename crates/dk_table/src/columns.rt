// What the cells of a column write.
ghost use Rattle.std.specs.Prelude.{◌≡◌, IfOk, is_some};
ghost use Rattle.dk_table.specs.Columns.{cell_value, written_value};

pub(crate) mod cells;
pub(crate) mod judging;

use crate::columns::cells::{TruthWords, is_decimal, is_whole, truth};
use dk_base::NoMemory;

/// How the cells of a column are read.
#[derive(Clone, Copy, Debug, PartialEq, Eq)]
pub enum ColumnKind {
    /// Each cell that isn't empty writes a whole number within 64 bits.
    Whole,
    /// Each writes a truth value, all in one spelling.
    Truth(TruthWords),
    /// Each writes a decimal with so many places, which is taken times 10 to this number.
    Decimal(u32),
    /// Texts of any kind.
    Text,
}

/// The kinds that are looked for, in order.
pub const CANDIDATES: [ColumnKind; 22] = [
    ColumnKind::Whole,
    ColumnKind::Truth(TruthWords::Lower),
    ColumnKind::Truth(TruthWords::Title),
    ColumnKind::Truth(TruthWords::Upper),
    ColumnKind::Decimal(1),
    ColumnKind::Decimal(2),
    ColumnKind::Decimal(3),
    ColumnKind::Decimal(4),
    ColumnKind::Decimal(5),
    ColumnKind::Decimal(6),
    ColumnKind::Decimal(7),
    ColumnKind::Decimal(8),
    ColumnKind::Decimal(9),
    ColumnKind::Decimal(10),
    ColumnKind::Decimal(11),
    ColumnKind::Decimal(12),
    ColumnKind::Decimal(13),
    ColumnKind::Decimal(14),
    ColumnKind::Decimal(15),
    ColumnKind::Decimal(16),
    ColumnKind::Decimal(17),
    ColumnKind::Decimal(18),
];

// Whether a cell with bytes writes a value of the kind. Digits of decimals are put into `digits`.
fn is_written(kind: ColumnKind, cell: &[u8], digits: &mut Vec<u8>) -> Result<bool, NoMemory>
    ensures { IfOk result (λ is. is ≡ is_some (written_value kind cell.now)) }
{
    match kind {
        ColumnKind::Whole => Ok(is_whole(cell)),
        ColumnKind::Truth(words) => Ok(truth(words, cell).is_some()),
        ColumnKind::Decimal(places) => is_decimal(places, cell, digits),
        ColumnKind::Text => Ok(true),
    }
}

/// Whether a cell writes a value of the kind, or is empty. Digits of decimals are put into `digits`.
pub(crate) fn writes(kind: ColumnKind, cell: &[u8], digits: &mut Vec<u8>) -> Result<bool, NoMemory>
    ensures { IfOk result (λ does. does ≡ is_some (cell_value kind cell.now)) }
{
    if cell.is_empty() {
        Ok(true)
    } else {
        is_written(kind, cell, digits)
    }
}
