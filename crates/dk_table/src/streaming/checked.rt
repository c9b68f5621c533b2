// What a row is to a table: its header, a row of its body, or why it is refused.
ghost use Rattle.std.specs.Prelude.{◌≡◌};
ghost use Rattle.dk_table.specs.Streams.{row_steps};
ghost use Rattle.dk_table.specs.Streams.Stages.{steps_by};

use crate::faults::{Refusal, TableWhy};
use crate::rows::Rows;
use crate::tables::are_cells;
use dk_base::Text;

/// Whether the row that was read last is one of the table's body. The first row of a file is its header, where there is one.
pub(crate) fn is_body(has_header: bool, names: &[Text], rows: &Rows<'_>) -> Result<bool, Refusal>
    ensures { steps_by rows.now.row result ≡ row_steps has_header names.now rows.now.row }
{
    if has_header && rows.number() == 1 {
        if are_cells(names, rows) {
            return Ok(false);
        }
        return Err(Refusal {
            file: rows.file(),
            row: 1,
            why: TableWhy::OtherHeader,
        });
    }
    if rows.len() != names.len() {
        return Err(Refusal {
            file: rows.file(),
            row: rows.number(),
            why: TableWhy::RowLength,
        });
    }
    Ok(true)
}
