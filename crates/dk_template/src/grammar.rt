// Grammars and their rows.
ghost use Rattle.std.specs.Prelude.{◌≡◌, ◌↔◌, IsTrue};
ghost use Rattle.dk_template.specs.Templates.{IsRowOf, rows_in};

use crate::rows;

/// A row of the grammar, by its number from 1.
#[derive(Clone, Copy, Debug, PartialEq, Eq, PartialOrd, Ord)]
pub struct RowId(pub u8);

/// A grammar of invariants.
#[derive(Clone, Copy, Debug, PartialEq, Eq)]
pub enum Grammar {
    /// Rows 1 to 66.
    One,
    /// Rows 1 to 68.
    Two,
}

impl Grammar {
    /// The number of its rows, which is that of its last row.
    pub fn rows(self) -> u8
        ensures { result ≡ rows_in self }
    {
        match self {
            Grammar::One => rows::REVERSE,
            Grammar::Two => rows::PAIR_OFFSET,
        }
    }

    /// Whether the row is one of it.
    pub fn has(self, row: RowId) -> bool
        ensures { IsTrue result ↔ IsRowOf self row }
    {
        1 <= row.0 && row.0 <= self.rows()
    }
}
