// What a trace of tables is to be.
use dk_arguments::Word;

/// What a trace of tables is to be.
#[derive(Debug, Drop)]
pub struct Command {
    /// The point's name; that of the first file where none is given.
    pub point: Option<Word>,
    /// What separates the cells of a row.
    pub separator: u8,
    /// By how many rows the kinds are found; by all where none is given.
    pub types: Option<u64>,
    /// Whether the first row of a file names the columns; else they are named `column1` and so on.
    pub has_header: bool,
}
