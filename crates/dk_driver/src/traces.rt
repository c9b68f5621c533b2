// The files that a program reads.
use dk_arguments::Word;
use dk_base::List;

/// The files that a program reads, and how.
#[derive(Debug, Drop)]
pub struct Traces {
    /// The names of the files, in order. One that stands twice is read twice.
    pub names: List<Word>,
    /// Whether an exit record without an entry is left out, instead of refused.
    pub ignore_missing_entry: bool,
}
