//! What the words of the command come to, in the words of a reader.
ghost use Rattle.dk_merge_command_line.specs.Laws.{NumbersAreWithinBounds, SomeFileIsNamed};

/// The least number of a run and its number of turns lie between 1 and 1,000,000,000.
pub fn numbers_are_within_bounds()
    ensures { NumbersAreWithinBounds }
{}

/// A run has one file at least.
pub fn some_file_is_named()
    ensures { SomeFileIsNamed }
{}
