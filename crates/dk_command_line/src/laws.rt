//! What the words of the command come to, in the words of a reader.
ghost use Rattle.dk_command_line.specs.Laws.{NumbersAreWithinBounds};

/// The least number and the period of a run lie between 1 and 1,000,000,000.
pub fn numbers_are_within_bounds()
    ensures { NumbersAreWithinBounds }
{}
