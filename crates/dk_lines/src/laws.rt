//! What the definitions of lines come to, in the words of the format.
ghost use Rattle.dk_lines.specs.Laws.{WholeFileHasItsLines};

/// A file that was read to its end has exactly its lines, numbered one after another, if these and its bytes keep the limits.
pub fn whole_file()
    ensures { WholeFileHasItsLines }
{}
