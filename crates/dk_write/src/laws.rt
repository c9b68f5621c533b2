//! What is written is read.
ghost use Rattle.dk_write.specs.Laws.{BlocksAreRead, TracesAreRead, WrittenAreRead};

/// The block of header lines, of a declaration or of a record, read by the reader, does what it is meant to: that declaration, or that sample.
pub fn blocks_are_read()
    ensures { BlocksAreRead }
{}

/// The text of a trace is read as what its blocks are meant to do, one after another.
pub fn traces_are_read()
    ensures { TracesAreRead }
{}

/// What a writer writes is readable, since the table of the reader has each point that it has declared: so it is read as the history of these
/// declarations and samples, or refused where they are.
pub fn written_are_read()
    ensures { WrittenAreRead }
{}
