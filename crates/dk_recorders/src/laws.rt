//! What the order of records comes to.
ghost use Rattle.dk_recorders.specs.Laws.{GroupsAreReadAsBlocks, OrderOfBlocksDoesNotMatter, OrderOfOwnSamplesDoesNotMatter};
ghost use Rattle.dk_recorders.specs.Laws.{OrderOfRecordsDoesNotMatter, TurnsDoNotMatter, TurnsWriteTheSame};

/// Two histories with the same table, comparability word and grammar and, for each point, the same own samples in any order have the same
/// sections and the same state file.
pub fn order_of_own_samples_does_not_matter()
    ensures { OrderOfOwnSamplesDoesNotMatter }
{}

/// What the lines of a file come to behind a history is what the groups of lines between its blank ones come to as blocks.
pub fn groups_are_read_as_blocks()
    ensures { GroupsAreReadAsBlocks }
{}

/// Sample blocks of recorders behind any history, whether exits without an entry are left out or refused: let no block have a header line;
/// let all entry and exit records carry nonces, and no two recorders share a nonce of one method. Then all orders of the blocks that keep
/// the order of each recorder are accepted or none is, and those that are accepted come to the same history but for the order of own
/// samples, with the same sections and the same state file.
pub fn order_of_blocks_does_not_matter()
    ensures { OrderOfBlocksDoesNotMatter }
{}

/// So it is of the files of recorders as one text, behind any start, if no line of a sample block ends with a CR: all orders of the sample
/// blocks that keep the order of each file are accepted or none is, and those that are accepted come to such histories.
pub fn order_of_records_does_not_matter()
    ensures { OrderOfRecordsDoesNotMatter }
{}

/// So it is of turns: where such files are accepted one behind another, they are accepted in turns, whatever the number of records that are
/// taken of each at a time, with the same sections and the same state file.
pub fn turns_do_not_matter()
    ensures { TurnsDoNotMatter }
{}

/// A run over such files in turns that tells its last report, and saves its state or not, writes what one over the files without turns does.
pub fn turns_write_the_same()
    ensures { TurnsWriteTheSame }
{}
