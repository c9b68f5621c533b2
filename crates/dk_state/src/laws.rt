//! What the definitions of state files come to.
ghost use Rattle.dk_state.specs.Laws.{CompactFormIsKept, OrderOfSamplesDoesNotMatter, StateFilesAreSpellings};

/// The compact form of samples is what an engine keeps of them.
pub fn compact_form_is_kept()
    ensures { CompactFormIsKept }
{}

/// A state file doesn't depend on the order of a point's samples.
pub fn order_does_not_matter()
    ensures { OrderOfSamplesDoesNotMatter }
{}

/// Every state file of a history that can be saved is a spelling.
pub fn state_files_are_spellings()
    ensures { StateFilesAreSpellings }
{}
