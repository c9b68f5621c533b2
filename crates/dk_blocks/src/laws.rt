//! What the definitions of blocks come to, in the words of the format.
ghost use Rattle.dk_blocks.specs.Adding.{EffectsAreAdded};
ghost use Rattle.dk_blocks.specs.Runs.{GroupsAreLongestRuns};

/// The groups that blocks are read from are the longest runs of lines that are not blank.
pub fn groups_are_longest_runs()
    ensures { GroupsAreLongestRuns }
{}

/// What a block does is what it adds to a history: nothing, points without samples, or one sample of one point.
pub fn effects_are_added()
    ensures { EffectsAreAdded }
{}
