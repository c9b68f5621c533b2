//! State files merged in groups.
ghost use Rattle.dk_merge.specs.Laws.{GroupsCanBeMerged};

/// State files of histories can be merged in any groups, if each history can be saved and each point has at most 2^40 samples in all. So
/// nothing is asked of the groups themselves by `dk_merging::laws::order_of_merges_does_not_matter`.
pub fn groups_can_be_merged()
    ensures { GroupsCanBeMerged }
{}
