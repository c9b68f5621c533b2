//! State files merged in any order and in any groups, and however they are read.
ghost use Rattle.dk_merging.specs.Laws.{AnswersAreDetermined, EitherGroupingIsSame, EitherOrderIsSame, MergesAreStateFiles, OrderOfMergesDoesNotMatter, ReadingsSaveTheSame};

/// Merged state files of histories are the state file of the history with the samples of all. The same samples of each point, merged in
/// any order and in any groups, give the same bytes.
pub fn order_of_merges_does_not_matter()
    ensures files { MergesAreStateFiles }
    ensures order { OrderOfMergesDoesNotMatter }
{}

/// The state file of two histories is the same in either order, and that of three in either grouping.
pub fn either_order_and_grouping_is_same()
    ensures order { EitherOrderIsSame }
    ensures grouping { EitherGroupingIsSame }
{}

/// All readings of a state file declare the same, and what is saved of each point is the same. So two files have one answer, but that
/// memory may run out: they make one text, or none for one cause.
pub fn answers_are_determined()
    ensures readings { ReadingsSaveTheSame }
    ensures answers { AnswersAreDetermined }
{}
