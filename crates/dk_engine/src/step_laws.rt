//! One sample more: the step is exact.
ghost use Rattle.dk_engine.specs.StepLaws.{FedPartsAreKept, FirstPartsAreKept, FirstSampleHasNoSlots, FreedPremisesAreUntouched, FreedTuplesAreChosen, FreedTuplesComeByRank, OpenedTuplesAreFreed, OwnLeadersAscend, PremisesAskTheirSlots, ReadingTells, RolesReadTheSlot, FewSlotsClose, SteppedSlotsAreExact, TouchedTuplesAreChosen, UnchangedSlotsAreExact, UnsatisfiedRowsBreak, UnsplitLeadersStay};

/// Slots are those of the samples with one more exactly where they are stepped: what the sample leaves of the old ones, and what the
/// candidates open.
pub fn stepped_slots_are_exact()
    ensures { SteppedSlotsAreExact }
{}

/// The tuples that lost premises free can be had by rising rank, from untouched tuples alone.
pub fn freed_tuples_come_by_rank()
    ensures ranked { FreedTuplesComeByRank }
    ensures untouched { FreedPremisesAreUntouched }
    ensures roles { RolesReadTheSlot }
    ensures chosen { FreedTuplesAreChosen }
{}

/// What the sample opens besides has the leaders of a slot by which a premise is lost.
pub fn opened_tuples_are_freed()
    ensures { OpenedTuplesAreFreed }
{}

/// Touched tuples can be had from the leaders that touch them.
pub fn touched_tuples_are_chosen()
    ensures { TouchedTuplesAreChosen }
{}

/// A rule begins to suppress a slot only where it was Empty and the sample's pattern is a new one, or where the least or the greatest
/// element over its variable begins.
pub fn few_slots_close()
    ensures { FewSlotsClose }
{}

/// Where a sample changes nothing, the slots stay as they are.
pub fn unchanged_slots_are_exact()
    ensures { UnchangedSlotsAreExact }
{}

/// The leaders ascend, and where no class splits they stay the same.
pub fn unsplit_leaders_stay()
    ensures ascend { OwnLeadersAscend }
    ensures stay { UnsplitLeadersStay }
{}

/// What is read from the kept parts answers before and after the sample, and a premise asks what is answered of its slot's tuple.
pub fn reading_tells()
    ensures reading { ReadingTells }
    ensures premises { PremisesAskTheirSlots }
{}

/// One look at a sample's tuple tells that a row with a relation is Broken.
pub fn unsatisfied_rows_break()
    ensures { UnsatisfiedRowsBreak }
{}

/// All parts after a sample, and after the first one.
pub fn parts_are_kept()
    ensures fed { FedPartsAreKept }
    ensures first { FirstPartsAreKept }
    ensures none { FirstSampleHasNoSlots }
{}
