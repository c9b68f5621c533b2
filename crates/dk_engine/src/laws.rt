//! What is kept of samples, and what is read from it.
ghost use Rattle.dk_engine.specs.Laws.{AgreeReadIsAgreement, CountReadIsCount, FedPartsAreExact, KeptPartsAreDetermined, KeptPartsAreSaved, KeptPartsMeetTheirConditions, LeadersAreAdmitted, OrderDoesNotMatter, ReadAfterIsFit, ReadingIsFit, SlotsAreDetermined, SlotsOfFitsAreExact};

/// What is read from the kept parts of samples, and from nothing else, is what the samples say: the state of each row over variables
/// that it admits, in any order and with any repeats; in how many samples variables are present together; and which variables agree.
pub fn reading_is_exact()
    ensures state { ReadingIsFit }
    ensures count { CountReadIsCount }
    ensures agree { AgreeReadIsAgreement }
{}

/// A row that admits variables admits their leaders.
pub fn leaders_are_admitted()
    ensures { LeadersAreAdmitted }
{}

/// What is kept of samples meets the conditions of kept parts.
pub fn kept_parts_meet_their_conditions()
    ensures { KeptPartsMeetTheirConditions }
{}

/// What is kept of 1 to 2^40 samples is saved as parts of which an engine can be made.
pub fn kept_parts_are_saved()
    ensures { KeptPartsAreSaved }
{}

/// What is read from the kept parts, joined with a sample, is what the samples and that one say.
pub fn read_after_is_fit()
    ensures { ReadAfterIsFit }
{}

/// Samples have one list of slots, and one form of all parts, but for the order of the patterns.
pub fn kept_parts_are_determined()
    ensures slots { SlotsAreDetermined }
    ensures parts { KeptPartsAreDetermined }
{}

/// The slots that the fits of some samples give are exactly the slots of the samples.
pub fn slots_of_fits_are_exact()
    ensures { SlotsOfFitsAreExact }
{}

/// The parts with one sample more are what an engine keeps of the samples and that one.
pub fn fed_parts_are_exact()
    ensures { FedPartsAreExact }
{}

/// What is kept of samples is kept of them in any order.
pub fn order_does_not_matter()
    ensures { OrderDoesNotMatter }
{}
