//! What facts are made of.
ghost use Rattle.dk_filters.specs.Laws.{AgreesIsAgreement, CandidatesAreInstancesThatHold, CandidatesAscend, FactsAreOfWhatMayBeAsked, KeptCandidatesAscend, SameStatesAreEqual};

/// The facts of an instance look at nothing but what may be asked of what answers for its point and for the parents: rows of the
/// grammar over variables that they admit, and variables that are there. So two that tell the same of these give the same facts.
pub fn facts_are_of_what_may_be_asked()
    ensures { FactsAreOfWhatMayBeAsked }
{}

/// The test of two states tells whether they are equal, and that of two variables whether they agree on samples.
pub fn tests_tell_equality()
    ensures states { SameStatesAreEqual }
    ensures variables { AgreesIsAgreement }
{}

/// The candidates are exactly the instances of the grammar that hold, by row and then by variables, and those that are kept stay in
/// this order.
pub fn candidates_are_instances()
    ensures exact { CandidatesAreInstancesThatHold }
    ensures ascend { CandidatesAscend }
    ensures kept { KeptCandidatesAscend }
{}
