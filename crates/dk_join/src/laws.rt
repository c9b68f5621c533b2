//! What two engines say together.
ghost use Rattle.dk_join.specs.Laws.{AgreeJoinedIsAgreement, CountJoinedIsCount, JoinedPartsAreDetermined, JoinedPartsAreExact, OrderOfJoinsDoesNotMatter, ReadJoinedIsFit};

/// What is read from the kept parts of two lists of samples, joined, is what both lists say together: the state of each row over
/// variables that it admits; in how many samples variables are present together; and which variables agree.
pub fn joined_answers_are_exact()
    ensures state { ReadJoinedIsFit }
    ensures count { CountJoinedIsCount }
    ensures agree { AgreeJoinedIsAgreement }
{}

/// The joined parts are what an engine keeps of both lists.
pub fn joined_parts_are_exact()
    ensures { JoinedPartsAreExact }
{}

/// Two engines have one join.
pub fn joined_parts_are_determined()
    ensures { JoinedPartsAreDetermined }
{}

/// Engines that are joined in any order and in any groups make the same parts.
pub fn order_of_joins_does_not_matter()
    ensures { OrderOfJoinsDoesNotMatter }
{}
