//! What the definitions of patterns come to.
ghost use Rattle.dk_presence.specs.Laws.{PatternsAreDetermined};

/// Samples determine the patterns of present leaders with their counts, but for the order in which they are held.
pub fn patterns_are_determined()
    ensures { PatternsAreDetermined }
{}
