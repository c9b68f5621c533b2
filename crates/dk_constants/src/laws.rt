//! What the definitions of constants come to.
ghost use Rattle.dk_constants.specs.Laws.{ConstantsAreDetermined, KnownBefore, NoSamplesHaveNone};

/// Samples determine the constant leaders with their values. Of no samples there are none.
pub fn constants_are_determined()
    ensures one { ConstantsAreDetermined }
    ensures none { NoSamplesHaveNone }
{}

/// What was known before a sample: a variable's old leader had the value that is still known of the variable, or else the one that
/// ended.
pub fn known_before()
    ensures { KnownBefore }
{}
