//! What the definitions of divisors and directions come to.
ghost use Rattle.dk_arith.specs.Laws.{GcdsAreGreatest, LowestTermsAreNormal, LowestTermsAreParts};

/// The greatest common divisor divides both numbers, and each number that divides both divides it.
pub fn gcds_are_greatest()
    ensures { GcdsAreGreatest }
{}

/// A direction in lowest terms has no common divisor, and its first part that isn't 0 is positive. Its parts, times the divisor, are
/// those of the direction.
pub fn lowest_terms_are_normal()
    ensures normal { LowestTermsAreNormal }
    ensures parts { LowestTermsAreParts }
{}
