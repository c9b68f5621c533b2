//! What halves of samples come to.
ghost use Rattle.dk_implications.specs.Laws.{HalvesGrowOneByOne, HalvesHaveTheirSamples};

/// A half has just the samples in which the Bool has its truth value, and a sample more is one of at most one half.
pub fn halves_have_their_samples()
    ensures each { HalvesHaveTheirSamples }
    ensures more { HalvesGrowOneByOne }
{}
