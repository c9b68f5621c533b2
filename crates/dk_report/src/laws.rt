//! What reports come to.
ghost use Rattle.dk_report.specs.Laws.{KeptPartsHaveSizes, ParentsAreLike};

/// The parents of a point are as its facts want them: each variable of a parent that has a partner is of its kind, and a base one
/// exactly where the partner is.
pub fn parents_are_like()
    ensures { ParentsAreLike }
{}

/// What an engine keeps of samples has the sizes that the samples have.
pub fn kept_parts_have_sizes()
    ensures { KeptPartsHaveSizes }
{}
