// What is found of a claim.
ghost use Rattle.std.specs.Prelude.{◌≡◌, ◌↔◌, IsTrue};
ghost use Rattle.dk_verdicts.specs.Standing.{verdict_of};

use crate::verdicts::Verdict;
use dk_base::PointId;
use dk_expr::Assertion;

/// What is found of a claim so far.
#[derive(Drop)]
pub(crate) enum Finding {
    /// No point has the claim's name, or none of its instances has the text.
    Unknown,
    /// It is this assertion of the point, and so many tuples were tested, at most 2^64 - 1. None violates it.
    Holds {
        point: PointId,
        assertion: Assertion,
        tuples: u64,
    },
    /// The first record that violates it begins at this line of the file at this place.
    Violated {
        file: usize,
        line: u64,
    },
}

impl Finding {
    /// Whether nothing is found.
    pub(crate) fn is_unknown(&self) -> bool
        ensures { IsTrue result ↔ (self.now ≡ Finding.Unknown) }
    {
        matches!(self, Finding::Unknown)
    }

    /// The verdict that it comes to.
    pub(crate) fn verdict(&self) -> Verdict
        ensures { result ≡ verdict_of self.now }
    {
        match self {
            Finding::Unknown => Verdict::Unknown,
            Finding::Holds { tuples, .. } => Verdict::Holds { tuples: *tuples },
            Finding::Violated { file, line } => Verdict::Violated {
                file: *file,
                line: *line,
            },
        }
    }
}
