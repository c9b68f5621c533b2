// Filters: which candidates are kept.
ghost use Rattle.std.specs.Prelude.{◌≡◌, Bool};
ghost use Rattle.std.specs.Fn.{FnReturnsAt};
ghost use Rattle.dk_filters.specs.Candidates.{candidates_kept};
ghost use Rattle.dk_filters.specs.Filters.{AnswersBy};
ghost use Rattle.dk_filters.specs.declared.candidate.Candidate as declared;

use crate::Candidate;
use dk_base::List;
use std::marker::Model;

/// A filter: a predicate that says of each candidate whether it is kept. Contracts see it as the predicate.
#[derive(Drop)]
pub struct Filter<F> {
    predicate: F,
}

impl<F> Model for Filter<F> {
    ghost Value = { F };

    ghost view = { λ filter. filter.predicate };
}

impl<F: Fn(&Candidate) -> bool> Filter<F> {
    /// The filter that keeps what the predicate answers `true` to.
    pub fn new(keeps: F) -> Filter<F>
        ensures { result ≡ keeps }
    {
        Filter { predicate: keeps }
    }

    /// Whether the candidate is kept: what the predicate answers. Where it answers by a test of the candidate alone, that test tells.
    pub fn keeps(&self, candidate: &Candidate) -> bool
        requires { F.IsAlwaysCallable self.now }
        ensures answer { FnReturnsAt F.Fn self.now candidate.now result }
        ensures test { (test : declared.Candidate → Bool) → AnswersBy (F.post self.now) test → result ≡ test candidate.now }
    {
        (self.predicate)(candidate)
    }
}

/// The candidates that the filter keeps, in their order. It takes no memory.
pub fn kept<F: Fn(&Candidate) -> bool>(list: List<Candidate>, filter: &Filter<F>) -> List<Candidate>
    requires { F.IsAlwaysCallable filter.now }
    ensures { (test : declared.Candidate → Bool) → AnswersBy (F.post filter.now) test → result ≡ candidates_kept test list }
{
    let mut candidates = list.into_vec();
    candidates.retain(|candidate| filter.keeps(candidate));
    List::from_vec(candidates)
}
