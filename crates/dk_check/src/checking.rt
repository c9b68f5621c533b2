// The checker of the claims, which takes the samples of files.
ghost use Rattle.std.specs.Prelude.{◌≡◌, [], IfOk, OnOk, Some};
ghost use Rattle.dk_driver.specs.Consuming.{nothing_told};
ghost use Rattle.dk_events.specs.Telling.{EventFits};
ghost use Rattle.dk_check.specs.Standing.{IsKeptUp, StandsFor, claims_of};
ghost use Rattle.dk_check.specs.Taking.{TakesEvent};

use dk_base::{List, NoMemory};
use dk_claims::Claim;
use dk_driver::Consumer;
use dk_events::Event;
use dk_points::Points;
use dk_verdicts::Checker;
use std::alloc::Global;

/// The checker of the claims that an assertion file holds.
#[derive(Drop)]
pub struct Checking {
    pub(crate) checker: Checker,
}

impl Checking {
    // It has taken nothing.
    pub(crate) fn new(alloc: Global, claims: List<Claim>) -> Result<Checking, NoMemory>
        ensures claims { IfOk result (λ c. claims_of c ≡ claims) }
        ensures fits { IfOk result (λ c. IsKeptUp c []) }
        ensures stands { IfOk result (λ c. StandsFor c nothing_told) }
    {
        Ok(Checking {
            checker: Checker::new(alloc, claims)?,
        })
    }
}

impl Checking {
    // Takes what a block of the file at this place does: the checker is given a record. It finds new points by itself.
    fn take_event(&mut self, points: &Points, file: usize, event: Event<'_>) -> Result<(), NoMemory>
        requires kept_up { IsKeptUp self.old points.now }
        requires fits { EventFits points.now (Some event) }
        ensures { OnOk result (TakesEvent points.now file event.entry self.old.checker self.new.checker) }
    {
        match event {
            Event::Sample {
                point,
                line,
                values,
            } => self.checker.take(points, point, file, line, values),
            _ => Ok(()),
        }
    }
}

impl Consumer for Checking {
    ghost use Rattle.dk_check.specs.Standing.{IsKeptUp, StandsFor, claims_of};

    type Given = List<Claim>;

    ghost given = { claims_of };

    ghost fits = { IsKeptUp };

    ghost stands = { StandsFor };

    fn take(&mut self, points: &Points, file: usize, event: Event<'_>) -> Result<(), NoMemory> {
        self.take_event(points, file, event)
    }
}
