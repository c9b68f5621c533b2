// Calls that are counted, some of which fail.
ghost use Rattle.std.specs.Prelude.{◌≡◌, ◌≤◌, ◌==◌, IsTrue};
ghost use Rattle.std.specs.List.{list_any};
ghost use Rattle.dk_io.specs.Outside.{Rose};
ghost use Rattle.dk_io.specs.Calls.{uncalled, next_fails, counted};

use dk_base::List;
use std::marker::Model;

/// Counts calls and faults. The calls with the listed numbers fail, counted from 1. Both counts stay at the type's end.
#[derive(Drop)]
pub(crate) struct ListedCalls {
    failing: List<u64>,
    count: u64,
    faults: u64,
}

impl Model for ListedCalls {
    ghost use Rattle.dk_io.specs.Calls.{Calls};

    ghost Value = { Calls };

    ghost view = { λ c. record { failing = c.failing; count = c.count; faults = c.faults } };
}

// Whether a number is on the list.
fn is_listed(numbers: &[u64], number: u64) -> bool
    ensures { result ≡ list_any (λ k. k == number) numbers.now }
{
    numbers.iter().any(|k| *k == number)
}

impl ListedCalls {
    /// No call was made.
    pub(crate) fn new(failing: List<u64>) -> ListedCalls
        ensures { result ≡ uncalled failing }
    {
        ListedCalls {
            failing,
            count: 0,
            faults: 0,
        }
    }

    /// Whether the next call is on the list.
    pub(crate) fn next_fails(&self) -> bool
        ensures { result ≡ next_fails self.now }
    {
        is_listed(self.failing.as_slice(), self.count.saturating_add(1))
    }

    /// Counts a call, which met a fault or not.
    pub(crate) fn count(&mut self, has_fault: bool)
        ensures counted { self.new ≡ counted has_fault self.old }
        ensures later { self.old.faults ≤ self.new.faults }
        ensures rose { IsTrue has_fault → Rose self.old.faults self.new.faults }
    {
        self.count = self.count.saturating_add(1);
        if has_fault {
            self.faults = self.faults.saturating_add(1);
        }
    }
}
