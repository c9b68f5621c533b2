// What takes the points and samples of files.
ghost use Rattle.std.specs.Prelude.{◌≡◌, List, OnOk, Some};
ghost use Rattle.dk_events.specs.Telling.{EventFits};
ghost use Rattle.dk_points.specs.Table.{Point};
ghost use Rattle.dk_driver.specs.Consuming.{IsBehind, Tells, Told};

use dk_base::NoMemory;
use dk_events::Event;
use dk_points::Points;

/// What is made of the points that files declare and of their samples.
pub trait Consumer: Drop + Sized {
    /// What it is given before all files, as claims that it checks.
    type Given;

    /// What it was given. Taking leaves it.
    ghost given: { Self → Self.Given };

    /// It is over the points of this table, so that a sample of each of them can be taken.
    ghost fits: { Self → List Point → Type 0 };

    /// It stands for what files told.
    ghost stands: { Self → Told → Type 0 };

    /// Takes what a block of the file at this place tells: nothing, new points, or a sample, with the values of all variables of its
    /// point, derived ones included. The table is the one behind the block. After running out of memory nothing is said of it.
    fn take(&mut self, points: &Points, file: usize, event: Event<'_>) -> Result<(), NoMemory>
        requires behind { IsBehind (fits self.old) points.now event }
        requires event { EventFits points.now (Some event) }
        ensures given { OnOk result (given self.new ≡ given self.old) }
        ensures fits { OnOk result (fits self.new points.now) }
        ensures stands { OnOk result ((told : Told) (all : Told) → all.points ≡ points.now
            → stands self.old told → Tells file event.entry told all → stands self.new all) };
}
