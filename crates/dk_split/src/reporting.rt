// The report: a section for each point.
ghost use Rattle.std.specs.Prelude.{◌≡◌};
ghost use Rattle.dk_driver.specs.Standing.{StandsFor as FeedStandsFor, points_of, told_by};
ghost use Rattle.dk_program.specs.Ending.{ReportEnds};
ghost use Rattle.dk_split.specs.Standing.{AreSplitsOf, StandsFor};
ghost use Rattle.dk_split.specs.Statuses.{report_of};

use crate::{Command, Splits};
use dk_base::{NoMemory, PointId, Text};
use dk_driver::{Feed, Traces};
use dk_events::Ended;
use dk_io::Sinks;
use dk_program::{Begins, InParts, Program, tell_parts};
use std::alloc::Global;

impl Program for Command {
    ghost use Rattle.std.specs.Prelude.{◌≡◌};
    ghost use Rattle.dk_split.specs.Statuses.{report_of};

    type Kept = Splits;

    ghost traces = { λ command. command.traces };

    ghost is_report = { λ command _ told text. text ≡ report_of command told };

    fn traces(&self) -> &Traces {
        &self.traces
    }

    fn tell<S: Sinks>(&self, alloc: Global, feed: Feed<Splits>, sinks: &mut S) -> Ended
        requires { AreSplitsOf (points_of feed) feed.consumer.splits.items }
        ensures { ReportEnds (FeedStandsFor (λ s told. StandsFor s told.points told.samples) feed) (λ h records text. text ≡ report_of self.now (told_by h records))
            (S.written sinks.old) (S.written sinks.new) (S.faults sinks.old) (S.faults sinks.new) result }
    {
        tell_parts(alloc, self, &feed, sinks)
    }
}

impl Begins for Command {
    ghost begins_with = { λ _. tt };

    fn begin(&self, alloc: Global) -> Result<Splits, NoMemory> {
        Ok(Splits::new(alloc))
    }
}

impl InParts for Command {
    ghost use Rattle.std.specs.Prelude.{length};
    ghost use Rattle.dk_implications.specs.Reports.{implications_at};
    ghost use Rattle.dk_template.specs.declared.grammar.Grammar.TheVariants.{Two};

    type Kept = Splits;

    ghost part_count = { λ _ ps. length ps };

    ghost part = { λ command told p. implications_at Two command.least told.points told.samples p };

    fn part_count(&self, feed: &Feed<Splits>) -> u64 {
        u64::from(feed.points().len())
    }

    fn push_part(&self, text: &mut Text, feed: &Feed<Splits>, place: u64) -> Result<(), NoMemory> {
        let points = feed.points();
        let count = points.len();
        prove!(place < u64::from(count));
        feed.consumer()
            .push_section(text, points, PointId(place as u32), self.least)
    }
}
