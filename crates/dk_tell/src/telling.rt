// The report in its format.
ghost use Rattle.dk_driver.specs.Standing.{StandsFor as FeedStandsFor, told_by};
ghost use Rattle.dk_program.specs.Ending.{ReportEnds};
ghost use Rattle.dk_tell.specs.Reports.{IsToldOf};
ghost use Rattle.dk_tell.specs.Standing.{Stands, sections_of};

use crate::{Command, Reported};
use dk_base::NoMemory;
use dk_driver::{Feed, Traces};
use dk_events::Ended;
use dk_formats::report;
use dk_io::{Sinks, Stream};
use dk_program::{Program, end_with};
use std::alloc::Global;

impl Program for Command {
    ghost use Rattle.dk_tell.specs.Reports.{IsToldOf};

    type Kept = Reported;

    ghost traces = { λ command. command.traces };

    ghost is_report = { λ command sections told text. IsToldOf command.format sections told text };

    fn traces(&self) -> &Traces {
        &self.traces
    }

    fn tell<S: Sinks>(&self, alloc: Global, feed: Feed<Reported>, sinks: &mut S) -> Ended
        ensures { ReportEnds (FeedStandsFor Stands feed) (λ h records. IsToldOf self.now.format (sections_of feed.consumer) (told_by h records))
            (S.written sinks.old) (S.written sinks.new) (S.faults sinks.old) (S.faults sinks.new) result }
    {
        let sections = feed.consumer().sections.as_slice();
        match report(alloc, self.format, feed.points(), sections) {
            Ok(text) => end_with(sinks, Stream::Report, text.as_slice(), Ended::Done),
            Err(NoMemory) => Ended::NoMemory,
        }
    }
}
