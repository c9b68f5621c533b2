// The report: the verdict on each claim.
ghost use Rattle.std.specs.Prelude.{◌≡◌, IfOk, List};
ghost use Rattle.dk_blocks.specs.History.{History};
ghost use Rattle.dk_driver.specs.Consuming.{Record};
ghost use Rattle.dk_driver.specs.Files.{file_name_at};
ghost use Rattle.dk_driver.specs.Standing.{StandsFor as FeedStandsFor, points_of, told_by};
ghost use Rattle.dk_program.specs.Ending.{ReportEnds};
ghost use Rattle.dk_verdicts.specs.Reports.{IsNamed, verdict_lines};
ghost use Rattle.dk_check.specs.Standing.{IsKeptUp, StandsFor, claims_of};
ghost use Rattle.dk_check.specs.Statuses.{IsReportOf};

use crate::Command;
use crate::checking::Checking;
use dk_arguments::Word;
use dk_base::{NoMemory, Text};
use dk_claims::Claim;
use dk_driver::{Feed, Traces};
use dk_events::Ended;
use dk_io::{Sinks, Stream};
use dk_program::{Program, end_with};
use dk_verdicts::{Verdict, push_verdict};
use std::alloc::Global;

// The name of the file that a verdict tells; empty where it tells none.
fn file_of(names: &[Word], verdict: Verdict) -> &str
    ensures { IsNamed (file_name_at names.now) verdict result.now }
{
    match verdict {
        Verdict::Violated { file, line: _ } => match names.get(file) {
            Some(name) => name.as_str(),
            None => "",
        },
        _ => "",
    }
}

// The line of each claim with its verdict, one behind another.
fn lines(
    alloc: Global,
    claims: &[Claim],
    verdicts: &[Verdict],
    names: &[Word],
) -> Result<Text, NoMemory>
    ensures { IfOk result (λ text. text ≡ verdict_lines (file_name_at names.now) claims.now verdicts.now) }
{
    let mut text = Text::new(alloc);
    for (claim, verdict) in claims.iter().zip(verdicts) {
        push_verdict(&mut text, claim, *verdict, file_of(names, *verdict))?;
    }
    Ok(text)
}

// The report, where the files have these names by their places.
fn report(alloc: Global, names: &[Word], feed: Feed<Checking>) -> Result<Text, NoMemory>
    requires { IsKeptUp feed.consumer (points_of feed) }
    ensures { IfOk result (λ text. (h : History) (records : List Record) → FeedStandsFor StandsFor feed h records
        → IsReportOf names.now (claims_of feed.consumer) (told_by h records) text) }
{
    let (events, checking) = feed.into_parts();
    let mut checker = checking.checker;
    let verdicts = checker.verdicts(events.points())?;
    lines(alloc, checker.claims(), verdicts.as_slice(), names)
}

impl Program for Command {
    ghost use Rattle.dk_check.specs.Statuses.{IsReportOf};

    type Kept = Checking;

    ghost traces = { λ command. command.traces };

    ghost is_report = { λ command claims told text. IsReportOf command.traces.names claims told text };

    fn traces(&self) -> &Traces {
        &self.traces
    }

    fn tell<S: Sinks>(&self, alloc: Global, feed: Feed<Checking>, sinks: &mut S) -> Ended
        requires { IsKeptUp feed.consumer (points_of feed) }
        ensures { ReportEnds (FeedStandsFor StandsFor feed) (λ h records. IsReportOf self.now.traces.names (claims_of feed.consumer) (told_by h records))
            (S.written sinks.old) (S.written sinks.new) (S.faults sinks.old) (S.faults sinks.new) result }
    {
        match report(alloc, self.traces.names.as_slice(), feed) {
            Ok(text) => end_with(sinks, Stream::Report, text.as_slice(), Ended::Done),
            Err(NoMemory) => Ended::NoMemory,
        }
    }
}
