// Reports in parts: each is written before the next is made.
ghost use Rattle.std.specs.Prelude.{◌≡◌, ◌++◌, ◌<◌, ℕ, List, OnOk};
ghost use Rattle.dk_blocks.specs.History.{History};
ghost use Rattle.dk_driver.specs.Consuming.{Record, Told};
ghost use Rattle.dk_driver.specs.Standing.{StandsFor, points_of, told_by};
ghost use Rattle.dk_points.specs.Table.{Point};
ghost use Rattle.dk_program.specs.Ending.{ReportEnds, status_of as status_by};
ghost use Rattle.dk_program.specs.Telling.{TellsOutcome, WritesText, in_parts};

use dk_base::{NoMemory, Text};
use dk_driver::{Consumer, Feed};
use dk_events::Ended;
use dk_io::{Failed, Sinks, Stream, write_all};
use std::alloc::Global;

/// A report that has parts.
pub trait InParts: Sized {
    /// What took the points and samples.
    type Kept: Consumer;

    /// How many parts the report on these points has.
    ghost part_count: { Self → List Point → ℕ };

    /// The part at a place, of what the files told.
    ghost part: { Self → Told → ℕ → List ℕ };

    /// How many parts the report has.
    fn part_count(&self, feed: &Feed<Self::Kept>) -> u64
        requires { Self.Kept.fits feed.now.consumer (points_of feed.now) }
        ensures { result ≡ part_count self.now (points_of feed.now) };

    /// Writes the part at a place behind the text. After running out of memory the text may hold a part of it.
    fn push_part(
        &self,
        text: &mut Text,
        feed: &Feed<Self::Kept>,
        place: u64,
    ) -> Result<(), NoMemory>
        requires fits { Self.Kept.fits feed.now.consumer (points_of feed.now) }
        requires within { place < part_count self.now (points_of feed.now) }
        ensures { OnOk result ((h : History) (records : List Record) → StandsFor Self.Kept.stands feed.now h records
            → text.new ≡ text.old ++ part self.now (told_by h records) place) };
}

/// Why a text is not written whole.
#[derive(Clone, Copy, Debug, PartialEq, Eq)]
pub enum Halt {
    /// A write failed.
    Write,
    NoMemory,
}

impl Halt {
    /// How a program ends that halts so.
    pub fn status(self) -> Ended
        ensures { result ≡ status_by self }
    {
        match self {
            Halt::Write => Ended::Write,
            Halt::NoMemory => Ended::NoMemory,
        }
    }
}

/// Writes a text to a stream, or says why the run halts.
pub fn write<S: Sinks>(sinks: &mut S, stream: Stream, text: &[u8]) -> Result<(), Halt>
    ensures { WritesText stream text.now (S.written sinks.old) (S.written sinks.new) (S.faults sinks.old) (S.faults sinks.new) result }
{
    match write_all(sinks, stream, text) {
        Ok(()) => Ok(()),
        Err(Failed) => Err(Halt::Write),
    }
}

// Writes the part of the report at a place.
fn tell_part<P: InParts, S: Sinks>(
    alloc: Global,
    program: &P,
    feed: &Feed<P::Kept>,
    place: u64,
    sinks: &mut S,
) -> Result<(), Halt>
    requires fits { P.Kept.fits feed.now.consumer (points_of feed.now) }
    requires within { place < P.part_count program.now (points_of feed.now) }
    ensures { TellsOutcome (StandsFor P.Kept.stands feed.now) (λ h records. P.part program.now (told_by h records) place) (S.written sinks.old) (S.written sinks.new) (S.faults sinks.old) (S.faults sinks.new) result }
{
    let mut text = Text::new(alloc);
    match program.push_part(&mut text, feed, place) {
        Ok(()) => write(sinks, Stream::Report, text.as_slice()),
        Err(NoMemory) => Err(Halt::NoMemory),
    }
}

// Writes all parts of the report.
fn write_parts<P: InParts, S: Sinks>(
    alloc: Global,
    program: &P,
    feed: &Feed<P::Kept>,
    sinks: &mut S,
) -> Result<(), Halt>
    requires { P.Kept.fits feed.now.consumer (points_of feed.now) }
    ensures { TellsOutcome (StandsFor P.Kept.stands feed.now) (λ h records. in_parts P.part_count P.part program.now (told_by h records)) (S.written sinks.old) (S.written sinks.new) (S.faults sinks.old) (S.faults sinks.new) result }
{
    for place in 0..program.part_count(feed) {
        tell_part(alloc, program, feed, place, sinks)?;
    }
    Ok(())
}

/// Writes the report, its parts one after another.
pub fn tell_parts<P: InParts, S: Sinks>(
    alloc: Global,
    program: &P,
    feed: &Feed<P::Kept>,
    sinks: &mut S,
) -> Ended
    requires { P.Kept.fits feed.now.consumer (points_of feed.now) }
    ensures { ReportEnds (StandsFor P.Kept.stands feed.now) (λ h records text. text ≡ in_parts P.part_count P.part program.now (told_by h records))
        (S.written sinks.old) (S.written sinks.new) (S.faults sinks.old) (S.faults sinks.new) result }
{
    match write_parts(alloc, program, feed, sinks) {
        Ok(()) => Ended::Done,
        Err(halt) => halt.status(),
    }
}
