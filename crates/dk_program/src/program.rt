// What a program brings.
ghost use Rattle.std.specs.Prelude.{◌≡◌, ◌≢◌, ◌≤◌, ◌++◌, ◌<◌, [], ℕ, Err, IfErr, IfOk, IfSome, IsErrOf, List, OnOk, Result, true};
ghost use Rattle.dk_base.specs.Reading.{LineFault};
ghost use Rattle.dk_base.specs.declared.why.Why.{Why};
ghost use Rattle.dk_driver.specs.Consuming.{Told, nothing_told};
ghost use Rattle.dk_driver.specs.Files.{File};
ghost use Rattle.dk_driver.specs.Standing.{StandsFor, points_of, told_by};
ghost use Rattle.dk_driver.specs.WholeFile.{fresh_reading};
ghost use Rattle.dk_driver.specs.Walks.{standard_limits, total_limit};
ghost use Rattle.dk_driver.specs.declared.traces.Traces.{Traces as FilesToRead};
ghost use Rattle.dk_io.specs.Outside.{Rose};
ghost use Rattle.dk_lines.specs.Reading.{left_of, room_of};
ghost use Rattle.dk_program.specs.Ending.{ReportEnds};
ghost use Rattle.dk_program.specs.Openings.{IsOfMay, OpeningGives};

use dk_arguments::Arguments;
use dk_base::{NoMemory, Text};
use dk_driver::{Consumer, Feed, FileFault, Traces};
use dk_events::Ended;
use dk_io::{Inputs, Sinks};
use dk_lines::Lines;
use std::alloc::Global;

/// A program that reads files, hands their points and samples to a consumer, and then writes a report of what that made of them.
pub trait Program: Arguments {
    /// What takes the points and samples.
    type Kept: Consumer;

    /// The files that the run reads, and how.
    ghost traces: { Self → FilesToRead };

    /// The text is the report of what the files told a consumer that was given this.
    ghost is_report: { Self → Self.Kept.Given → Told → List ℕ → Type 0 };

    /// The files that the run reads.
    fn traces(&self) -> &Traces
        ensures { result.now ≡ traces self.now };

    /// Writes the report, behind the last file: the run is done, a write failed, or memory ran out.
    fn tell<S: Sinks>(&self, alloc: Global, feed: Feed<Self::Kept>, sinks: &mut S) -> Ended
        requires { Self.Kept.fits feed.consumer (points_of feed) }
        ensures { ReportEnds (StandsFor Self.Kept.stands feed) (λ h records. is_report self.now (Self.Kept.given feed.consumer) (told_by h records))
            (S.written sinks.old) (S.written sinks.new) (S.faults sinks.old) (S.faults sinks.new) result };
}

/// A program that begins with the first of its files.
pub trait Begins: Program {
    /// What the consumer is given.
    ghost begins_with: { Self → Self.Kept.Given };

    /// A consumer that has taken nothing.
    fn begin(&self, alloc: Global) -> Result<Self::Kept, NoMemory>
        ensures given { IfOk result (λ kept. Self.Kept.given kept ≡ begins_with self.now) }
        ensures fits { IfOk result (λ kept. Self.Kept.fits kept []) }
        ensures stands { IfOk result (λ kept. Self.Kept.stands kept nothing_told) };
}

/// A program that reads another file in front of its files, which gives the consumer something. Its bytes count in the limit of all bytes;
/// places of files are counted without it.
pub trait Opens: Program {
    /// The name of the first file.
    ghost first: { Self → List ℕ };

    /// What a file, or what was delivered of one, gives, or where it is refused.
    ghost given_in: { File → Result Self.Kept.Given LineFault };

    /// Why it may be refused.
    ghost may_refuse: { Why → Type 0 };

    /// The name of the first file.
    fn first(&self) -> &str
        ensures { result.now ≡ first self.now };

    /// Reads the started file to its end, for a consumer that has taken nothing. A read may fail, and a line may be refused.
    fn open<I: Inputs>(
        &self,
        alloc: Global,
        inputs: &mut I,
        lines: &mut Lines,
    ) -> Result<Self::Kept, FileFault>
        requires fresh { lines.old ≡ fresh_reading lines.old }
        requires limits { lines.old.limits ≡ standard_limits }
        requires room { room_of lines.old ≡ total_limit }
        ensures fits { IfOk result (λ kept. Self.Kept.fits kept []) }
        ensures stands { IfOk result (λ kept. Self.Kept.stands kept nothing_told) }
        ensures gives { IfSome (left_of lines.old (I.rest inputs.old))
            (λ xs. OpeningGives given_in Self.Kept.given xs result lines.new (left_of lines.new (I.rest inputs.new))) }
        ensures may { IfErr result (IsOfMay may_refuse) }
        ensures started { result ≢ Err FileFault.Start }
        ensures limits { lines.new.limits ≡ lines.old.limits }
        // Where reading failed, no byte that was read is held.
        ensures emptied { IsErrOf result FileFault.Read → lines.new.ahead ≡ [] }
        ensures files { I.file inputs.new ≡ I.file inputs.old }
        ensures later { I.faults inputs.old ≤ I.faults inputs.new }
        ensures cause { IsErrOf result FileFault.Read → Rose (I.faults inputs.old) (I.faults inputs.new) };
}
