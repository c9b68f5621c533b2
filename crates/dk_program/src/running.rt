// Runs of programs.
ghost use Rattle.std.specs.Prelude.{◌≡◌, ◌≤◌, [], IfErr, IfOk, Some, map, string_bytes};
ghost use Rattle.dk_arguments.specs.Requests.{request_of};
ghost use Rattle.dk_driver.specs.Consuming.{nothing_told};
ghost use Rattle.dk_driver.specs.Walks.{line_limit, standard_limits, total_limit};
ghost use Rattle.dk_io.specs.Outside.{Rose};
ghost use Rattle.dk_lines.specs.Reading.{room_of};
ghost use Rattle.dk_program.specs.Moments.{Outside, outside};
ghost use Rattle.dk_program.specs.Openings.{FirstFaultSays, IsOpened, IsOpeningCalmlyComplete, OpeningComesTo, opened_with, opening_by};
ghost use Rattle.dk_program.specs.Statuses.{Completes, IsARun, IsCalmlyComplete, RunComesTo, Says, StatusSays};
ghost use Rattle.dk_program.specs.Tasks.{task_by};

use crate::asking::asked_run;
use crate::program::{Begins, Opens, Program};
use crate::telling::{tell_fault, tell_file_fault};
use dk_base::NoMemory;
use dk_driver::{FileFault, read_files};
use dk_events::Ended;
use dk_io::{Failed, Inputs, Sinks};
use dk_lines::{Limits, Lines};
use std::alloc::Global;

// Reads the files by a consumer that has taken nothing, and tells what they come to. What the lines have read before counts.
fn run_from<P: Program, I: Inputs, S: Sinks>(
    alloc: Global,
    program: &P,
    kept: P::Kept,
    inputs: &mut I,
    lines: &mut Lines,
    sinks: &mut S,
) -> Ended
    requires fits { P.Kept.fits kept [] }
    requires stands { P.Kept.stands kept nothing_told }
    requires limits { lines.old.limits.line ≡ line_limit }
    ensures says { let before : Outside = outside (I.file inputs.old) (I.rest inputs.old) (I.faults inputs.old) (S.written sinks.old) (S.faults sinks.old) in
        let after : Outside = outside (I.file inputs.new) (I.rest inputs.new) (I.faults inputs.new) (S.written sinks.new) (S.faults sinks.new) in
        StatusSays (RunComesTo (task_by P.traces P.is_report program.now (P.Kept.given kept) (room_of lines.old))) result before after }
    ensures complete { let before : Outside = outside (I.file inputs.old) (I.rest inputs.old) (I.faults inputs.old) (S.written sinks.old) (S.faults sinks.old) in
        let after : Outside = outside (I.file inputs.new) (I.rest inputs.new) (I.faults inputs.new) (S.written sinks.new) (S.faults sinks.new) in
        IsCalmlyComplete (task_by P.traces P.is_report program.now (P.Kept.given kept) (room_of lines.old)) before after result }
    ensures later { I.faults inputs.old ≤ I.faults inputs.new }
    ensures files { I.file inputs.new ≡ I.file inputs.old }
{
    let traces = program.traces();
    match read_files(alloc, traces, kept, inputs, lines) {
        Ok(feed) => program.tell(alloc, feed, sinks),
        Err(fault) => tell_fault(alloc, traces.names.as_slice(), fault, sinks),
    }
}

// Does a run that begins with the first of its files.
fn run_begun<P: Begins, I: Inputs, S: Sinks>(
    alloc: Global,
    program: &P,
    inputs: &mut I,
    sinks: &mut S,
) -> Ended
    ensures says { let before : Outside = outside (I.file inputs.old) (I.rest inputs.old) (I.faults inputs.old) (S.written sinks.old) (S.faults sinks.old) in
        let after : Outside = outside (I.file inputs.new) (I.rest inputs.new) (I.faults inputs.new) (S.written sinks.new) (S.faults sinks.new) in
        StatusSays (RunComesTo (task_by P.traces P.is_report program.now (P.begins_with program.now) total_limit)) result before after }
    ensures complete { let before : Outside = outside (I.file inputs.old) (I.rest inputs.old) (I.faults inputs.old) (S.written sinks.old) (S.faults sinks.old) in
        let after : Outside = outside (I.file inputs.new) (I.rest inputs.new) (I.faults inputs.new) (S.written sinks.new) (S.faults sinks.new) in
        IsCalmlyComplete (task_by P.traces P.is_report program.now (P.begins_with program.now) total_limit) before after result }
    ensures files { I.file inputs.new ≡ I.file inputs.old }
{
    match Lines::new(alloc, Limits::STANDARD) {
        Ok(mut lines) => match program.begin(alloc) {
            Ok(kept) => run_from(alloc, program, kept, inputs, &mut lines, sinks),
            Err(NoMemory) => Ended::NoMemory,
        },
        Err(_) => Ended::NoMemory,
    }
}

// Reads the first file from its start to its end.
fn read_first<P: Opens, I: Inputs>(
    alloc: Global,
    program: &P,
    inputs: &mut I,
    lines: &mut Lines,
) -> Result<P::Kept, FileFault>
    requires limits { lines.old.limits ≡ standard_limits }
    requires room { room_of lines.old ≡ total_limit }
    ensures fits { IfOk result (λ kept. P.Kept.fits kept []) }
    ensures stands { IfOk result (λ kept. P.Kept.stands kept nothing_told) }
    ensures opened { IfOk result (λ kept. IsOpened (opening_by P.first P.given_in P.may_refuse P.traces P.is_report program.now) (I.file inputs.old)
        (opened_with (P.Kept.given kept) (room_of lines.new) (I.rest inputs.new))) }
    ensures fault { IfErr result (λ fault. FirstFaultSays (opening_by P.first P.given_in P.may_refuse P.traces P.is_report program.now)
        (I.file inputs.old (P.first program.now)) (I.rest inputs.old) (Rose (I.faults inputs.old) (I.faults inputs.new)) fault (I.rest inputs.new)) }
    ensures limits { lines.new.limits ≡ standard_limits }
    ensures files { I.file inputs.new ≡ I.file inputs.old }
    ensures later { I.faults inputs.old ≤ I.faults inputs.new }
{
    match lines.start(inputs, program.first()) {
        Ok(()) => program.open(alloc, inputs, lines),
        Err(Failed) => Err(FileFault::Start),
    }
}

// Does a run that reads another file in front of its files.
fn run_opened<P: Opens, I: Inputs, S: Sinks>(
    alloc: Global,
    program: &P,
    inputs: &mut I,
    sinks: &mut S,
) -> Ended
    ensures says { let before : Outside = outside (I.file inputs.old) (I.rest inputs.old) (I.faults inputs.old) (S.written sinks.old) (S.faults sinks.old) in
        let after : Outside = outside (I.file inputs.new) (I.rest inputs.new) (I.faults inputs.new) (S.written sinks.new) (S.faults sinks.new) in
        StatusSays (OpeningComesTo (opening_by P.first P.given_in P.may_refuse P.traces P.is_report program.now)) result before after }
    ensures complete { let before : Outside = outside (I.file inputs.old) (I.rest inputs.old) (I.faults inputs.old) (S.written sinks.old) (S.faults sinks.old) in
        let after : Outside = outside (I.file inputs.new) (I.rest inputs.new) (I.faults inputs.new) (S.written sinks.new) (S.faults sinks.new) in
        IsOpeningCalmlyComplete (opening_by P.first P.given_in P.may_refuse P.traces P.is_report program.now) before after result }
    ensures files { I.file inputs.new ≡ I.file inputs.old }
{
    let mut lines = match Lines::new(alloc, Limits::STANDARD) {
        Ok(lines) => lines,
        Err(_) => return Ended::NoMemory,
    };
    match read_first(alloc, program, inputs, &mut lines) {
        Ok(kept) => run_from(alloc, program, kept, inputs, &mut lines, sinks),
        Err(fault) => tell_file_fault(alloc, program.first(), fault, sinks),
    }
}

/// Does what the arguments ask for: reads the files, one after another, and writes the report, or a message. Arguments that the program
/// doesn't accept are answered by the usage line; those that ask for help or the version, by a text on Report.
pub fn run_program<P: Begins, I: Inputs, S: Sinks>(
    alloc: Global,
    given: &[String],
    inputs: &mut I,
    sinks: &mut S,
) -> Ended
    // What the status says.
    ensures says { let before : Outside = outside (I.file inputs.old) (I.rest inputs.old) (I.faults inputs.old) (S.written sinks.old) (S.faults sinks.old) in
        let after : Outside = outside (I.file inputs.new) (I.rest inputs.new) (I.faults inputs.new) (S.written sinks.new) (S.faults sinks.new) in
        Says (λ a. RunComesTo (task_by P.traces P.is_report a (P.begins_with a) total_limit)) P.command result (request_of P.command P.meant (map string_bytes given.now)) before after }
    // Where the arguments ask for no run nothing is read.
    ensures unread { (IsARun (request_of P.command P.meant (map string_bytes given.now)) → ⊥) → inputs.new ≡ inputs.old }
    // Where the files are held and no fault of the outside rises, the run comes to its end.
    ensures complete { let before : Outside = outside (I.file inputs.old) (I.rest inputs.old) (I.faults inputs.old) (S.written sinks.old) (S.faults sinks.old) in
        let after : Outside = outside (I.file inputs.new) (I.rest inputs.new) (I.faults inputs.new) (S.written sinks.new) (S.faults sinks.new) in
        Completes (λ a. IsCalmlyComplete (task_by P.traces P.is_report a (P.begins_with a) total_limit)) (request_of P.command P.meant (map string_bytes given.now)) before after result }
    ensures files { I.file inputs.new ≡ I.file inputs.old }
{
    match asked_run::<P, S>(alloc, given, sinks) {
        Ok(program) => run_begun(alloc, &program, inputs, sinks),
        Err(ended) => ended,
    }
}

/// Does what the arguments ask for: reads the first file and then the other files, one after another, and writes the report, or a message.
/// Arguments that the program doesn't accept are answered by the usage line; those that ask for help or the version, by a text on Report.
pub fn run_opening<P: Opens, I: Inputs, S: Sinks>(
    alloc: Global,
    given: &[String],
    inputs: &mut I,
    sinks: &mut S,
) -> Ended
    // What the status says.
    ensures says { let before : Outside = outside (I.file inputs.old) (I.rest inputs.old) (I.faults inputs.old) (S.written sinks.old) (S.faults sinks.old) in
        let after : Outside = outside (I.file inputs.new) (I.rest inputs.new) (I.faults inputs.new) (S.written sinks.new) (S.faults sinks.new) in
        Says (λ a. OpeningComesTo (opening_by P.first P.given_in P.may_refuse P.traces P.is_report a)) P.command result (request_of P.command P.meant (map string_bytes given.now)) before after }
    // Where the arguments ask for no run nothing is read.
    ensures unread { (IsARun (request_of P.command P.meant (map string_bytes given.now)) → ⊥) → inputs.new ≡ inputs.old }
    // Where the files are held and no fault of the outside rises, the run comes to its end.
    ensures complete { let before : Outside = outside (I.file inputs.old) (I.rest inputs.old) (I.faults inputs.old) (S.written sinks.old) (S.faults sinks.old) in
        let after : Outside = outside (I.file inputs.new) (I.rest inputs.new) (I.faults inputs.new) (S.written sinks.new) (S.faults sinks.new) in
        Completes (λ a. IsOpeningCalmlyComplete (opening_by P.first P.given_in P.may_refuse P.traces P.is_report a)) (request_of P.command P.meant (map string_bytes given.now)) before after result }
    ensures files { I.file inputs.new ≡ I.file inputs.old }
{
    match asked_run::<P, S>(alloc, given, sinks) {
        Ok(program) => run_opened(alloc, &program, inputs, sinks),
        Err(ended) => ended,
    }
}
