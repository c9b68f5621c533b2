// The top call.
ghost use Rattle.std.specs.Prelude.{◌≡◌, ◌≤◌, ◌<◌, ◌∷◌, [], List, ℕ, map, Option, Some, None, IfOk, string_bytes, length};
ghost use Rattle.dk_io.specs.Outside.{Holds, Rose};
ghost use Rattle.dk_io.specs.Streams.{Texts, with_bytes};
ghost use Rattle.dk_io.specs.declared.outside.Stream.TheVariants as stream;
ghost use Rattle.dk_core.specs.Selecting.{SelectsBy};
ghost use Rattle.dk_core.specs.Standing.{select_of};
ghost use Rattle.dk_command_line.specs.Requests.{request_of};
ghost use Rattle.dk_command_line.specs.Texts.{usage_line as usage_text};
ghost use Rattle.dk_arguments.specs.declared.request.Request.TheVariants as request;
ghost use Rattle.dk_program.specs.Ending.{EndsWith};
ghost use Rattle.dk_program.specs.Moments.{Outside, outside};
ghost use Rattle.dk_program.specs.Statuses.{IsARun};
ghost use Rattle.dk_program.specs.Telling.{WritesText};
ghost use Rattle.dk_run.specs.AllFiles.{AreCalmBut, IsCaused, IsTroubleOf, RunGives};
ghost use Rattle.dk_run.specs.Commands.{file_names, helds_of, is_selected as selects_name};
ghost use Rattle.dk_run.specs.Beginning.{HasCome, IsBegun};
ghost use Rattle.dk_run.specs.Ending.{EndsBy};
ghost use Rattle.dk_run.specs.Outputs.{first_line};
ghost use Rattle.dk_run.specs.Statuses.{CompletesCalmly, Says};
ghost use Rattle.dk_run.specs.Telling.{Added, ReportsBy};

use crate::choosing::{is_selected, name_at, state_name};
use crate::reading::{FilesTrouble, read_files, read_generated};
use crate::reporting::{tell_last, tell_state};
use crate::starting::{Beginning, begin};
use dk_command_line::Command;
use dk_core::Session;
use dk_driver::FileFault;
use dk_events::Ended;
use dk_generate::generated_line;
use dk_io::{Inputs, Sinks, Stream};
use dk_lines::{Limits, Lines};
use dk_program::{Halt, asked_run, tell_file_fault, write};
use std::alloc::Global;

/// Tells that the arguments are refused.
pub fn tell_usage<S: Sinks>(sinks: &mut S) -> Ended
    ensures { EndsWith Ended.Usage stream.Messages usage_text (S.written sinks.old) (S.written sinks.new) (S.faults sinks.old) (S.faults sinks.new) result }
{
    dk_program::tell_usage::<Command, S>(sinks)
}

// Tells a trouble with the files.
fn tell_trouble<S: Sinks>(
    alloc: Global,
    command: &Command,
    trouble: FilesTrouble,
    sinks: &mut S,
) -> Ended
    requires { IsTroubleOf (length (file_names command.now)) trouble }
    ensures { EndsBy command.now trouble (S.written sinks.old) (S.written sinks.new) (S.faults sinks.old) (S.faults sinks.new) result }
{
    match trouble {
        FilesTrouble::Refused { place, line, why } => {
            let fault = FileFault::Refused { line, why };
            tell_file_fault(alloc, name_at(command, place), fault, sinks)
        }
        FilesTrouble::Start { place } => {
            tell_file_fault(alloc, name_at(command, place), FileFault::Start, sinks)
        }
        FilesTrouble::Read { place } => {
            tell_file_fault(alloc, name_at(command, place), FileFault::Read, sinks)
        }
        FilesTrouble::Write => Ended::Write,
        FilesTrouble::NoMemory => Ended::NoMemory,
    }
}

// Tells that a file is generated, where the command asks for one.
fn tell_generated<S: Sinks>(command: &Command, sinks: &mut S) -> Result<(), Halt>
    ensures { WritesText stream.Messages (first_line command.now) (S.written sinks.old) (S.written sinks.new) (S.faults sinks.old) (S.faults sinks.new) result }
{
    match command.generate {
        Some(_) => write(sinks, Stream::Messages, generated_line().as_bytes()),
        None => Ok(()),
    }
}

// Reads all files of the run behind its state file.
fn read_run<F: Fn(&[u8]) -> bool + Drop, I: Inputs, S: Sinks>(
    alloc: Global,
    command: &Command,
    beginning: Beginning<F>,
    inputs: &mut I,
    sinks: &mut S,
) -> Result<Session<F>, FilesTrouble>
    requires callable { F.IsAlwaysCallable (select_of beginning.session) }
    requires selects { SelectsBy (F.post (select_of beginning.session)) (selects_name command.now) }
    requires begun { IsBegun command.now (I.file inputs.old) beginning }
    ensures gives { Added (S.written sinks.old) (S.written sinks.new) stream.Report (λ text.
        RunGives command.now (I.file inputs.old) (I.rest inputs.old) text result (I.rest inputs.new)) }
    ensures calm { AreCalmBut (S.faults sinks.old) (S.faults sinks.new) result }
    ensures cause { IsCaused (helds_of command.now (I.file inputs.old)) (Rose (I.faults inputs.old) (I.faults inputs.new)) result }
    ensures reports { IfOk result (λ session. ReportsBy command.now session) }
    ensures select { IfOk result (λ session. select_of session ≡ select_of beginning.session) }
    ensures files { I.file inputs.new ≡ I.file inputs.old }
{
    let Beginning { session, room } = beginning;
    let limits = Limits {
        line: Limits::STANDARD.line,
        total: room,
    };
    let mut lines = match Lines::new(alloc, limits) {
        Ok(lines) => lines,
        Err(_) => return Err(FilesTrouble::NoMemory),
    };
    let session = read_generated(alloc, command, session, &mut lines, sinks)?;
    read_files(alloc, command, session, inputs, &mut lines, sinks)
}

// Reads the files of the run and tells what they come to, behind the first line of the messages.
fn run_files<F: Fn(&[u8]) -> bool + Drop, I: Inputs, S: Sinks>(
    alloc: Global,
    command: &Command,
    beginning: Beginning<F>,
    inputs: &mut I,
    sinks: &mut S,
) -> Ended
    requires callable { F.IsAlwaysCallable (select_of beginning.session) }
    requires selects { SelectsBy (F.post (select_of beginning.session)) (selects_name command.now) }
    requires begun { IsBegun command.now (I.file inputs.old) beginning }
    ensures says { (before : Outside) →
        let now : Outside = outside (I.file inputs.old) (I.rest inputs.old) (I.faults inputs.old) (S.written sinks.old) (S.faults sinks.old) in
        let after : Outside = outside (I.file inputs.new) (I.rest inputs.new) (I.faults inputs.new) (S.written sinks.new) (S.faults sinks.new) in
        HasCome command.now before now beginning → S.written sinks.old ≡ with_bytes before.written stream.Messages (first_line command.now)
        → Says result (Some (request.Run command.now)) before after }
    ensures files { I.file inputs.new ≡ I.file inputs.old }
{
    match read_run(alloc, command, beginning, inputs, sinks) {
        Ok(session) => match tell_last(alloc, command, &session, sinks) {
            Ok(()) => match tell_state(alloc, command, &session, sinks) {
                Ok(()) => Ended::Done,
                Err(halt) => halt.status(),
            },
            Err(halt) => halt.status(),
        },
        Err(trouble) => tell_trouble(alloc, command, trouble, sinks),
    }
}

// Does what a command says, where the run has begun.
fn run_begun<F: Fn(&[u8]) -> bool + Drop, I: Inputs, S: Sinks>(
    alloc: Global,
    command: &Command,
    beginning: Beginning<F>,
    inputs: &mut I,
    sinks: &mut S,
) -> Ended
    requires callable { F.IsAlwaysCallable (select_of beginning.session) }
    requires selects { SelectsBy (F.post (select_of beginning.session)) (selects_name command.now) }
    requires begun { IsBegun command.now (I.file inputs.old) beginning }
    ensures says { (before : Outside) →
        let now : Outside = outside (I.file inputs.old) (I.rest inputs.old) (I.faults inputs.old) (S.written sinks.old) (S.faults sinks.old) in
        let after : Outside = outside (I.file inputs.new) (I.rest inputs.new) (I.faults inputs.new) (S.written sinks.new) (S.faults sinks.new) in
        HasCome command.now before now beginning → S.written sinks.old ≡ before.written → Says result (Some (request.Run command.now)) before after }
    ensures files { I.file inputs.new ≡ I.file inputs.old }
{
    match tell_generated(command, sinks) {
        Ok(()) => run_files(alloc, command, beginning, inputs, sinks),
        Err(halt) => halt.status(),
    }
}

// Does what a command says.
fn do_command<I: Inputs, S: Sinks>(
    alloc: Global,
    command: &Command,
    inputs: &mut I,
    sinks: &mut S,
) -> Ended
    ensures says { let before : Outside = outside (I.file inputs.old) (I.rest inputs.old) (I.faults inputs.old) (S.written sinks.old) (S.faults sinks.old) in
        let after : Outside = outside (I.file inputs.new) (I.rest inputs.new) (I.faults inputs.new) (S.written sinks.new) (S.faults sinks.new) in
        Says result (Some (request.Run command.now)) before after }
    ensures files { I.file inputs.new ≡ I.file inputs.old }
{
    match begin(
        alloc,
        command,
        |name: &[u8]| is_selected(command, name),
        inputs,
    ) {
        Ok(beginning) => run_begun(alloc, command, beginning, inputs, sinks),
        Err(fault) => tell_file_fault(alloc, state_name(command), fault, sinks),
    }
}

/// Does what a command says, as `run` does for words that ask for this.
pub fn run_command<I: Inputs, S: Sinks>(
    alloc: Global,
    command: &Command,
    inputs: &mut I,
    sinks: &mut S,
) -> Ended
    // What the status says.
    ensures says { let before : Outside = outside (I.file inputs.old) (I.rest inputs.old) (I.faults inputs.old) (S.written sinks.old) (S.faults sinks.old) in
        let after : Outside = outside (I.file inputs.new) (I.rest inputs.new) (I.faults inputs.new) (S.written sinks.new) (S.faults sinks.new) in
        Says result (Some (request.Run command.now)) before after }
    // Where the files are held and no fault of the outside rises, the run comes to its end.
    ensures complete { let before : Outside = outside (I.file inputs.old) (I.rest inputs.old) (I.faults inputs.old) (S.written sinks.old) (S.faults sinks.old) in
        let after : Outside = outside (I.file inputs.new) (I.rest inputs.new) (I.faults inputs.new) (S.written sinks.new) (S.faults sinks.new) in
        CompletesCalmly (Some (request.Run command.now)) before after result }
    ensures files { I.file inputs.new ≡ I.file inputs.old }
{
    do_command(alloc, command, inputs, sinks)
}

/// Does what the words of the command say: reads the files that they name, one after another, and writes the reports, or a message. Words
/// that the command doesn't accept are answered by the usage line; those that ask for help or the version, by a text on Report.
pub fn run<I: Inputs, S: Sinks>(
    alloc: Global,
    words: &[String],
    inputs: &mut I,
    sinks: &mut S,
) -> Ended
    // What the status says.
    ensures says { let before : Outside = outside (I.file inputs.old) (I.rest inputs.old) (I.faults inputs.old) (S.written sinks.old) (S.faults sinks.old) in
        let after : Outside = outside (I.file inputs.new) (I.rest inputs.new) (I.faults inputs.new) (S.written sinks.new) (S.faults sinks.new) in
        Says result (request_of (map string_bytes words.now)) before after }
    // Where the words ask for no run nothing is read.
    ensures unread { (IsARun (request_of (map string_bytes words.now)) → ⊥) → inputs.new ≡ inputs.old }
    // Where the files are held and no fault of the outside rises, the run comes to its end.
    ensures complete { let before : Outside = outside (I.file inputs.old) (I.rest inputs.old) (I.faults inputs.old) (S.written sinks.old) (S.faults sinks.old) in
        let after : Outside = outside (I.file inputs.new) (I.rest inputs.new) (I.faults inputs.new) (S.written sinks.new) (S.faults sinks.new) in
        CompletesCalmly (request_of (map string_bytes words.now)) before after result }
    ensures files { I.file inputs.new ≡ I.file inputs.old }
{
    match asked_run::<Command, S>(alloc, words, sinks) {
        Ok(command) => run_command(alloc, &command, inputs, sinks),
        Err(ended) => ended,
    }
}
