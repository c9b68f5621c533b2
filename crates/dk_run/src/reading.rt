// Reading the files of a run, one after another. Reports by the way are written between their blocks.
ghost use Rattle.std.specs.Prelude.{◌≡◌, ◌≢◌, ◌≤◌, ◌<◌, ◌⊎◌, ◌++◌, length, string_bytes, ◌∷◌, [], List, ℕ, map, Option, Some, None, Err, IfOk, IfSome, IsErrOf, true, false};
ghost use Rattle.dk_generate.specs.Texts.{generated_name};
ghost use Rattle.dk_io.specs.Outside.{Absent, HeldFile, Holds, Rose};
ghost use Rattle.dk_io.specs.declared.outside.Stream.TheVariants as stream;
ghost use Rattle.dk_lines.specs.Reading.{left_of, room_of};
ghost use Rattle.dk_core.specs.Selecting.{SelectsBy};
ghost use Rattle.dk_core.specs.Standing.{ReportsAlike, blocks_of, over_of, select_of};
ghost use Rattle.dk_driver.specs.Files.{file_name_at};
ghost use Rattle.dk_run.specs.AllFiles.{AreCalmBut, AreNoBreak, AreReadTo, FilesGive, IsCaused, files_trouble};
ghost use Rattle.dk_run.specs.Beginning.{BeginsFrom};
ghost use Rattle.dk_run.specs.Commands.{file_names, generated_count, helds_of, is_selected};
ghost use Rattle.dk_run.specs.Courses.{Outset, line_limit};
ghost use Rattle.dk_run.specs.Starts.{BeginsLike};
ghost use Rattle.dk_run.specs.Telling.{Added, ReportsBy};
ghost use Rattle.dk_run.specs.WholeFile.{Behind, FileGives, IsCalmBut, IsNoBreak, StartedGives, TextGives, trouble_of_fault, trouble_of_halt, unstarted_reading};

use crate::choosing::generated_count;
use crate::reporting::tell_by_the_way;
use dk_arguments::Word;
use dk_base::{Fault, List, NoMemory, Text, Why};
use dk_command_line::Command;
use dk_core::Session;
use dk_generate::{generate, generated_name};
use dk_io::{Failed, Inputs, Sinks, SteadyInputs};
use dk_lines::Lines;
use dk_program::Halt;
use std::alloc::Global;

/// Why a file is not read to its end.
#[derive(Clone, Copy, Debug, PartialEq, Eq)]
pub(crate) enum Trouble {
    /// A line of it is refused.
    Refused { line: u64, why: Why },
    /// It could not be started.
    Start,
    /// It was started, and then a read failed.
    Read,
    /// A report by the way could not be written.
    Write,
    NoMemory,
}

/// Why the files are not read to their ends, and at which.
#[derive(Clone, Copy, Debug, PartialEq, Eq)]
pub(crate) enum FilesTrouble {
    Refused { place: usize, line: u64, why: Why },
    Start { place: usize },
    Read { place: usize },
    Write,
    NoMemory,
}

/// How many bytes of the generated text are taken at once.
const PIECE: usize = 65_536;

fn trouble_of_halt(halt: Halt) -> Trouble
    ensures { result ≡ trouble_of_halt halt }
{
    match halt {
        Halt::Write => Trouble::Write,
        Halt::NoMemory => Trouble::NoMemory,
    }
}

fn trouble_of_fault(fault: Fault) -> Trouble
    ensures { result ≡ trouble_of_fault fault }
{
    match fault {
        Fault::Refused { file: _, line, why } => Trouble::Refused { line, why },
        Fault::Read { file: _ } => Trouble::Read,
        Fault::NoMemory => Trouble::NoMemory,
    }
}

// Reads the started file to its end.
fn read_started<F: Fn(&[u8]) -> bool + Drop, I: Inputs, S: Sinks>(
    alloc: Global,
    command: &Command,
    session: Session<F>,
    inputs: &mut I,
    lines: &mut Lines,
    sinks: &mut S,
) -> Result<Session<F>, Trouble>
    requires started { lines.old.is_started ≡ true }
    requires begins { over_of session ≡ false }
    requires reports { ReportsBy command.now session }
    requires callable { F.IsAlwaysCallable (select_of session) }
    requires selects { SelectsBy (F.post (select_of session)) (is_selected command.now) }
    ensures gives { Added (S.written sinks.old) (S.written sinks.new) stream.Report (λ text. (place : ℕ) →
        Behind command.now session text (λ Begun all h steps. IfSome (left_of lines.old (I.rest inputs.old))
        (λ xs. StartedGives command.now Begun place h steps lines.old xs all result lines.new (left_of lines.new (I.rest inputs.new))))) }
    ensures calm { IsCalmBut (S.faults sinks.old) (S.faults sinks.new) result }
    ensures over { IfOk result (λ next. over_of next ≡ false) }
    ensures alike { IfOk result (λ next. ReportsAlike session next) }
    ensures started { result ≢ Err Trouble.Start }
    ensures limits { lines.new.limits ≡ lines.old.limits }
    ensures emptied { IsErrOf result Trouble.Read → lines.new.ahead ≡ [] }
    ensures files { I.file inputs.new ≡ I.file inputs.old }
    ensures later { I.faults inputs.old ≤ I.faults inputs.new }
    ensures cause { IsErrOf result Trouble.Read → Rose (I.faults inputs.old) (I.faults inputs.new) }
{
    let mut session = session;
    'steps: loop {
        match session.block(inputs, lines) {
            Ok(true) => match tell_by_the_way(alloc, command, &session, sinks) {
                Ok(()) => continue 'steps,
                Err(halt) => return Err(trouble_of_halt(halt)),
            },
            Ok(false) => return Ok(session.end_file()),
            Err(fault) => return Err(trouble_of_fault(fault)),
        }
    }
}

// Reads a file from its start to its end.
fn read_file<F: Fn(&[u8]) -> bool + Drop, I: Inputs, S: Sinks>(
    alloc: Global,
    command: &Command,
    session: Session<F>,
    name: &str,
    inputs: &mut I,
    lines: &mut Lines,
    sinks: &mut S,
) -> Result<Session<F>, Trouble>
    requires begins { over_of session ≡ false }
    requires reports { ReportsBy command.now session }
    requires callable { F.IsAlwaysCallable (select_of session) }
    requires selects { SelectsBy (F.post (select_of session)) (is_selected command.now) }
    ensures gives { Added (S.written sinks.old) (S.written sinks.new) stream.Report (λ text.
        (result ≡ Err Trouble.Start → text ≡ [])
        × ((place : ℕ) → Behind command.now session text (λ Begun all h steps. (xs : List ℕ) → I.file inputs.old name.now ≡ Holds xs
        → FileGives command.now Begun place h steps lines.old xs all result lines.new (I.rest inputs.new)))) }
    ensures calm { IsCalmBut (S.faults sinks.old) (S.faults sinks.new) result }
    ensures over { IfOk result (λ next. over_of next ≡ false) }
    ensures alike { IfOk result (λ next. ReportsAlike session next) }
    // Only a file that could not be started may be absent, and of that one nothing was read.
    ensures there { result ≢ Err Trouble.Start → I.file inputs.old name.now ≢ Absent }
    ensures unstarted { result ≡ Err Trouble.Start → (lines.new ≡ unstarted_reading lines.old) × (I.rest inputs.new ≡ I.rest inputs.old) }
    ensures limits { lines.new.limits ≡ lines.old.limits }
    ensures files { I.file inputs.new ≡ I.file inputs.old }
    ensures later { I.faults inputs.old ≤ I.faults inputs.new }
    ensures start { result ≡ Err Trouble.Start → (I.file inputs.old name.now ≡ Absent) ⊎ Rose (I.faults inputs.old) (I.faults inputs.new) }
    ensures read { result ≡ Err Trouble.Read → Rose (I.faults inputs.old) (I.faults inputs.new) }
{
    match lines.start(inputs, name) {
        Err(Failed) => Err(Trouble::Start),
        Ok(()) => read_started(alloc, command, session, inputs, lines, sinks),
    }
}

fn at_place(place: usize, trouble: Trouble) -> FilesTrouble
    ensures { result ≡ files_trouble place trouble }
{
    match trouble {
        Trouble::Refused { line, why } => FilesTrouble::Refused { place, line, why },
        Trouble::Start => FilesTrouble::Start { place },
        Trouble::Read => FilesTrouble::Read { place },
        Trouble::Write => FilesTrouble::Write,
        Trouble::NoMemory => FilesTrouble::NoMemory,
    }
}

// A word at an index.
fn word_at(words: &[Word], index: usize) -> &str
    requires { index < length words.now }
    ensures { result.now ≡ file_name_at words.now index }
{
    words[index].as_str()
}

/// Reads the named files, one after another, behind the generated one.
pub(crate) fn read_files<F: Fn(&[u8]) -> bool + Drop, I: Inputs, S: Sinks>(
    alloc: Global,
    command: &Command,
    session: Session<F>,
    inputs: &mut I,
    lines: &mut Lines,
    sinks: &mut S,
) -> Result<Session<F>, FilesTrouble>
    requires begins { over_of session ≡ false }
    requires limits { lines.old.limits.line ≡ line_limit }
    requires reports { ReportsBy command.now session }
    requires callable { F.IsAlwaysCallable (select_of session) }
    requires selects { SelectsBy (F.post (select_of session)) (is_selected command.now) }
    ensures gives { Added (S.written sinks.old) (S.written sinks.new) stream.Report (λ text. (told : List ℕ) →
        AreReadTo command.now (I.file inputs.old) (I.rest inputs.old) (I.rest inputs.old) session (room_of lines.old) (generated_count command.now) told
        → FilesGive command.now (I.file inputs.old) (I.rest inputs.old) (length (file_names command.now)) (told ++ text) result lines.new (I.rest inputs.new)) }
    ensures calm { AreCalmBut (S.faults sinks.old) (S.faults sinks.new) result }
    ensures cause { IsCaused (helds_of command.now (I.file inputs.old)) (Rose (I.faults inputs.old) (I.faults inputs.new)) result }
    ensures alike { IfOk result (λ next. ReportsAlike session next) }
    ensures files { I.file inputs.new ≡ I.file inputs.old }
    ensures later { I.faults inputs.old ≤ I.faults inputs.new }
{
    let first = generated_count(command);
    let words = command.files.as_slice();
    let mut session = session;
    for index in 0..words.len() {
        match read_file(
            alloc,
            command,
            session,
            word_at(words, index),
            inputs,
            lines,
            sinks,
        ) {
            Ok(next) => session = next,
            Err(trouble) => return Err(at_place(first + index, trouble)),
        }
    }
    Ok(session)
}

// A file of this text, under the name of the generated one.
fn named_text(alloc: Global, text: Text) -> Result<List<(Text, Text)>, NoMemory>
    ensures { IfOk result (λ files. files ≡ (generated_name, text) ∷ []) }
{
    let name = Text::from_slice(alloc, generated_name().as_bytes())?;
    let mut files = List::new(alloc);
    files.push((name, text))?;
    Ok(files)
}

// Reads the generated file.
fn read_text<F: Fn(&[u8]) -> bool + Drop, S: Sinks>(
    alloc: Global,
    command: &Command,
    session: Session<F>,
    text: Text,
    lines: &mut Lines,
    sinks: &mut S,
) -> Result<Session<F>, Trouble>
    requires begins { over_of session ≡ false }
    requires reports { ReportsBy command.now session }
    requires callable { F.IsAlwaysCallable (select_of session) }
    requires selects { SelectsBy (F.post (select_of session)) (is_selected command.now) }
    ensures gives { Added (S.written sinks.old) (S.written sinks.new) stream.Report (λ told.
        Behind command.now session told (λ Begun all h steps. TextGives command.now Begun h steps lines.old text all result lines.new)) }
    ensures calm { IsCalmBut (S.faults sinks.old) (S.faults sinks.new) result }
    ensures over { IfOk result (λ next. over_of next ≡ false) }
    ensures alike { IfOk result (λ next. ReportsAlike session next) }
    ensures limits { lines.new.limits ≡ lines.old.limits }
    ensures steady { IsNoBreak result }
{
    match named_text(alloc, text) {
        Ok(files) => {
            let mut inputs = SteadyInputs::new(files, PIECE);
            read_file(
                alloc,
                command,
                session,
                generated_name(),
                &mut inputs,
                lines,
                sinks,
            )
        }
        Err(_) => Err(Trouble::NoMemory),
    }
}

/// Reads the generated file, where the command asks for one.
pub(crate) fn read_generated<F: Fn(&[u8]) -> bool + Drop, S: Sinks>(
    alloc: Global,
    command: &Command,
    session: Session<F>,
    lines: &mut Lines,
    sinks: &mut S,
) -> Result<Session<F>, FilesTrouble>
    requires begins { over_of session ≡ false }
    requires limits { lines.old.limits.line ≡ line_limit }
    requires counts { blocks_of session ≡ 0 }
    requires reports { ReportsBy command.now session }
    requires callable { F.IsAlwaysCallable (select_of session) }
    requires selects { SelectsBy (F.post (select_of session)) (is_selected command.now) }
    ensures gives { Added (S.written sinks.old) (S.written sinks.new) stream.Report (λ text. (file : List ℕ → HeldFile) (before : Option (List ℕ)) →
        ((start : Outset) → BeginsLike command.now.resume file start → BeginsFrom command.now file session (room_of lines.old) start) →
        FilesGive command.now file before (generated_count command.now) text result lines.new before) }
    ensures calm { AreCalmBut (S.faults sinks.old) (S.faults sinks.new) result }
    ensures steady { AreNoBreak result }
    ensures over { IfOk result (λ next. over_of next ≡ false) }
    ensures alike { IfOk result (λ next. ReportsAlike session next) }
    ensures limits { lines.new.limits ≡ lines.old.limits }
{
    match command.generate {
        None => Ok(session),
        Some(n) => match generate(alloc, n) {
            Ok(text) => match read_text(alloc, command, session, text, lines, sinks) {
                Ok(next) => Ok(next),
                Err(trouble) => Err(at_place(0, trouble)),
            },
            Err(_) => Err(FilesTrouble::NoMemory),
        },
    }
}
