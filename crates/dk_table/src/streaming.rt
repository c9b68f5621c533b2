// Tables whose rows are written as they come: their files are read piece by piece.
ghost use Rattle.std.specs.Prelude.{◌≡◌, ◌≤◌, ◌<◌, ℕ, IfOk, List, Option, length};
ghost use Rattle.dk_io.specs.Outside.{HeldFile, Rose};
ghost use Rattle.dk_io.specs.Streams.{Texts, with_bytes};
ghost use Rattle.dk_io.specs.declared.outside.Stream.TheVariants as stream;
ghost use Rattle.dk_write.specs.Texts.{trace_text};
ghost use Rattle.dk_table.specs.Streams.{ended_stream, rows_stream};
ghost use Rattle.dk_table.specs.Streams.Progress.{AreBehind, FileGoes, IsGoing, PieceGoes, StopSays, StreamSays, unopened};
ghost use Rattle.dk_table.specs.Streams.Stages.{IsAt};
ghost use Rattle.dk_table.specs.Streams.Stops.{Writes};
ghost use Rattle.dk_table.specs.Tables.PlacedRows.{Placed};

pub(crate) mod advancing;
mod checked;
mod chunks;
mod filling;
mod held;
mod sending;
mod stages;
pub(crate) mod stops;

use crate::faults::{Refusal, TableWhy};
use crate::reading::name_at;
use crate::streaming::advancing::{Place, Task, begin_body, end_file, take_rows};
use crate::streaming::filling::{Filled, OpenFault, cut_rows, fill, open};
use crate::streaming::stages::Stage;
use crate::streaming::stops::Stop;
use dk_arguments::Word;
use dk_base::Text;
use dk_io::{Inputs, Sinks};
use std::alloc::Global;

/// The same, with what was gathered behind it.
#[derive(Drop)]
struct Going {
    place: Place,
    text: Text,
    filled: Filled,
}

// Goes on with the whole rows that were gathered. What is gathered behind them stays.
fn take_whole<S: Sinks>(
    alloc: Global,
    task: &Task<'_>,
    file: usize,
    going: Going,
    sinks: &mut S,
) -> Result<Going, Stop>
    ensures goes { (names : List (List ℕ)) (held : List ℕ → HeldFile) (rest : Option (List ℕ)) (contents : List (List ℕ)) (base : Texts) (start since now : ℕ) → IsGoing task.now.command.now task.now.point.now task.now.types names held (Rose since now) file contents going rest base (S.written sinks.old) start (S.faults sinks.old)
        → PieceGoes task.now.command.now task.now.point.now task.now.types names held (Rose since now) file contents rest base (S.written sinks.new) start (S.faults sinks.new) result }
    ensures filled { IfOk result (λ next. next.filled ≡ going.filled) }
{
    let cut = cut_rows(alloc, task.command.separator, going.text, false)?;
    let place = take_rows(alloc, task, file, going.place, cut.rows, sinks)?;
    Ok(Going {
        place,
        text: cut.rest,
        filled: going.filled,
    })
}

// Goes on with the next whole rows that were gathered, and gathers more.
fn take_piece<I: Inputs, S: Sinks>(
    alloc: Global,
    task: &Task<'_>,
    file: usize,
    going: Going,
    inputs: &mut I,
    sinks: &mut S,
) -> Result<Going, Stop>
    requires { going.filled ≡ Filled.Full }
    ensures goes { (names : List (List ℕ)) (contents : List (List ℕ)) (base : Texts) (start since : ℕ) → since ≤ I.faults inputs.old → IsGoing task.now.command.now task.now.point.now task.now.types names (I.file inputs.old) (Rose since (I.faults inputs.old)) file contents going (I.rest inputs.old) base (S.written sinks.old) start (S.faults sinks.old)
        → PieceGoes task.now.command.now task.now.point.now task.now.types names (I.file inputs.old) (Rose since (I.faults inputs.new)) file contents (I.rest inputs.new) base (S.written sinks.new) start (S.faults sinks.new) result }
    ensures files { I.file inputs.new ≡ I.file inputs.old }
    ensures later { I.faults inputs.old ≤ I.faults inputs.new }
{
    let going = take_whole(alloc, task, file, going, sinks)?;
    let mut text = going.text;
    let filled = fill(alloc, &mut text, inputs)?;
    Ok(Going {
        place: going.place,
        text,
        filled,
    })
}

// Goes on with the rows that were gathered, which are the file's last ones.
fn take_last<S: Sinks>(
    alloc: Global,
    task: &Task<'_>,
    file: usize,
    going: Going,
    sinks: &mut S,
) -> Result<Stage, Stop>
    requires { going.filled ≡ Filled.Ended }
    ensures { (names : List (List ℕ)) (held : List ℕ → HeldFile) (rest : Option (List ℕ)) (contents : List (List ℕ)) (base : Texts) (start since now : ℕ) → IsGoing task.now.command.now task.now.point.now task.now.types names held (Rose since now) file contents going rest base (S.written sinks.old) start (S.faults sinks.old)
        → FileGoes task.now.command.now task.now.point.now task.now.types names held (Rose since now) file contents base (S.written sinks.new) start (S.faults sinks.new) result }
{
    let cut = cut_rows(alloc, task.command.separator, going.text, true)?;
    let place = take_rows(alloc, task, file, going.place, cut.rows, sinks)?;
    match end_file(file, place.count, place.is_paired) {
        Ok(()) => Ok(place.stage),
        Err(refusal) => Err(Stop::Refused(refusal)),
    }
}

// Goes on with the whole rows that were gathered before a read failed.
fn take_unread<S: Sinks>(
    alloc: Global,
    task: &Task<'_>,
    file: usize,
    going: Going,
    sinks: &mut S,
) -> Stop
    requires { going.filled ≡ Filled.Failed }
    ensures { (names : List (List ℕ)) (held : List ℕ → HeldFile) (rest : Option (List ℕ)) (contents : List (List ℕ)) (base : Texts) (start since now : ℕ) → IsGoing task.now.command.now task.now.point.now task.now.types names held (Rose since now) file contents going rest base (S.written sinks.old) start (S.faults sinks.old)
        → StopSays task.now.command.now task.now.point.now task.now.types names held (Rose since now) base (S.written sinks.new) start (S.faults sinks.new) result }
{
    match take_whole(alloc, task, file, going, sinks) {
        Ok(_) => Stop::Unread(file),
        Err(stop) => stop,
    }
}

// Goes on with the rows of the file at a place, which is started.
fn take_file<I: Inputs, S: Sinks>(
    alloc: Global,
    task: &Task<'_>,
    file: usize,
    going: Going,
    inputs: &mut I,
    sinks: &mut S,
) -> Result<Stage, Stop>
    ensures goes { (names : List (List ℕ)) (contents : List (List ℕ)) (base : Texts) (start since : ℕ) → since ≤ I.faults inputs.old → IsGoing task.now.command.now task.now.point.now task.now.types names (I.file inputs.old) (Rose since (I.faults inputs.old)) file contents going (I.rest inputs.old) base (S.written sinks.old) start (S.faults sinks.old)
        → FileGoes task.now.command.now task.now.point.now task.now.types names (I.file inputs.old) (Rose since (I.faults inputs.new)) file contents base (S.written sinks.new) start (S.faults sinks.new) result }
    ensures files { I.file inputs.new ≡ I.file inputs.old }
    ensures later { I.faults inputs.old ≤ I.faults inputs.new }
{
    let mut going = going;
    'pieces: for _piece in 0..u64::MAX {
        match going.filled {
            Filled::Full => {
                going = take_piece(alloc, task, file, going, inputs, sinks)?;
            }
            Filled::Ended => return take_last(alloc, task, file, going, sinks),
            Filled::Failed => return Err(take_unread(alloc, task, file, going, sinks)),
        }
    }
    Err(Stop::NoMemory)
}

fn unopened(file: usize, fault: OpenFault) -> Stop
    ensures { result ≡ unopened file fault }
{
    match fault {
        OpenFault::Start => Stop::Unstarted(file),
        OpenFault::NoMemory => Stop::NoMemory,
    }
}

// Starts the file at a place, and goes on with its rows.
fn read_file<I: Inputs, S: Sinks>(
    alloc: Global,
    task: &Task<'_>,
    names: &[Word],
    file: usize,
    stage: Stage,
    inputs: &mut I,
    sinks: &mut S,
) -> Result<Stage, Stop>
    requires { file < length names.now }
    ensures goes { (contents : List (List ℕ)) (base : Texts) (start since : ℕ) → since ≤ I.faults inputs.old → AreBehind task.now.command.now task.now.point.now task.now.types names.now (I.file inputs.old) file contents stage base (S.written sinks.old) start (S.faults sinks.old)
        → FileGoes task.now.command.now task.now.point.now task.now.types names.now (I.file inputs.old) (Rose since (I.faults inputs.new)) file contents base (S.written sinks.new) start (S.faults sinks.new) result }
    ensures files { I.file inputs.new ≡ I.file inputs.old }
    ensures later { I.faults inputs.old ≤ I.faults inputs.new }
{
    match open(alloc, name_at(names, file), inputs) {
        Err(fault) => Err(unopened(file, fault)),
        Ok(piece) => {
            let going = Going {
                place: Place {
                    stage,
                    count: 0,
                    is_paired: true,
                },
                text: piece.text,
                filled: piece.filled,
            };
            take_file(alloc, task, file, going, inputs, sinks)
        }
    }
}

// Writes the trace of the rows that are held, where all files are read.
fn tell_ended<S: Sinks>(
    alloc: Global,
    task: &Task<'_>,
    stage: Stage,
    sinks: &mut S,
) -> Result<(), Stop>
    ensures { (rows : List Placed) (base : Texts) (start : ℕ) → IsAt task.now.command.now task.now.point.now task.now.types stage rows → (S.written sinks.old) ≡ with_bytes base stream.Report (trace_text (rows_stream task.now.command.now task.now.point.now task.now.types rows).written) → (S.faults sinks.old) ≡ start
        → let ended = ended_stream task.now.command.now task.now.point.now task.now.types rows in Writes (trace_text ended.written) ended.refusal base (S.written sinks.new) start (S.faults sinks.new) result }
{
    match stage {
        Stage::Start => Err(Stop::Refused(Refusal {
            file: 0,
            row: 1,
            why: TableWhy::NoHeader,
        })),
        Stage::Front(front) => {
            let _body = begin_body(alloc, task, front, sinks)?;
            Ok(())
        }
        Stage::Body(_) => Ok(()),
    }
}

/// Writes the trace of the tables in the files of these names.
pub(crate) fn tell_stream<I: Inputs, S: Sinks>(
    alloc: Global,
    task: &Task<'_>,
    names: &[Word],
    inputs: &mut I,
    sinks: &mut S,
) -> Result<(), Stop>
    requires { 0 < task.now.types }
    ensures goes { StreamSays task.now.command.now task.now.point.now task.now.types names.now (I.file inputs.old) (Rose (I.faults inputs.old) (I.faults inputs.new)) (S.written sinks.old) (S.written sinks.new) (S.faults sinks.old) (S.faults sinks.new) result }
    ensures files { I.file inputs.new ≡ I.file inputs.old }
{
    let mut stage = Stage::Start;
    for file in 0..names.len() {
        stage = read_file(alloc, task, names, file, stage, inputs, sinks)?;
    }
    tell_ended(alloc, task, stage, sinks)
}
