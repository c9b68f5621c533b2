// A run: the files are read whole, and then the trace of their tables is written by pieces; or rows are written as they come.
ghost use Rattle.std.specs.Prelude.{◌≡◌, ◌<◌, IfOk, Some, length, string_bytes, unwrap_or};
ghost use Rattle.dk_arguments.specs.declared.request.Request.TheVariants as request;
ghost use Rattle.dk_driver.specs.Files.{file_name_at};
ghost use Rattle.dk_io.specs.declared.outside.Stream.TheVariants as stream;
ghost use Rattle.dk_program.specs.Ending.{EndsWith};
ghost use Rattle.dk_program.specs.Moments.{Outside, outside};
ghost use Rattle.dk_table.specs.Refusals.Messages.{refusal_line};
ghost use Rattle.dk_table.specs.Statuses.{Completes, Says};
ghost use Rattle.dk_table.specs.Statuses.Ends.{Answer, IsHeld, IsOfFile, StopEnds, answer_of};
ghost use Rattle.dk_table.specs.Writing.{EndsCut};

use crate::faults::{Refusal, TableFault, TableWhy};
use crate::file_bytes::FileBytes;
use crate::reading::{name_at, read_texts};
use crate::streaming::advancing::Task;
use crate::streaming::stops::Stop;
use crate::streaming::tell_stream;
use crate::words::TableArguments;
use crate::words::command::Command;
use crate::writing::tell_trace;
use crate::writing::traces::plan_of;
use dk_arguments::Word;
use dk_driver::FilesFault;
use dk_events::Ended;
use dk_io::{Inputs, Sinks, Stream};
use dk_program::{end_with, tell_fault};
use std::alloc::{AllocError, Global};

fn point_of<'a>(command: &'a Command, name: &'a str) -> &'a [u8]
    ensures { result.now ≡ unwrap_or command.now.point name.now }
{
    match &command.point {
        Some(point) => point.as_str().as_bytes(),
        None => name.as_bytes(),
    }
}

fn refusal_line(alloc: Global, name: &str, row: u64, why: TableWhy) -> Result<String, AllocError>
    ensures { IfOk result (λ text. string_bytes text ≡ refusal_line name.now row why) }
{
    let reason = why.to_string(alloc)?;
    format!(in alloc; "daikon: {name}: row {row}: {reason}\n")
}

// Tells that a table is refused.
fn tell_refused<S: Sinks>(alloc: Global, names: &[Word], refusal: Refusal, sinks: &mut S) -> Ended
    ensures { EndsWith Ended.Refused stream.Messages (refusal_line (file_name_at names.now refusal.file) refusal.row refusal.why) (S.written sinks.old) (S.written sinks.new) (S.faults sinks.old) (S.faults sinks.new) result }
{
    match refusal_line(
        alloc,
        name_at(names, refusal.file),
        refusal.row,
        refusal.why,
    ) {
        Ok(text) => end_with(sinks, Stream::Messages, text.as_bytes(), Ended::Refused),
        Err(_) => Ended::NoMemory,
    }
}

// Tells what files of these bytes come to.
fn tell_texts<S: Sinks>(
    alloc: Global,
    arguments: &TableArguments,
    texts: &[FileBytes],
    sinks: &mut S,
) -> Ended
    ensures { let answer : Answer = answer_of arguments.now texts.now in
        EndsCut answer.status answer.stream answer.text (S.written sinks.old) (S.written sinks.new) (S.faults sinks.old) (S.faults sinks.new) result }
{
    let command = &arguments.command;
    let names = arguments.files.as_slice();
    match plan_of(alloc, command, point_of(command, name_at(names, 0)), texts) {
        Ok(plan) => tell_trace(alloc, command, &plan, texts, sinks),
        Err(TableFault::Refused(refusal)) => tell_refused(alloc, names, refusal, sinks),
        Err(TableFault::NoMemory) => Ended::NoMemory,
    }
}

/// Writes the trace of the tables in the files, or a message.
pub(crate) fn run_over<I: Inputs, S: Sinks>(
    alloc: Global,
    arguments: &TableArguments,
    inputs: &mut I,
    sinks: &mut S,
) -> Ended
    ensures says { let before : Outside = outside (I.file inputs.old) (I.rest inputs.old) (I.faults inputs.old) (S.written sinks.old) (S.faults sinks.old) in
        let after : Outside = outside (I.file inputs.new) (I.rest inputs.new) (I.faults inputs.new) (S.written sinks.new) (S.faults sinks.new) in
        Says result (Some (request.Run arguments.now)) before after }
    ensures complete { let before : Outside = outside (I.file inputs.old) (I.rest inputs.old) (I.faults inputs.old) (S.written sinks.old) (S.faults sinks.old) in
        let after : Outside = outside (I.file inputs.new) (I.rest inputs.new) (I.faults inputs.new) (S.written sinks.new) (S.faults sinks.new) in
        Completes (Some (request.Run arguments.now)) before after result }
    ensures files { I.file inputs.new ≡ I.file inputs.old }
{
    match arguments.command.types {
        None | Some(0) => run_held(alloc, arguments, inputs, sinks),
        Some(types) => run_stream(alloc, arguments, types, inputs, sinks),
    }
}

// Ends a run in which rows are written as they come.
fn end_stream<S: Sinks>(
    alloc: Global,
    names: &[Word],
    told: Result<(), Stop>,
    sinks: &mut S,
) -> Ended
    requires { IsOfFile (length names.now) told }
    ensures { StopEnds names.now told (S.written sinks.old) (S.written sinks.new) (S.faults sinks.old) (S.faults sinks.new) result }
{
    match told {
        Ok(()) => Ended::Done,
        Err(Stop::Refused(refusal)) => tell_refused(alloc, names, refusal, sinks),
        Err(Stop::Unstarted(place)) => tell_fault(alloc, names, FilesFault::Start { place }, sinks),
        Err(Stop::Unread(place)) => tell_fault(alloc, names, FilesFault::Read { place }, sinks),
        Err(Stop::Write) => Ended::Write,
        Err(Stop::NoMemory) => Ended::NoMemory,
    }
}

// The files are read piece by piece, and rows are written as they come.
fn run_stream<I: Inputs, S: Sinks>(
    alloc: Global,
    arguments: &TableArguments,
    types: u64,
    inputs: &mut I,
    sinks: &mut S,
) -> Ended
    requires asked { arguments.now.command.types ≡ Some types }
    requires some { 0 < types }
    ensures says { let before : Outside = outside (I.file inputs.old) (I.rest inputs.old) (I.faults inputs.old) (S.written sinks.old) (S.faults sinks.old) in
        let after : Outside = outside (I.file inputs.new) (I.rest inputs.new) (I.faults inputs.new) (S.written sinks.new) (S.faults sinks.new) in
        Says result (Some (request.Run arguments.now)) before after }
    ensures complete { let before : Outside = outside (I.file inputs.old) (I.rest inputs.old) (I.faults inputs.old) (S.written sinks.old) (S.faults sinks.old) in
        let after : Outside = outside (I.file inputs.new) (I.rest inputs.new) (I.faults inputs.new) (S.written sinks.new) (S.faults sinks.new) in
        Completes (Some (request.Run arguments.now)) before after result }
    ensures files { I.file inputs.new ≡ I.file inputs.old }
{
    let names = arguments.files.as_slice();
    let command = &arguments.command;
    let task = Task {
        command,
        point: point_of(command, name_at(names, 0)),
        types,
    };
    let told = tell_stream(alloc, &task, names, inputs, sinks);
    end_stream(alloc, names, told, sinks)
}

// The files are read whole, and then the trace of their tables is written.
fn run_held<I: Inputs, S: Sinks>(
    alloc: Global,
    arguments: &TableArguments,
    inputs: &mut I,
    sinks: &mut S,
) -> Ended
    requires { IsHeld arguments.now.command.types }
    ensures says { let before : Outside = outside (I.file inputs.old) (I.rest inputs.old) (I.faults inputs.old) (S.written sinks.old) (S.faults sinks.old) in
        let after : Outside = outside (I.file inputs.new) (I.rest inputs.new) (I.faults inputs.new) (S.written sinks.new) (S.faults sinks.new) in
        Says result (Some (request.Run arguments.now)) before after }
    ensures complete { let before : Outside = outside (I.file inputs.old) (I.rest inputs.old) (I.faults inputs.old) (S.written sinks.old) (S.faults sinks.old) in
        let after : Outside = outside (I.file inputs.new) (I.rest inputs.new) (I.faults inputs.new) (S.written sinks.new) (S.faults sinks.new) in
        Completes (Some (request.Run arguments.now)) before after result }
    ensures files { I.file inputs.new ≡ I.file inputs.old }
{
    let names = arguments.files.as_slice();
    match read_texts(alloc, names, inputs) {
        Ok(texts) => tell_texts(alloc, arguments, texts.as_slice(), sinks),
        Err(fault) => tell_fault(alloc, names, fault, sinks),
    }
}
