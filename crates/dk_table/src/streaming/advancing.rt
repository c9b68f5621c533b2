// Going on with rows: finding kinds by those in front, and writing the others as they come.
ghost use Rattle.std.specs.Prelude.{◌≡◌, ◌<◌, ◌^◌, ◌++◌, ◌∷◌, [], IfOk, List, MatchResult, Err, None, Some, if◌then◌else◌, length, map, not};
ghost use Rattle.dk_write.specs.Texts.{Begins, Declares, block_text, trace_text};
ghost use Rattle.dk_table.specs.Columns.Judging.{fresh, kind_by};
ghost use Rattle.dk_table.specs.Outcomes.{Answers};
ghost use Rattle.dk_table.specs.Streams.{end_steps, row_steps, rows_steps, rows_stream, stream_by};
ghost use Rattle.dk_table.specs.Streams.Pieces.{chunk_rows, held_rows};
ghost use Rattle.dk_table.specs.Streams.Stages.{Goes, IsBegun, IsBehind, IsReady, IsTaken, first_names, judging_steps, rows_behind};
ghost use Rattle.dk_table.specs.Streams.Stops.{Writes};
ghost use Rattle.dk_table.specs.Tables.{are_paired};
ghost use Rattle.dk_table.specs.Tables.PlacedRows.{Placed};
ghost use Rattle.dk_table.specs.Traces.{declaration_of};
ghost use Rattle.dk_table.specs.declared.streaming.stages.Stage.TheVariants as stages;

use crate::columns::judging::Judge;
use crate::faults::{Refusal, TableFault, TableWhy};
use crate::file_bytes::FileBytes;
use crate::rows::Rows;
use crate::streaming::checked::is_body;
use crate::streaming::held::Chunk;
use crate::streaming::sending::{tell_chunk, tell_held};
use crate::streaming::stages::{Body, Front, Stage};
use crate::streaming::stops::Stop;
use crate::tables::{are_paired, names_by};
use crate::words::command::Command;
use crate::writing::traces::{Plan, are_named, declaration_of};
use crate::writing::{begun, form_of, write_gathered};
use dk_base::{List, NoMemory, Text};
use dk_decl::PointDecl;
use dk_io::Sinks;
use std::alloc::Global;

/// What a trace is to be: the point's name, and by how many rows kinds are found.
#[derive(Clone, Copy)]
pub(crate) struct Task<'a> {
    pub(crate) command: &'a Command,
    pub(crate) point: &'a [u8],
    pub(crate) types: u64,
}

/// What is known behind a chunk, and how many rows it has.
#[derive(Drop)]
pub(crate) struct Taken {
    stage: Stage,
    count: u64,
}

// Finds kinds by the rows that are left, as many as are still to be looked at, and counts the rows.
fn judge_left(
    has_header: bool,
    names: &[Text],
    rows: &mut Rows<'_>,
    judge: &mut Judge,
) -> Result<u64, TableFault>
    requires { length rows.old.left < 2 ^ 64 }
    ensures judged { Answers (λ _. judge.new) (judging_steps judge.old (rows_steps has_header names.now rows.old.left)) result }
    ensures counted { IfOk result (λ count. count ≡ length rows.old.left) }
{
    let mut count = 0u64;
    'rows: while rows.next()? {
        count += 1;
        judge_next(has_header, names, rows, judge)?;
    }
    Ok(count)
}

fn judge_next(
    has_header: bool,
    names: &[Text],
    rows: &Rows<'_>,
    judge: &mut Judge,
) -> Result<(), TableFault>
    ensures { Answers (λ _. judge.new) (judging_steps judge.old (row_steps has_header names.now rows.now.row)) result }
{
    if judge.is_done() {
        return Ok(());
    }
    match is_body(has_header, names, rows) {
        Ok(true) => Ok(judge.take(rows)?),
        Ok(false) => Ok(()),
        Err(refusal) => Err(TableFault::Refused(refusal)),
    }
}

// Writes the header lines and the declaration.
fn write_begun<S: Sinks>(alloc: Global, decl: &PointDecl, sinks: &mut S) -> Result<(), Stop>
    ensures { Writes (block_text Begins ++ block_text (Declares decl.now)) None (S.written sinks.old) (S.written sinks.new) (S.faults sinks.old) (S.faults sinks.new) result }
{
    let mut gathered = begun(alloc, decl)?;
    write_gathered(&mut gathered, sinks)?;
    Ok(())
}

/// Writes the trace of the rows that were held.
pub(crate) fn begin_body<S: Sinks>(
    alloc: Global,
    task: &Task<'_>,
    front: Front,
    sinks: &mut S,
) -> Result<Body, Stop>
    ensures written { let kinds = map kind_by front.judge.columns in
        let stream = stream_by (declaration_of task.now.point.now front.names kinds) kinds (rows_steps task.now.command.now.has_header front.names (held_rows task.now.command.now.separator front.held)) in
        Writes (trace_text stream.written) stream.refusal (S.written sinks.old) (S.written sinks.new) (S.faults sinks.old) (S.faults sinks.new) result }
    ensures begun { IfOk result (IsBegun task.now.command.now task.now.point.now front) }
{
    let kinds = front.judge.kinds(alloc)?;
    let decl = declaration_of(alloc, task.point, front.names.as_slice(), kinds.as_slice())?;
    if decl.vars.len() != kinds.len() {
        // A column was begun for each name, so this never is.
        return Err(Stop::NoMemory);
    }
    if !are_named(alloc, &decl)? {
        return Err(Stop::Refused(Refusal {
            file: 0,
            row: 1,
            why: TableWhy::BadName,
        }));
    }
    let form = form_of(alloc, &decl, kinds.as_slice())?;
    write_begun(alloc, &decl, sinks)?;
    let body = Body {
        names: front.names,
        plan: Plan { decl, kinds },
        form,
    };
    tell_held(alloc, task.command, &body, front.held.as_slice(), sinks)?;
    Ok(body)
}

// Finds kinds by the rows of a chunk, and counts them.
fn judge_chunk(
    alloc: Global,
    command: &Command,
    names: &[Text],
    chunk: &Chunk,
    judge: &mut Judge,
) -> Result<u64, TableFault>
    ensures judged { Answers (λ _. judge.new) (judging_steps judge.old (rows_steps command.now.has_header names.now (chunk_rows command.now.separator chunk.now))) result }
    ensures counted { IfOk result (λ count. count ≡ length (chunk_rows command.now.separator chunk.now)) }
{
    let mut rows = chunk.rows(alloc, command.separator)?;
    judge_left(command.has_header, names, &mut rows, judge)
}

fn take_front<S: Sinks>(
    alloc: Global,
    task: &Task<'_>,
    front: Front,
    chunk: Chunk,
    sinks: &mut S,
) -> Result<Taken, Stop>
    ensures goes { (rows : List Placed) → let own = chunk_rows task.now.command.now.separator chunk in IsReady task.now.command.now task.now.types front rows own
        → let stream = rows_stream task.now.command.now task.now.point.now task.now.types (rows ++ own) in
        Writes (trace_text stream.written) stream.refusal (S.written sinks.old) (S.written sinks.new) (S.faults sinks.old) (S.faults sinks.new) result
        × IfOk result (λ taken. IsTaken task.now.command.now task.now.point.now task.now.types taken (rows ++ own)) }
    ensures counted { IfOk result (λ taken. taken.count ≡ length (chunk_rows task.now.command.now.separator chunk)) }
{
    let mut front = front;
    let count = judge_chunk(
        alloc,
        task.command,
        front.names.as_slice(),
        &chunk,
        &mut front.judge,
    )?;
    front.held.push(chunk)?;
    if !front.judge.is_done() {
        return Ok(Taken {
            stage: Stage::Front(front),
            count,
        });
    }
    let body = begin_body(alloc, task, front, sinks)?;
    Ok(Taken {
        stage: Stage::Body(body),
        count,
    })
}

// The names of the columns by the first row of a chunk, where it has one.
fn first_names(
    alloc: Global,
    command: &Command,
    chunk: &Chunk,
) -> Result<Option<List<Text>>, NoMemory>
    ensures { IfOk result (λ names. names ≡ first_names command.now.has_header (chunk_rows command.now.separator chunk.now)) }
{
    let mut rows = chunk.rows(alloc, command.separator)?;
    if !rows.next()? {
        return Ok(None);
    }
    let names = names_by(alloc, command.has_header, &rows)?;
    Ok(Some(names))
}

fn fresh_front(alloc: Global, types: u64, names: List<Text>) -> Result<Front, NoMemory>
    ensures { IfOk result (λ front. front ≡ record { names = names; judge = fresh (Some types) (length names); held = [] }) }
{
    let judge = Judge::new(alloc, Some(types), names.len())?;
    Ok(Front {
        names,
        judge,
        held: List::new(alloc),
    })
}

fn take_first<S: Sinks>(
    alloc: Global,
    task: &Task<'_>,
    chunk: Chunk,
    sinks: &mut S,
) -> Result<Taken, Stop>
    ensures goes { let own = chunk_rows task.now.command.now.separator chunk in Goes task.now.command.now task.now.point.now task.now.types stages.Start own (S.written sinks.old) (S.written sinks.new) (S.faults sinks.old) (S.faults sinks.new) (IsTaken task.now.command.now task.now.point.now task.now.types) result }
    ensures counted { IfOk result (λ taken. taken.count ≡ length (chunk_rows task.now.command.now.separator chunk)) }
{
    match first_names(alloc, task.command, &chunk)? {
        None => Ok(Taken {
            stage: Stage::Start,
            count: 0,
        }),
        Some(names) => {
            let front = fresh_front(alloc, task.types, names)?;
            take_front(alloc, task, front, chunk, sinks)
        }
    }
}

fn take_body<S: Sinks>(
    alloc: Global,
    task: &Task<'_>,
    body: Body,
    chunk: &Chunk,
    sinks: &mut S,
) -> Result<Taken, Stop>
    ensures goes { let own = chunk_rows task.now.command.now.separator chunk.now in Goes task.now.command.now task.now.point.now task.now.types (stages.Body body) own (S.written sinks.old) (S.written sinks.new) (S.faults sinks.old) (S.faults sinks.new) (IsTaken task.now.command.now task.now.point.now task.now.types) result }
    ensures counted { IfOk result (λ taken. taken.count ≡ length (chunk_rows task.now.command.now.separator chunk.now)) }
{
    let count = tell_chunk(alloc, task.command, &body, chunk, sinks)?;
    Ok(Taken {
        stage: Stage::Body(body),
        count,
    })
}

// Goes on with the rows of a chunk.
fn take_chunk<S: Sinks>(
    alloc: Global,
    task: &Task<'_>,
    stage: Stage,
    chunk: Chunk,
    sinks: &mut S,
) -> Result<Taken, Stop>
    ensures goes { let own = chunk_rows task.now.command.now.separator chunk in Goes task.now.command.now task.now.point.now task.now.types stage own (S.written sinks.old) (S.written sinks.new) (S.faults sinks.old) (S.faults sinks.new) (IsTaken task.now.command.now task.now.point.now task.now.types) result }
    ensures counted { IfOk result (λ taken. taken.count ≡ length (chunk_rows task.now.command.now.separator chunk)) }
{
    match stage {
        Stage::Start => take_first(alloc, task, chunk, sinks),
        Stage::Front(front) => take_front(alloc, task, front, chunk, sinks),
        Stage::Body(body) => take_body(alloc, task, body, &chunk, sinks),
    }
}

/// Whether the file at this place, with so many rows, can end here.
pub(crate) fn end_file(file: usize, count: u64, is_paired: bool) -> Result<(), Refusal>
    ensures { MatchResult result (λ _. end_steps file count is_paired ≡ []) (λ refusal. end_steps file count is_paired ≡ Err refusal ∷ []) }
{
    if count == 0 {
        return Err(Refusal {
            file,
            row: 1,
            why: TableWhy::NoHeader,
        });
    }
    if !is_paired {
        return Err(Refusal {
            file,
            row: count,
            why: TableWhy::OpenQuote,
        });
    }
    Ok(())
}

/// A file that is gone through: what is known of the columns, how many rows it has so far, and whether its quotes so far go in pairs.
#[derive(Drop)]
pub(crate) struct Place {
    pub(crate) stage: Stage,
    pub(crate) count: u64,
    pub(crate) is_paired: bool,
}

// Whether quotes go in pairs with those of the next bytes, where they did so far or didn't.
fn still_paired(is_paired: bool, next: &FileBytes) -> bool
    ensures { result ≡ (if are_paired next.now then is_paired else not is_paired) }
{
    if are_paired(next) {
        is_paired
    } else {
        !is_paired
    }
}

/// Goes on with a file's next whole rows.
pub(crate) fn take_rows<S: Sinks>(
    alloc: Global,
    task: &Task<'_>,
    file: usize,
    place: Place,
    cut: FileBytes,
    sinks: &mut S,
) -> Result<Place, Stop>
    ensures { let own = rows_behind task.now.command.now.separator file place.count cut in Goes task.now.command.now task.now.point.now task.now.types place.stage own (S.written sinks.old) (S.written sinks.new) (S.faults sinks.old) (S.faults sinks.new) (IsBehind task.now.command.now task.now.point.now task.now.types file place cut) result }
{
    let is_paired = still_paired(place.is_paired, &cut);
    let chunk = Chunk::new(file, place.count, cut)?;
    let taken = take_chunk(alloc, task, place.stage, chunk, sinks)?;
    Ok(Place {
        stage: taken.stage,
        count: place.count + taken.count,
        is_paired,
    })
}
