// Writing rows as they come.
ghost use Rattle.std.specs.Prelude.{◌≡◌, ◌++◌, ◌∷◌, ◌<◌, ◌^◌, IfOk, Ok, [], length};
ghost use Rattle.dk_table.specs.Streams.{first_refusal, row_steps, rows_before, rows_steps, told_steps};
ghost use Rattle.dk_table.specs.Streams.Pieces.{chunk_rows, held_rows};
ghost use Rattle.dk_table.specs.Streams.Stops.{Gathers, Writes};
ghost use Rattle.dk_table.specs.Writing.Forms.{rows_text};

use crate::faults::{Refusal, TableWhy};
use crate::rows::Rows;
use crate::streaming::checked::is_body;
use crate::streaming::held::Chunk;
use crate::streaming::stages::Body;
use crate::streaming::stops::Stop;
use crate::words::command::Command;
use crate::writing::{Gathered, push_row, write_gathered, write_long};
use dk_io::Sinks;
use std::alloc::Global;

// Gathers the record of a row, where each cell writes a value of its column's kind.
fn tell_fitting<S: Sinks>(
    gathered: &mut Gathered,
    body: &Body,
    rows: &Rows<'_>,
    sinks: &mut S,
) -> Result<(), Stop>
    ensures { let steps = told_steps body.now.plan.kinds (Ok rows.now.row ∷ []) in
        Gathers (gathered.old.text.items ++ rows_text body.now.form (rows_before steps)) (first_refusal steps) gathered.new.text.items (S.written sinks.old) (S.written sinks.new) (S.faults sinks.old) (S.faults sinks.new) result }
{
    if !push_row(gathered, &body.form, rows)? {
        return Err(Stop::Refused(Refusal {
            file: rows.file(),
            row: rows.number(),
            why: TableWhy::BadCell,
        }));
    }
    write_long(gathered, sinks)?;
    Ok(())
}

// Gathers the record of a row, where it isn't a header.
fn tell_next<S: Sinks>(
    gathered: &mut Gathered,
    body: &Body,
    has_header: bool,
    rows: &Rows<'_>,
    sinks: &mut S,
) -> Result<(), Stop>
    ensures { let steps = told_steps body.now.plan.kinds (row_steps has_header body.now.names rows.now.row) in
        Gathers (gathered.old.text.items ++ rows_text body.now.form (rows_before steps)) (first_refusal steps) gathered.new.text.items (S.written sinks.old) (S.written sinks.new) (S.faults sinks.old) (S.faults sinks.new) result }
{
    match is_body(has_header, body.names.as_slice(), rows) {
        Ok(true) => tell_fitting(gathered, body, rows, sinks),
        Ok(false) => Ok(()),
        Err(refusal) => Err(Stop::Refused(refusal)),
    }
}

// Gathers the records of the rows that are left, and counts them.
fn tell_left<S: Sinks>(
    gathered: &mut Gathered,
    body: &Body,
    has_header: bool,
    rows: &mut Rows<'_>,
    sinks: &mut S,
) -> Result<u64, Stop>
    requires { length rows.old.left < 2 ^ 64 }
    ensures told { let steps = told_steps body.now.plan.kinds (rows_steps has_header body.now.names rows.old.left) in
        Gathers (gathered.old.text.items ++ rows_text body.now.form (rows_before steps)) (first_refusal steps) gathered.new.text.items (S.written sinks.old) (S.written sinks.new) (S.faults sinks.old) (S.faults sinks.new) result }
    ensures counted { IfOk result (λ count. count ≡ length rows.old.left) }
{
    let mut count = 0u64;
    'rows: while rows.next()? {
        count += 1;
        tell_next(gathered, body, has_header, rows, sinks)?;
    }
    Ok(count)
}

/// Writes the records of a chunk's rows, up to the first that is refused, and counts them.
pub(crate) fn tell_chunk<S: Sinks>(
    alloc: Global,
    command: &Command,
    body: &Body,
    chunk: &Chunk,
    sinks: &mut S,
) -> Result<u64, Stop>
    ensures told { let steps = told_steps body.now.plan.kinds (rows_steps command.now.has_header body.now.names (chunk_rows command.now.separator chunk.now)) in
        Writes (rows_text body.now.form (rows_before steps)) (first_refusal steps) (S.written sinks.old) (S.written sinks.new) (S.faults sinks.old) (S.faults sinks.new) result }
    ensures counted { IfOk result (λ count. count ≡ length (chunk_rows command.now.separator chunk.now)) }
{
    let mut gathered = Gathered::new(alloc);
    let mut rows = chunk.rows(alloc, command.separator)?;
    let told = tell_left(&mut gathered, body, command.has_header, &mut rows, sinks);
    match told {
        Ok(count) => {
            write_gathered(&mut gathered, sinks)?;
            Ok(count)
        }
        Err(stop) => match stop {
            Stop::Refused(refusal) => {
                write_gathered(&mut gathered, sinks)?;
                Err(Stop::Refused(refusal))
            }
            Stop::Unstarted(place) => Err(Stop::Unstarted(place)),
            Stop::Unread(place) => Err(Stop::Unread(place)),
            Stop::Write => Err(Stop::Write),
            Stop::NoMemory => Err(Stop::NoMemory),
        },
    }
}

/// The same of all chunks.
pub(crate) fn tell_held<S: Sinks>(
    alloc: Global,
    command: &Command,
    body: &Body,
    held: &[Chunk],
    sinks: &mut S,
) -> Result<(), Stop>
    ensures { let steps = told_steps body.now.plan.kinds (rows_steps command.now.has_header body.now.names (held_rows command.now.separator held.now)) in
        Writes (rows_text body.now.form (rows_before steps)) (first_refusal steps) (S.written sinks.old) (S.written sinks.new) (S.faults sinks.old) (S.faults sinks.new) result }
{
    for i in 0..held.len() {
        tell_chunk(alloc, command, body, &held[i], sinks)?;
    }
    Ok(())
}
