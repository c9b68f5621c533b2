// Writing the trace of tables.
ghost use Rattle.std.specs.Prelude.{◌≡◌, ◌≤◌, ◌<◌, ◌+◌, ◌++◌, ◌∷◌, [], IfOk, None, OnOk, flat_map, length, map, min, take, true};
ghost use Rattle.std.specs.List.{zip};
ghost use Rattle.dk_base.specs.Names.{escaped};
ghost use Rattle.dk_io.specs.declared.outside.Stream.TheVariants as stream;
ghost use Rattle.dk_lines.specs.Passing.{joined};
ghost use Rattle.dk_write.specs.Texts.{Begins, Declares, block_text, trace_text};
ghost use Rattle.dk_table.specs.Tables.{bodies_in};
ghost use Rattle.dk_table.specs.Traces.{IsPlan, plan_writes, untold_row};
ghost use Rattle.dk_table.specs.Writing.{EndsCut, Tells, TellsFront, status_of};
ghost use Rattle.dk_table.specs.Writing.Forms.{IsFormed, all_fit, cell_lines, form_of, heading_of, line_at, row_fits, row_text, rows_text, tail_of, tails_of};
ghost use Rattle.dk_table.specs.Writing.Pushing.{AddsRow, GathersRow};

mod pushing;
mod tails;
pub(crate) mod traces;

use crate::columns::ColumnKind;
use crate::file_bytes::FileBytes;
use crate::rows::Rows;
use crate::words::command::Command;
use crate::writing::pushing::push_cell;
use crate::writing::tails::Tail;
use crate::writing::traces::Plan;
use dk_base::{List, NoMemory, Text};
use dk_decl::{PointDecl, VarDecl};
use dk_events::Ended;
use dk_io::{Failed, Sinks, Stream, write_all};
use dk_write::{header_text, push_declaration, push_escaped};
use std::alloc::Global;

/// Rows are gathered until they have so many bytes, and then they are written.
const PIECE: usize = 65_536;

/// Why a trace is not written whole.
#[derive(Clone, Copy, Debug, PartialEq, Eq)]
pub(crate) enum Halt {
    Write,
    NoMemory,
}

impl From<NoMemory> for Halt {
    ghost use Rattle.std.specs.Prelude.{◌≡◌};
    ghost use Rattle.dk_table.specs.declared.writing.Halt.TheVariants.{NoMemory as OutOfMemory};

    ghost from_gives = { λ _ e. e ≡ OutOfMemory };

    fn from(_: NoMemory) -> Self {
        Halt::NoMemory
    }
}

impl Halt {
    pub(crate) fn status(self) -> Ended
        ensures { result ≡ status_of self }
    {
        match self {
            Halt::Write => Ended::Write,
            Halt::NoMemory => Ended::NoMemory,
        }
    }
}

/// A column in a record: the line of its variable's name, and how its cells are read.
#[derive(Drop)]
pub(crate) struct Heading {
    line: Text,
    kind: ColumnKind,
}

/// What the records of a trace have in common: the line of the point's name, the columns, what stands behind the value of each column but the
/// last in its record, and behind that of the last.
#[derive(Drop)]
pub(crate) struct Form {
    point: Text,
    headings: List<Heading>,
    tails: List<Tail>,
    last: Tail,
}

// The line of a name.
fn name_line(alloc: Global, name: &[u8]) -> Result<Text, NoMemory>
    ensures { IfOk result (λ line. line ≡ joined (escaped name.now ∷ [])) }
{
    let mut line = Text::new(alloc);
    push_escaped(&mut line, name)?;
    line.push(b'\n')?;
    Ok(line)
}

fn heading_of(alloc: Global, var: &VarDecl, kind: ColumnKind) -> Result<Heading, NoMemory>
    ensures { IfOk result (λ heading. heading ≡ heading_of (var.now, kind)) }
{
    Ok(Heading {
        line: name_line(alloc, var.name.as_slice())?,
        kind,
    })
}

fn headings_of(
    alloc: Global,
    vars: &[VarDecl],
    kinds: &[ColumnKind],
) -> Result<List<Heading>, NoMemory>
    ensures { IfOk result (λ headings. headings ≡ map heading_of (zip vars.now kinds.now)) }
{
    let mut headings = List::new(alloc);
    for i in 0..vars.len().min(kinds.len()) {
        headings.push(heading_of(alloc, &vars[i], kinds[i])?)?;
    }
    Ok(headings)
}

// The tails of values that the lines of these names follow.
fn tails_before(alloc: Global, headings: &[Heading]) -> Result<List<Tail>, NoMemory>
    ensures { IfOk result (λ tails. tails ≡ map (λ h. tail_of h.line) headings.now) }
{
    let mut tails = List::new(alloc);
    for heading in headings {
        tails.push(Tail::new(alloc, heading.line.as_slice())?)?;
    }
    Ok(tails)
}

fn tails_of(alloc: Global, headings: &[Heading]) -> Result<List<Tail>, NoMemory>
    ensures { IfOk result (λ tails. tails ≡ tails_of headings.now) }
{
    match headings {
        [] => Ok(List::new(alloc)),
        [_, behind @ ..] => tails_before(alloc, behind),
    }
}

pub(crate) fn form_of(
    alloc: Global,
    decl: &PointDecl,
    kinds: &[ColumnKind],
) -> Result<Form, NoMemory>
    ensures { IfOk result (λ form. form ≡ form_of decl.now kinds.now) }
{
    let headings = headings_of(alloc, decl.vars.as_slice(), kinds)?;
    let tails = tails_of(alloc, headings.as_slice())?;
    Ok(Form {
        point: name_line(alloc, decl.name.as_slice())?,
        headings,
        tails,
        last: Tail::new(alloc, b"")?,
    })
}

/// Rows that are not written yet, and what is used again for each cell.
#[derive(Drop)]
pub(crate) struct Gathered {
    pub(crate) text: Vec<u8>,
    digits: Vec<u8>,
}

impl Gathered {
    /// No row has been gathered yet.
    pub(crate) fn new(alloc: Global) -> Gathered
        ensures { result.text.items ≡ [] }
    {
        Gathered {
            text: Vec::new(alloc),
            digits: Vec::new(alloc),
        }
    }
}

impl Form {
    // How many cells of a row stand in its record.
    fn width(&self, rows: &Rows<'_>) -> usize
        ensures { result ≡ min (length self.now.headings) (length rows.now.row.cells) }
    {
        self.headings.len().min(rows.len())
    }

    // What stands behind the value at a place in a record of so many values.
    fn tail(&self, place: usize, width: usize) -> &Tail
        requires formed { IsFormed self.now }
        requires within { (place < width) × (width ≤ length self.now.headings) }
        ensures { result.now ≡ tail_of (line_at (take width self.now.headings) (place + 1)) }
    {
        if place + 1 < width {
            &self.tails.as_slice()[place]
        } else {
            &self.last
        }
    }
}

// The line of the name of a row's first value, where it has one.
fn push_first(gathered: &mut Gathered, form: &Form, width: usize) -> Result<(), NoMemory>
    requires { width ≤ length form.now.headings }
    ensures { OnOk result (gathered.new.text.items ≡ gathered.old.text.items ++ line_at (take width form.now.headings) 0) }
{
    if width > 0 {
        let first = &form.headings.as_slice()[0];
        gathered.text.extend_from_slice(first.line.as_slice())?;
    }
    Ok(())
}

// The lines of the cells of a row, where each fits its column.
fn push_cells(gathered: &mut Gathered, form: &Form, rows: &Rows<'_>) -> Result<bool, NoMemory>
    requires { IsFormed form.now }
    ensures { IfOk result (AddsRow (row_fits form.now rows.now.row) (flat_map cell_lines (zip form.now.headings rows.now.row.cells)) gathered.old.text.items gathered.new.text.items) }
{
    let width = form.width(rows);
    push_first(gathered, form, width)?;
    let headings = form.headings.as_slice();
    for i in 0..width {
        let kind = headings[i].kind;
        let tail = form.tail(i, width);
        let fits = push_cell(
            &mut gathered.text,
            kind,
            rows.cell(i),
            tail,
            &mut gathered.digits,
        )?;
        if !fits {
            return Ok(false);
        }
    }
    Ok(true)
}

// The record of a row, where each cell fits its column.
fn push_whole_row(gathered: &mut Gathered, form: &Form, rows: &Rows<'_>) -> Result<bool, NoMemory>
    requires { IsFormed form.now }
    ensures { IfOk result (AddsRow (row_fits form.now rows.now.row) (row_text form.now rows.now.row) gathered.old.text.items gathered.new.text.items) }
{
    gathered.text.extend_from_slice(form.point.as_slice())?;
    let fits = push_cells(gathered, form, rows)?;
    gathered.text.push(b'\n')?;
    Ok(fits)
}

/// Gathers the record of a row, where each cell fits its column, and answers whether it is so.
pub(crate) fn push_row(
    gathered: &mut Gathered,
    form: &Form,
    rows: &Rows<'_>,
) -> Result<bool, NoMemory>
    requires { IsFormed form.now }
    ensures { IfOk result (GathersRow (row_fits form.now rows.now.row) (row_text form.now rows.now.row) gathered.old.text.items gathered.new.text.items) }
{
    let begin = gathered.text.len();
    let fits = push_whole_row(gathered, form, rows)?;
    if !fits {
        gathered.text.truncate(begin);
    }
    Ok(fits)
}

/// Writes what is gathered.
pub(crate) fn write_gathered<S: Sinks>(gathered: &mut Gathered, sinks: &mut S) -> Result<(), Halt>
    ensures told { Tells gathered.old.text.items gathered.new.text.items (S.written sinks.old) (S.written sinks.new) (S.faults sinks.old) (S.faults sinks.new) result }
    ensures none { OnOk result (gathered.new.text.items ≡ []) }
{
    match write_all(sinks, Stream::Report, gathered.text.as_slice()) {
        Ok(()) => {
            gathered.text.clear();
            Ok(())
        }
        Err(Failed) => Err(Halt::Write),
    }
}

/// Writes what is gathered, where it is long.
pub(crate) fn write_long<S: Sinks>(gathered: &mut Gathered, sinks: &mut S) -> Result<(), Halt>
    ensures { Tells gathered.old.text.items gathered.new.text.items (S.written sinks.old) (S.written sinks.new) (S.faults sinks.old) (S.faults sinks.new) result }
{
    if gathered.text.len() >= PIECE {
        write_gathered(gathered, sinks)?;
    }
    Ok(())
}

// Gathers the record of a row, and writes what is gathered where it is long.
fn tell_row<S: Sinks>(
    gathered: &mut Gathered,
    form: &Form,
    rows: &Rows<'_>,
    sinks: &mut S,
) -> Result<(), Halt>
    requires formed { IsFormed form.now }
    requires fits { row_fits form.now rows.now.row ≡ true }
    ensures { Tells (gathered.old.text.items ++ row_text form.now rows.now.row) gathered.new.text.items (S.written sinks.old) (S.written sinks.new) (S.faults sinks.old) (S.faults sinks.new) result }
{
    let _fits = push_row(gathered, form, rows)?;
    write_long(gathered, sinks)
}

// The same of all rows that are left.
fn tell_rows<S: Sinks>(
    gathered: &mut Gathered,
    form: &Form,
    rows: &mut Rows<'_>,
    sinks: &mut S,
) -> Result<(), Halt>
    requires formed { IsFormed form.now }
    requires fit { all_fit form.now rows.old.left ≡ true }
    ensures { Tells (gathered.old.text.items ++ rows_text form.now rows.old.left) gathered.new.text.items (S.written sinks.old) (S.written sinks.new) (S.faults sinks.old) (S.faults sinks.new) result }
{
    'rows: while rows.next()? {
        tell_row(gathered, form, rows, sinks)?;
    }
    Ok(())
}

// The same of all rows of the files.
fn tell_files<S: Sinks>(
    alloc: Global,
    gathered: &mut Gathered,
    form: &Form,
    command: &Command,
    files: &[FileBytes],
    sinks: &mut S,
) -> Result<(), Halt>
    requires formed { IsFormed form.now }
    requires fit { all_fit form.now (bodies_in command.now 0 files.now) ≡ true }
    ensures { Tells (gathered.old.text.items ++ rows_text form.now (bodies_in command.now 0 files.now)) gathered.new.text.items (S.written sinks.old) (S.written sinks.new) (S.faults sinks.old) (S.faults sinks.new) result }
{
    for file in 0..files.len() {
        let mut rows = Rows::body(alloc, command, file, &files[file])?;
        tell_rows(gathered, form, &mut rows, sinks)?;
    }
    Ok(())
}

// Puts the declaration of the table's point behind the text.
#[tactic(auto, unfolding(dk_write::specs::Texts::block_text))]
fn push_decl(alloc: Global, text: &mut Text, decl: &PointDecl) -> Result<(), NoMemory>
    ensures { OnOk result (text.new ≡ text.old ++ block_text (Declares decl.now)) }
{
    push_declaration(alloc, text, decl)?;
    text.push(b'\n')
}

/// The header lines and the declaration.
pub(crate) fn begun(alloc: Global, decl: &PointDecl) -> Result<Gathered, NoMemory>
    ensures { IfOk result (λ gathered. gathered.text.items ≡ block_text Begins ++ block_text (Declares decl.now)) }
{
    let mut text = Text::from_slice(alloc, header_text())?;
    push_decl(alloc, &mut text, decl)?;
    Ok(Gathered {
        text: text.into_vec(),
        digits: Vec::new(alloc),
    })
}

// Writes the trace of the tables in the files.
fn write_trace<S: Sinks>(
    alloc: Global,
    command: &Command,
    plan: &Plan,
    files: &[FileBytes],
    sinks: &mut S,
) -> Result<(), Halt>
    requires plan { IsPlan plan.now }
    requires told { untold_row plan.now.kinds (bodies_in command.now 0 files.now) ≡ None }
    ensures { TellsFront (trace_text (plan_writes command.now plan.now files.now)) (S.written sinks.old) (S.written sinks.new) (S.faults sinks.old) (S.faults sinks.new) result }
{
    let form = form_of(alloc, &plan.decl, plan.kinds.as_slice())?;
    let mut gathered = begun(alloc, &plan.decl)?;
    tell_files(alloc, &mut gathered, &form, command, files, sinks)?;
    write_gathered(&mut gathered, sinks)
}

/// Writes the trace of the tables in the files by pieces, and answers how the run ends.
pub(crate) fn tell_trace<S: Sinks>(
    alloc: Global,
    command: &Command,
    plan: &Plan,
    files: &[FileBytes],
    sinks: &mut S,
) -> Ended
    requires plan { IsPlan plan.now }
    requires told { untold_row plan.now.kinds (bodies_in command.now 0 files.now) ≡ None }
    ensures { EndsCut Ended.Done stream.Report (trace_text (plan_writes command.now plan.now files.now)) (S.written sinks.old) (S.written sinks.new) (S.faults sinks.old) (S.faults sinks.new) result }
{
    match write_trace(alloc, command, plan, files, sinks) {
        Ok(()) => Ended::Done,
        Err(halt) => halt.status(),
    }
}
