// The rows and the columns' names of the tables in some files.
ghost use Rattle.std.specs.Prelude.{◌≡◌, ◌-◌, ◌^◌, ◌<◌, IfOk, Ok, length};
ghost use Rattle.dk_table.specs.Columns.Judging.{judging_rows};
ghost use Rattle.dk_table.specs.Outcomes.{Answers};
ghost use Rattle.dk_table.specs.Tables.{are_paired, file_rows, first_of, if_even, made_name, made_names, names_by, names_of, rows_in, rows_of, rows_of_all, same_cells, uneven_row};

use crate::columns::judging::Judge;
use crate::faults::{Refusal, TableFault, TableWhy};
use crate::file_bytes::FileBytes;
use crate::rows::Rows;
use crate::words::command::Command;
use dk_base::{List, NoMemory, Text, same_bytes};
use itoa::Buffer;
use std::alloc::Global;

/// Whether the row has these names as its cells.
pub(crate) fn are_cells(names: &[Text], rows: &Rows<'_>) -> bool
    ensures { result ≡ same_cells names.now rows.now.row.cells }
{
    if names.len() != rows.len() {
        return false;
    }
    for i in 0..names.len().min(rows.len()) {
        if !same_bytes(names[i].as_slice(), rows.cell(i)) {
            return false;
        }
    }
    true
}

// Goes on with the rows that are left, of which each has to have so many cells.
fn take_rows(
    file: usize,
    columns: usize,
    rows: &mut Rows<'_>,
    judge: &mut Judge,
) -> Result<(), TableFault>
    ensures { Answers (λ _. judge.new) (judging_rows judge.old (if_even file (uneven_row columns rows.old.left) (Ok rows.old.left))) result }
{
    'rows: while rows.next()? {
        if rows.len() != columns {
            return Err(refused(file, rows.number(), TableWhy::RowLength));
        }
        judge.take(rows)?;
    }
    Ok(())
}

// Goes on with the rows of the file at this place, which has to have a header with these names, where it has one.
fn take_table(
    has_header: bool,
    names: &[Text],
    file: usize,
    rows: &mut Rows<'_>,
    judge: &mut Judge,
) -> Result<(), TableFault>
    ensures { Answers (λ _. judge.new) (judging_rows judge.old (rows_of has_header names.now file rows.old.left)) result }
{
    if !rows.next()? {
        return Err(refused(file, 1, TableWhy::NoHeader));
    }
    if has_header {
        if !are_cells(names, rows) {
            return Err(refused(file, 1, TableWhy::OtherHeader));
        }
    } else {
        if rows.len() != names.len() {
            return Err(refused(file, rows.number(), TableWhy::RowLength));
        }
        judge.take(rows)?;
    }
    take_rows(file, names.len(), rows, judge)
}

/// Whether the quotes of a file go in pairs.
pub(crate) fn are_paired(bytes: &FileBytes) -> bool
    ensures { result ≡ are_paired bytes.now }
{
    if bytes.is_unquoted() {
        return true;
    }
    bytes
        .as_slice()
        .iter()
        .filter(|byte| **byte == b'"')
        .count()
        % 2
        == 0
}

// How many rows are left.
fn count_rows(rows: &mut Rows<'_>) -> Result<u64, NoMemory>
    requires { length rows.old.left < 2 ^ 64 }
    ensures { IfOk result (λ count. count ≡ length rows.old.left) }
{
    let mut count = 0u64;
    'rows: while rows.next()? {
        count += 1;
    }
    Ok(count)
}

// Goes on with the rows of the file at this place, of these bytes.
fn take_file(
    alloc: Global,
    command: &Command,
    names: &[Text],
    file: usize,
    bytes: &FileBytes,
    judge: &mut Judge,
) -> Result<(), TableFault>
    ensures { Answers (λ _. judge.new) (judging_rows judge.old (file_rows command.now names.now file bytes.now)) result }
{
    let mut rows = Rows::new(alloc, command.separator, file, bytes)?;
    if !are_paired(bytes) {
        let count = count_rows(&mut rows)?;
        return Err(refused(file, count, TableWhy::OpenQuote));
    }
    take_table(command.has_header, names, file, &mut rows, judge)
}

/// Goes on with the rows of all files.
pub(crate) fn take_files(
    alloc: Global,
    command: &Command,
    names: &[Text],
    files: &[FileBytes],
    judge: &mut Judge,
) -> Result<(), TableFault>
    ensures { Answers (λ _. judge.new) (judging_rows judge.old (rows_of_all command.now names.now 0 files.now)) result }
{
    for file in 0..files.len() {
        take_file(alloc, command, names, file, &files[file], judge)?;
    }
    Ok(())
}

// The cells of a row.
#[tactic(auto, using(crate::proofs::Steps::cells_more))]
fn cells_of(alloc: Global, rows: &Rows<'_>) -> Result<List<Text>, NoMemory>
    ensures { IfOk result (λ cells. cells ≡ rows.now.row.cells) }
{
    let mut cells = List::new(alloc);
    for place in 0..rows.len() {
        cells.push(Text::from_slice(alloc, rows.cell(place))?)?;
    }
    Ok(cells)
}

fn made_name(alloc: Global, place: usize) -> Result<Text, NoMemory>
    requires { place < 2 ^ 64 - 1 }
    ensures { IfOk result (λ name. name ≡ made_name place) }
{
    let mut buffer = Buffer::new();
    let mut name = Text::from_slice(alloc, b"column")?;
    name.append(buffer.format(place as u64 + 1).as_bytes())?;
    Ok(name)
}

// `column1` and so on.
#[tactic(auto, using(crate::proofs::Steps::names_more))]
fn made_names(alloc: Global, count: usize) -> Result<List<Text>, NoMemory>
    ensures { IfOk result (λ names. names ≡ made_names count) }
{
    let mut names = List::new(alloc);
    for place in 0..count {
        names.push(made_name(alloc, place)?)?;
    }
    Ok(names)
}

/// The names of the columns by the first row.
pub(crate) fn names_by(
    alloc: Global,
    has_header: bool,
    rows: &Rows<'_>,
) -> Result<List<Text>, NoMemory>
    ensures { IfOk result (λ names. names ≡ names_by has_header rows.now.row.cells) }
{
    if has_header {
        cells_of(alloc, rows)
    } else {
        made_names(alloc, rows.len())
    }
}

fn first_of(files: &[FileBytes]) -> &[u8]
    ensures { result.now ≡ first_of files.now }
{
    match files.first() {
        Some(text) => text.as_slice(),
        None => b"",
    }
}

/// The names that the first file's first row gives.
pub(crate) fn names_of(
    alloc: Global,
    command: &Command,
    files: &[FileBytes],
) -> Result<List<Text>, TableFault>
    ensures { Answers (λ names. names) (names_of command.now.has_header (rows_in command.now.separator 0 (first_of files.now))) result }
{
    let mut rows = Rows::by_records(alloc, command.separator, 0, first_of(files))?;
    if !rows.next()? {
        return Err(refused(0, 1, TableWhy::NoHeader));
    }
    Ok(names_by(alloc, command.has_header, &rows)?)
}

/// The refusal of a row of a file.
pub(crate) fn refused(file: usize, row: u64, why: TableWhy) -> TableFault
    ensures { result ≡ TableFault.Refused (record { file = file; row = row; why = why }) }
{
    TableFault::Refused(Refusal { file, row, why })
}
