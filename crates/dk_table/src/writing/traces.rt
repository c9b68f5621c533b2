// The trace of a table.
ghost use Rattle.std.specs.Prelude.{◌≡◌, ◌++◌, IfOk, None, OnOk, map, option_map, replicate};
ghost use Rattle.std.specs.List.{zip};
ghost use Rattle.dk_table.specs.Outcomes.{Answers};
ghost use Rattle.dk_table.specs.Tables.{bodies_in};
ghost use Rattle.dk_table.specs.Traces.{IsJudged, IsPlan, are_named, bad_cell, declaration_of, is_told, kinds_in, own_kind, plan_writes, scaled_name, trace_at, trace_by, untold_row, var_name, var_of};

use crate::columns::judging::Judge;
use crate::columns::{ColumnKind, writes};
use crate::faults::{Refusal, TableFault, TableWhy};
use crate::file_bytes::FileBytes;
use crate::rows::Rows;
use crate::tables::{names_of, refused, take_files};
use crate::words::command::Command;
use dk_base::{Compar, Kind, List, NoMemory, Text, View};
use dk_decl::{PointDecl, VarDecl};
use dk_write::{can_declare, can_record};
use std::alloc::Global;

/// How a trace is to be written: the declaration of its point, and the kinds of the columns.
#[derive(Drop)]
pub(crate) struct Plan {
    pub(crate) decl: PointDecl,
    pub(crate) kinds: List<ColumnKind>,
}

fn own_kind(kind: ColumnKind) -> Kind
    ensures { result ≡ own_kind kind }
{
    match kind {
        ColumnKind::Whole => Kind::Int,
        ColumnKind::Truth(_) => Kind::Bool,
        ColumnKind::Decimal(_) => Kind::Int,
        ColumnKind::Text => Kind::Str,
    }
}

#[tactic(auto, using(crate::proofs::Steps::zeros_more))]
fn push_zeros(text: &mut Text, count: u32) -> Result<(), NoMemory>
    ensures { OnOk result (text.new ≡ text.old ++ replicate count 48) }
{
    for _place in 0..count {
        text.push(b'0')?;
    }
    Ok(())
}

// The name of decimals that are taken times 10 to their places.
fn scaled_name(alloc: Global, name: &[u8], places: u32) -> Result<Text, NoMemory>
    ensures { IfOk result (λ text. text ≡ scaled_name name.now places) }
{
    let mut text = Text::from_slice(alloc, name)?;
    text.append(b" * 1")?;
    push_zeros(&mut text, places)?;
    Ok(text)
}

// The name of a column's variable.
fn var_name(alloc: Global, name: &[u8], kind: ColumnKind) -> Result<Text, NoMemory>
    ensures { IfOk result (λ text. text ≡ var_name name.now kind) }
{
    match kind {
        ColumnKind::Whole => Text::from_slice(alloc, name),
        ColumnKind::Truth(_) => Text::from_slice(alloc, name),
        ColumnKind::Decimal(places) => scaled_name(alloc, name, places),
        ColumnKind::Text => Text::from_slice(alloc, name),
    }
}

fn var_of(alloc: Global, name: &[u8], kind: ColumnKind) -> Result<VarDecl, NoMemory>
    ensures { IfOk result (λ var. var ≡ var_of (name.now, kind)) }
{
    Ok(VarDecl {
        name: var_name(alloc, name, kind)?,
        kind: Some(own_kind(kind)),
        compar: Compar {
            elem: -1,
            index: -1,
        },
        constant: None,
        constant_line: false,
        parents: List::new(alloc),
    })
}

fn vars_of(alloc: Global, names: &[Text], kinds: &[ColumnKind]) -> Result<List<VarDecl>, NoMemory>
    ensures { IfOk result (λ vars. vars ≡ map var_of (zip names.now kinds.now)) }
{
    let mut vars = List::new(alloc);
    for i in 0..names.len().min(kinds.len()) {
        let var = var_of(alloc, names[i].as_slice(), kinds[i])?;
        vars.push(var)?;
    }
    Ok(vars)
}

pub(crate) fn declaration_of(
    alloc: Global,
    point: &[u8],
    names: &[Text],
    kinds: &[ColumnKind],
) -> Result<PointDecl, NoMemory>
    ensures { IfOk result (λ decl. decl ≡ declaration_of point.now names.now kinds.now) }
{
    Ok(PointDecl {
        name: Text::from_slice(alloc, point)?,
        edges: List::new(alloc),
        vars: vars_of(alloc, names, kinds)?,
    })
}

// Whether lines tell the names of the point and of the variables.
#[tactic(auto, using(crate::proofs::Steps::shown_missing))]
pub(crate) fn are_named(alloc: Global, decl: &PointDecl) -> Result<bool, NoMemory>
    ensures { IfOk result (λ are. are ≡ are_named decl.now) }
{
    let none = vec![in alloc; View::Missing; decl.vars.len()]?;
    let is_declared = can_declare(alloc, decl)?;
    let is_recorded = can_record(alloc, decl, None, none.as_slice())?;
    Ok(is_declared && is_recorded)
}

// Whether each cell writes a value of its column's kind. Digits of decimals are put into `digits`.
pub(crate) fn is_told(
    kinds: &[ColumnKind],
    rows: &Rows<'_>,
    digits: &mut Vec<u8>,
) -> Result<bool, NoMemory>
    ensures { IfOk result (λ is. is ≡ is_told kinds.now rows.now.row) }
{
    for i in 0..kinds.len().min(rows.len()) {
        if !writes(kinds[i], rows.cell(i), digits)? {
            return Ok(false);
        }
    }
    Ok(true)
}

// The refusal of the first row that is left with a cell that is none of its column's kind.
fn untold_row(
    kinds: &[ColumnKind],
    rows: &mut Rows<'_>,
    digits: &mut Vec<u8>,
) -> Result<Option<Refusal>, NoMemory>
    ensures { IfOk result (λ refusal. refusal ≡ option_map bad_cell (untold_row kinds.now rows.old.left)) }
{
    'rows: while rows.next()? {
        if !is_told(kinds, rows, digits)? {
            return Ok(Some(Refusal {
                file: rows.file(),
                row: rows.number(),
                why: TableWhy::BadCell,
            }));
        }
    }
    Ok(None)
}

// The refusal of the first such row of all files.
fn untold_in(
    alloc: Global,
    command: &Command,
    kinds: &[ColumnKind],
    files: &[FileBytes],
) -> Result<Option<Refusal>, NoMemory>
    ensures { IfOk result (λ refusal. refusal ≡ option_map bad_cell (untold_row kinds.now (bodies_in command.now 0 files.now))) }
{
    let mut digits = Vec::new(alloc);
    for file in 0..files.len() {
        let mut rows = Rows::body(alloc, command, file, &files[file])?;
        let refusal = untold_row(kinds, &mut rows, &mut digits)?;
        if refusal.is_some() {
            return Ok(refusal);
        }
    }
    Ok(None)
}

// The kinds of the columns of the files' tables, by as many rows as the command says.
fn kinds_in(
    alloc: Global,
    command: &Command,
    names: &[Text],
    files: &[FileBytes],
) -> Result<List<ColumnKind>, TableFault>
    ensures { Answers (λ kinds. kinds) (kinds_in command.now names.now files.now) result }
{
    let mut judge = Judge::new(alloc, command.types, names.len())?;
    take_files(alloc, command, names, files, &mut judge)?;
    Ok(judge.kinds(alloc)?)
}

// Whether the files' tables, with this declaration and columns of these kinds, have a trace. Where kinds were found by all rows, each cell is
// of its column's kind.
#[tactic(auto, unfolding(crate::specs::Traces::trace_by))]
fn judge(
    alloc: Global,
    command: &Command,
    plan: &Plan,
    files: &[FileBytes],
) -> Result<(), TableFault>
    requires { IsJudged command.now plan.now files.now }
    ensures { Answers (λ _. plan_writes command.now plan.now files.now) (trace_by plan.now.decl plan.now.kinds (bodies_in command.now 0 files.now)) result }
{
    if !are_named(alloc, &plan.decl)? {
        return Err(refused(0, 1, TableWhy::BadName));
    }
    if command.types.is_none() {
        return Ok(());
    }
    match untold_in(alloc, command, plan.kinds.as_slice(), files)? {
        Some(refusal) => Err(TableFault::Refused(refusal)),
        None => Ok(()),
    }
}

/// How the trace of the tables in these files is to be written, at the point of this name.
pub(crate) fn plan_of(
    alloc: Global,
    command: &Command,
    point: &[u8],
    files: &[FileBytes],
) -> Result<Plan, TableFault>
    ensures answers { Answers (λ plan. plan_writes command.now plan files.now) (trace_at command.now point.now files.now) result }
    ensures plan { IfOk result IsPlan }
    ensures told { IfOk result (λ plan. untold_row plan.kinds (bodies_in command.now 0 files.now) ≡ None) }
{
    let names = names_of(alloc, command, files)?;
    let columns = names.as_slice();
    let kinds = kinds_in(alloc, command, columns, files)?;
    let decl = declaration_of(alloc, point, columns, kinds.as_slice())?;
    let plan = Plan { decl, kinds };
    judge(alloc, command, &plan, files)?;
    Ok(plan)
}
