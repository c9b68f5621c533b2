// What is known of the columns by the rows so far.
ghost use Rattle.std.specs.Prelude.{◌≡◌, IfOk, OnOk, filter, is_some, map, true};
ghost use Rattle.std.specs.List.{list_all};
ghost use Rattle.dk_table.specs.Columns.{cell_value};
ghost use Rattle.dk_table.specs.Streams.Stages.{is_done};
ghost use Rattle.dk_table.specs.Columns.Judging.{fresh, judging, kind_by, with_cell, with_row};

use crate::columns::{CANDIDATES, ColumnKind, writes};
use crate::rows::Rows;
use dk_base::{List, NoMemory};
use std::alloc::Global;
use std::marker::Model;

/// What is known of a column by its cells so far: the kinds that all of them write, of those that are looked for, and whether all are empty.
#[derive(Drop)]
pub(crate) struct Column {
    kinds: List<ColumnKind>,
    is_empty: bool,
}

// Whether a cell writes a value of each of the kinds.
fn writes_all(kinds: &[ColumnKind], cell: &[u8], digits: &mut Vec<u8>) -> Result<bool, NoMemory>
    ensures { IfOk result (λ does. does ≡ list_all (λ k. is_some (cell_value k cell.now)) kinds.now) }
{
    for kind in kinds {
        if !writes(*kind, cell, digits)? {
            return Ok(false);
        }
    }
    Ok(true)
}

// Those of the kinds of which a cell writes a value.
fn kinds_written(
    alloc: Global,
    kinds: &[ColumnKind],
    cell: &[u8],
    digits: &mut Vec<u8>,
) -> Result<List<ColumnKind>, NoMemory>
    ensures { IfOk result (λ written. written ≡ filter (λ k. is_some (cell_value k cell.now)) kinds.now) }
{
    let mut written = List::new(alloc);
    for kind in kinds {
        if writes(*kind, cell, digits)? {
            written.push(*kind)?;
        }
    }
    Ok(written)
}

impl Column {
    // A column without cells.
    fn new(alloc: Global) -> Result<Column, NoMemory>
        ensures { IfOk result (λ column. column ≡ record { kinds = CANDIDATES; is_empty = true }) }
    {
        Ok(Column {
            kinds: List::from_slice(alloc, &CANDIDATES)?,
            is_empty: true,
        })
    }

    // Goes on with the column's next cell.
    fn take(&mut self, alloc: Global, cell: &[u8], digits: &mut Vec<u8>) -> Result<(), NoMemory>
        ensures { OnOk result (self.new ≡ with_cell self.old cell.now) }
    {
        if cell.is_empty() {
            return Ok(());
        }
        self.is_empty = false;
        if !writes_all(self.kinds.as_slice(), cell, digits)? {
            self.kinds = kinds_written(alloc, self.kinds.as_slice(), cell, digits)?;
        }
        Ok(())
    }

    // The kind that the cells have.
    fn kind(&self) -> ColumnKind
        ensures { result ≡ kind_by self.now }
    {
        if self.is_empty {
            return ColumnKind::Text;
        }
        match self.kinds.as_slice() {
            [kind, ..] => *kind,
            [] => ColumnKind::Text,
        }
    }
}

/// Finds the kinds of columns by their first rows, or by all. Contracts see how many rows are still to be looked at, where it isn't all, and
/// what is known of the columns.
#[derive(Drop)]
pub(crate) struct Judge {
    alloc: Global,
    left: Option<u64>,
    columns: Vec<Column>,
    digits: Vec<u8>,
}

impl Model for Judge {
    ghost use Rattle.dk_table.specs.Columns.Judging.{Judged};

    ghost Value = { Judged };

    ghost view = { λ j. record { left = j.left; columns = j.columns.items } };
}

impl Judge {
    /// So many columns, which are to be judged by so many rows, or by all.
    pub(crate) fn new(alloc: Global, types: Option<u64>, columns: usize) -> Result<Judge, NoMemory>
        ensures { IfOk result (λ judge. judge ≡ fresh types columns) }
    {
        let mut fresh = Vec::new(alloc);
        for _place in 0..columns {
            fresh.push(Column::new(alloc)?)?;
        }
        Ok(Judge {
            alloc,
            left: types,
            columns: fresh,
            digits: Vec::new(alloc),
        })
    }

    /// Whether no row is still to be looked at.
    pub(crate) fn is_done(&self) -> bool
        ensures { result ≡ is_done self.now }
    {
        matches!(self.left, Some(0))
    }

    // Goes on with the cells of the next row.
    fn take_cells(&mut self, rows: &Rows<'_>) -> Result<(), NoMemory>
        ensures { OnOk result (self.new ≡ record self.old { columns = with_row self.old.columns rows.now.row }) }
    {
        for place in 0..self.columns.len() {
            self.columns[place].take(self.alloc, rows.cell(place), &mut self.digits)?;
        }
        Ok(())
    }

    /// Goes on with the next row.
    pub(crate) fn take(&mut self, rows: &Rows<'_>) -> Result<(), NoMemory>
        ensures { OnOk result (self.new ≡ judging self.old rows.now.row) }
    {
        match self.left {
            None => self.take_cells(rows),
            Some(0) => Ok(()),
            Some(count) => {
                self.left = Some(count - 1);
                self.take_cells(rows)
            }
        }
    }

    /// The kinds of the columns.
    pub(crate) fn kinds(&self, alloc: Global) -> Result<List<ColumnKind>, NoMemory>
        ensures { IfOk result (λ kinds. kinds ≡ map kind_by self.now.columns) }
    {
        let mut kinds = List::new(alloc);
        for column in self.columns.as_slice() {
            kinds.push(column.kind())?;
        }
        Ok(kinds)
    }
}
