// The premises that are watched for a row of three leaders.
ghost use Rattle.std.specs.Prelude.{◌≡◌, ◌++◌, IfOk, take};
ghost use Rattle.dk_join.specs.Watched.{first_premises, premises_below, premises_of, watched};

use dk_base::NoMemory;
use dk_suppress::table;
use dk_template::{Premise, RowId, asked_row};
use std::alloc::Global;

// The first of these premises, if there is one.
fn first_of(premises: &[Premise]) -> &[Premise]
    ensures { result.now ≡ take 1 premises.now }
{
    if premises.is_empty() {
        premises
    } else {
        &premises[..1]
    }
}

// The first premise of each of the row's rules.
fn first_premises(alloc: Global, row: RowId) -> Result<Vec<Premise>, NoMemory>
    ensures { IfOk result (λ list. list.items ≡ first_premises row) }
{
    let mut list = Vec::new(alloc);
    for rule in table() {
        if rule.conclusion.0 == row.0 {
            list.extend_from_slice(first_of(rule.premises))?;
        }
    }
    Ok(list)
}

// Premises, and behind them those of the row's rules.
fn with_premises_of(row: RowId, premises: Vec<Premise>) -> Result<Vec<Premise>, NoMemory>
    ensures { IfOk result (λ list. list.items ≡ premises.items ++ premises_of row) }
{
    let mut list = premises;
    for rule in table() {
        if rule.conclusion.0 == row.0 {
            list.extend_from_slice(rule.premises)?;
        }
    }
    Ok(list)
}

// The premises of the rules by which the premises' rows follow.
fn premises_below(alloc: Global, premises: &[Premise]) -> Result<Vec<Premise>, NoMemory>
    ensures { IfOk result (λ list. list.items ≡ premises_below premises.now) }
{
    let mut list = Vec::new(alloc);
    for premise in premises {
        list = with_premises_of(asked_row(premise), list)?;
    }
    Ok(list)
}

/// The watched premises of a row.
pub(crate) fn watched(alloc: Global, row: RowId) -> Result<Vec<Premise>, NoMemory>
    ensures { IfOk result (λ list. list.items ≡ watched row) }
{
    let mut level = first_premises(alloc, row)?;
    let mut list = Vec::new(alloc);
    for _ in 0..3u32 {
        list.extend_from_slice(level.as_slice())?;
        level = premises_below(alloc, level.as_slice())?;
    }
    Ok(list)
}
