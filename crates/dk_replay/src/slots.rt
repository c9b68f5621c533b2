// Comparing the slots of an engine.
ghost use Rattle.dk_template.specs.Templates.{IsRowOf};

use crate::both::Both;
use crate::leading::{Leading, are_of};
use crate::listed::Listed;
use crate::tally::Tally;
use crate::tuples::{tuple_at, tuples};
use dk_base::{NoMemory, VarId};
use dk_engine::Slot;
use dk_suppress::suppressed;
use dk_template::{Answers, RowId, State, admits, info, is_written};

// Whether the variables are leaders in written order that aren't all constant. Of no samples there are none.
fn may_have_slot(listed: &Listed<'_, '_>, leading: &Leading, row: RowId, vars: &[VarId]) -> bool
    requires { IsRowOf listed.now.grammar row }
{
    !listed.samples().is_empty()
        && is_written(row, vars)
        && are_of(vars, leading.leaders.as_slice())
        && !are_of(vars, leading.constants.as_slice())
}

// The state that a row's slot over the variables has, if they have one: it isn't Broken, and no rule suppresses it.
fn slot_state(
    listed: &Listed<'_, '_>,
    leading: &Leading,
    row: RowId,
    vars: &[VarId],
) -> Result<Option<State>, NoMemory>
    requires { IsRowOf listed.now.grammar row }
{
    if !admits(row, listed.vars(), vars) || !may_have_slot(listed, leading, row, vars) {
        return Ok(None);
    }
    let state = listed.answer(row, vars)?;
    if matches!(state, State::Broken) || suppressed(row, vars, listed) {
        return Ok(None);
    }
    Ok(Some(state))
}

// Whether the slot is there, is of the row and variables, and has the state.
fn is_slot(slot: Option<&Slot>, row: RowId, vars: &[VarId], state: &State) -> bool {
    match slot {
        Some(slot) => slot.row == row && slot.leaders.as_slice() == vars && slot.state == *state,
        None => false,
    }
}

// Compares the slots of a row, of which the first one stands at this place; the place behind the last one.
fn compare_row(
    both: &Both<'_, '_>,
    leading: &Leading,
    row: RowId,
    first: usize,
    tally: &mut Tally,
) -> Result<usize, NoMemory>
    requires { IsRowOf both.now.listed.grammar row }
{
    let slots = both.engine.slots();
    let arity = info(row).arity;
    let count = both.listed.count_vars();
    let mut next = first;
    for place in 0..tuples(count, arity) {
        let vars = tuple_at(count, arity, place);
        let vars = vars.as_slice();
        if let Some(state) = slot_state(&both.listed, leading, row, vars)? {
            tally.slot(is_slot(slots.get(next), row, vars, &state));
            next = next.saturating_add(1);
        }
    }
    Ok(next)
}

/// Compares the slots, one by one in their order, and then their number.
pub fn compare_slots(
    both: &Both<'_, '_>,
    leading: &Leading,
    tally: &mut Tally,
) -> Result<(), NoMemory> {
    let mut next = 0;
    for number in 1..both.listed.grammar().rows() + 1 {
        next = compare_row(both, leading, RowId(number), next, tally)?;
    }
    tally.slot(both.engine.slots().len() == next);
    Ok(())
}
