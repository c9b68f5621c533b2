// The slots that a sample changes.
ghost use Rattle.std.specs.Prelude.{◌≡◌, ◌≢◌, ◌<◌, ◌≤◌, ◌+◌, ◌++◌, ◌∷◌, ◌&&◌, ℕ, [], true, false, All, IfNone, IfOk, IfSome, OnOk, length};
ghost use Rattle.std.specs.List.{AllPairs, list_any};
ghost use Rattle.dk_base.specs.Values.{values_of};
ghost use Rattle.dk_forms.specs.declared.states.State.TheVariants.{Broken};
ghost use Rattle.dk_template.specs.Proper.{IsProper};
ghost use Rattle.dk_template.specs.Templates.{form_of};
ghost use Rattle.dk_engine.specs.Exact.{SlotBefore};
ghost use Rattle.dk_engine.specs.Feeding.{read_after, with_sample};
ghost use Rattle.dk_engine.specs.Feeding.Narrow.{AreFound, AreFoundBelow, StateStays, closes, is_in_run, loses, loses_by, lost_places, may_begin, outcome};
ghost use Rattle.dk_engine.specs.Feeding.Step.{IsPlaced, can_close, is_empty_conclusion, is_empty_state, is_of_elements};
ghost use Rattle.dk_engine.specs.Idle.{PassesStill};
ghost use Rattle.dk_engine.specs.Reading.Parts.{slot_in};

use crate::Slot;
use crate::feed::after::After;
use crate::feed::growing::{Growth, Seen, seen_with};
use crate::feed::runs::{passed_to, run_end, still_to};
use crate::feed::staying::is_of_bounds_or_comparisons;
use crate::sweeps::reaching::is_concluded;
use dk_base::{List, NoMemory, View};
use dk_suppress::{asked_of, suppressed};
use dk_template::{RowId, State, rows, suffices_for};
use std::alloc::Global;

/// A slot's place with the state that a sample makes of it; one that goes is Broken.
#[derive(Drop)]
pub struct Change {
    pub place: usize,
    pub state: State,
}

/// What a sample makes of the slots that it doesn't leave as they are: stretches of a line that grow, and the changes of the others.
#[derive(Drop)]
pub struct SlotChanges {
    pub growths: List<Growth>,
    pub changes: List<Change>,
}

// Whether the state is Empty.
fn is_empty(state: &State) -> bool
    ensures { result ≡ is_empty_state state.now }
{
    matches!(state, State::Empty)
}

// Whether the slot was Empty and a rule concludes its row.
fn is_empty_conclusion(slot: &Slot) -> bool
    ensures { result ≡ is_empty_conclusion slot.now }
{
    is_empty(&slot.state) && is_concluded(slot.row)
}

// Whether a rule can begin to suppress the slot: it was Empty and its row has a rule, or it asks for the least or the greatest element.
pub(crate) fn can_close(slot: &Slot) -> bool
    ensures { result ≡ can_close slot.now }
{
    is_empty_conclusion(slot) || slot.row.0 == rows::ELT_NON_ZERO
}

// Whether a rule begins to suppress the slot.
fn closes(after: &After<'_>, slot: &Slot) -> bool
    requires { IsPlaced after.now.whole.grammar after.now.whole.infos after.now.whole.kept.leaders slot.now.row slot.now.leaders }
    ensures { result ≡ closes (read_after after.now.whole.kept after.now.sample) slot.now }
{
    can_close(slot) && suppressed(slot.row, slot.leaders.as_slice(), after)
}

// The state that the sample makes of a slot, if the slot doesn't stay as it is.
fn change_of(after: &After<'_>, asked: bool, slot: &Slot) -> Result<Option<State>, NoMemory>
    requires placed { IsPlaced after.now.whole.grammar after.now.whole.infos after.now.whole.kept.leaders slot.now.row slot.now.leaders }
    requires proper { IsProper (form_of slot.now.row) slot.now.state }
    ensures stays { IfOk result (λ o. IfNone o (StateStays (outcome asked (read_after after.now.whole.kept after.now.sample) after.now.sample) slot.now)) }
    ensures state { IfOk result (λ o. IfSome o (λ s. s ≡ outcome asked (read_after after.now.whole.kept after.now.sample) after.now.sample slot.now)) }
{
    if asked && closes(after, slot) {
        return Ok(Some(State::Broken));
    }
    if !matches!(slot.state, State::Broken) && after.stays(slot) {
        return Ok(None);
    }
    let state = after.with(slot)?;
    Ok(Some(state))
}

// With the slot's change, if it doesn't stay as it is.
fn push_change(
    changes: &mut List<Change>,
    place: usize,
    state: Option<State>,
) -> Result<(), NoMemory>
    ensures none { IfNone state (OnOk result (changes.new ≡ changes.old)) }
    ensures some { IfSome state (λ s. OnOk result (changes.new ≡ changes.old ++ record { place = place; state = s } ∷ [])) }
{
    if let Some(state) = state {
        changes.push(Change { place, state })?;
    }
    Ok(())
}

// With the change of the slot at a place, behind those of the slots in front of it.
fn add_change(
    after: &After<'_>,
    asked: bool,
    slots: &[Slot],
    place: usize,
    found: &mut SlotChanges,
) -> Result<(), NoMemory>
    requires placed { All (λ slot. IsPlaced after.now.whole.grammar after.now.whole.infos after.now.whole.kept.leaders slot.row slot.leaders) slots.now }
    requires proper { All (λ slot. IsProper (form_of slot.row) slot.state) slots.now }
    requires within { place < length slots.now }
    requires below { AreFoundBelow place (outcome asked (read_after after.now.whole.kept after.now.sample) after.now.sample) slots.now found.old }
    ensures { OnOk result (AreFoundBelow (place + 1) (outcome asked (read_after after.now.whole.kept after.now.sample) after.now.sample) slots.now found.new) }
{
    let state = change_of(after, asked, &slots[place])?;
    push_change(&mut found.changes, place, state)
}

// How many growths get room with the first of them: about a kilobyte.
const GROWTHS: usize = 32;

// How many changes do.
const CHANGES: usize = 10;

// The same list, with room for so many where there is nothing yet.
fn make_room<T: Drop>(alloc: Global, room: usize, list: &mut List<T>) -> Result<(), NoMemory>
    ensures { OnOk result (list.new ≡ list.old) }
{
    if list.is_empty() {
        *list = List::from_vec(Vec::with_capacity(alloc, room)?);
    }
    Ok(())
}

// Puts a growth behind the others.
fn push_growth(alloc: Global, growth: Growth, growths: &mut List<Growth>) -> Result<(), NoMemory>
    ensures { OnOk result (growths.new ≡ growths.old ++ growth ∷ []) }
{
    make_room(alloc, GROWTHS, growths)?;
    growths.push(growth)?;
    Ok(())
}

// With the state that the sample makes of the slot at a place.
fn push_joined(
    after: &After<'_>,
    slots: &[Slot],
    place: usize,
    changes: &mut List<Change>,
) -> Result<(), NoMemory>
    requires placed { All (λ slot. IsPlaced after.now.whole.grammar after.now.whole.infos after.now.whole.kept.leaders slot.row slot.leaders) slots.now }
    requires proper { All (λ slot. IsProper (form_of slot.row) slot.state) slots.now }
    requires within { place < length slots.now }
    ensures { OnOk result (changes.new ≡ changes.old ++ record { place = place; state = with_sample (slot_in slots.now place).row (slot_in slots.now place).leaders after.now.sample (slot_in slots.now place).state } ∷ []) }
{
    let state = after.with(&slots[place])?;
    make_room(after.alloc(), CHANGES, changes)?;
    changes.push(Change { place, state })?;
    Ok(())
}

// With what the sample makes of the slot at a place, which can't close where it is asked, behind what it makes of those in front of it.
#[inline(always)]
fn push_found(
    after: &After<'_>,
    asked: bool,
    sample: &[View<'_>],
    slots: &[Slot],
    place: usize,
    found: &mut SlotChanges,
) -> Result<(), NoMemory>
    requires placed { All (λ slot. IsPlaced after.now.whole.grammar after.now.whole.infos after.now.whole.kept.leaders slot.row slot.leaders) slots.now }
    requires sample { values_of sample.now ≡ after.now.sample }
    requires proper { All (λ slot. IsProper (form_of slot.row) slot.state) slots.now }
    requires unbroken { All (λ slot. slot.state ≢ Broken) slots.now }
    requires within { place < length slots.now }
    requires stays_open { (asked && can_close (slot_in slots.now place)) ≡ false }
    requires below { AreFoundBelow place (outcome asked (read_after after.now.whole.kept after.now.sample) after.now.sample) slots.now found.old }
    ensures { OnOk result (AreFoundBelow (place + 1) (outcome asked (read_after after.now.whole.kept after.now.sample) after.now.sample) slots.now found.new) }
{
    match seen_with(&slots[place], sample, place) {
        Seen::Stays => Ok(()),
        Seen::Grows(growth) => push_growth(after.alloc(), growth, &mut found.growths),
        Seen::Neither => push_joined(after, slots, place, &mut found.changes),
    }
}

// With what the sample makes of the slots from a place up to another, which can't close where it is asked, behind what it makes of those
// in front of them. Slots that are passed over aren't looked at, the others one by one.
fn add_seen(
    after: &After<'_>,
    asked: bool,
    skips: &[usize],
    slots: &[Slot],
    from: usize,
    to: usize,
    found: &mut SlotChanges,
) -> Result<(), NoMemory>
    requires placed { All (λ slot. IsPlaced after.now.whole.grammar after.now.whole.infos after.now.whole.kept.leaders slot.row slot.leaders) slots.now }
    requires skips { PassesStill after.now.sample slots.now skips.now }
    requires proper { All (λ slot. IsProper (form_of slot.row) slot.state) slots.now }
    requires unbroken { All (λ slot. slot.state ≢ Broken) slots.now }
    requires from { from ≤ to }
    requires to { to ≤ length slots.now }
    requires stay_open { (k : ℕ) → from ≤ k → k < to → (asked && can_close (slot_in slots.now k)) ≡ false }
    requires below { AreFoundBelow from (outcome asked (read_after after.now.whole.kept after.now.sample) after.now.sample) slots.now found.old }
    ensures { OnOk result (AreFoundBelow to (outcome asked (read_after after.now.whole.kept after.now.sample) after.now.sample) slots.now found.new) }
{
    let sample = after.sample();
    let mut place = passed_to(skips, from, to);
    while place < to {
        push_found(after, asked, sample, slots, place, found)?;
        place = passed_to(skips, place + 1, to);
    }
    Ok(())
}

// Whether the slots of a row are looked at one by one: bounds and comparisons, and planes where some of them are passed over.
fn are_looked_at(row: RowId, skips: &[usize]) -> bool {
    is_of_bounds_or_comparisons(row) || row.0 == rows::LINEAR_TERNARY && !skips.is_empty()
}

// With the changes of a run of slots, from a place up to another, behind those of the slots in front of it.
fn add_changes(
    after: &After<'_>,
    asked: bool,
    skips: &[usize],
    slots: &[Slot],
    from: usize,
    to: usize,
    found: &mut SlotChanges,
) -> Result<(), NoMemory>
    requires placed { All (λ slot. IsPlaced after.now.whole.grammar after.now.whole.infos after.now.whole.kept.leaders slot.row slot.leaders) slots.now }
    requires skips { PassesStill after.now.sample slots.now skips.now }
    requires proper { All (λ slot. IsProper (form_of slot.row) slot.state) slots.now }
    requires unbroken { All (λ slot. slot.state ≢ Broken) slots.now }
    requires from { from < to }
    requires to { to ≤ length slots.now }
    requires run { (k : ℕ) → from ≤ k → k < to → is_in_run asked (slot_in slots.now from).row (slot_in slots.now k) ≡ true }
    requires below { AreFoundBelow from (outcome asked (read_after after.now.whole.kept after.now.sample) after.now.sample) slots.now found.old }
    ensures { OnOk result (AreFoundBelow to (outcome asked (read_after after.now.whole.kept after.now.sample) after.now.sample) slots.now found.new) }
{
    let row = slots[from].row;
    if are_looked_at(row, skips) {
        return add_seen(after, asked, skips, slots, from, to, found);
    }
    let sample = after.sample();
    let mut place = still_to(after, skips, row, slots, from, to);
    while place < to {
        push_found(after, asked, sample, slots, place, found)?;
        place = still_to(after, skips, row, slots, place + 1, to);
    }
    Ok(())
}

// With the changes of the next slots, from a place on, behind those of the slots in front of it, and up to which place they are.
fn add_next(
    after: &After<'_>,
    asked: bool,
    skips: &[usize],
    slots: &[Slot],
    place: usize,
    found: &mut SlotChanges,
) -> Result<usize, NoMemory>
    requires placed { All (λ slot. IsPlaced after.now.whole.grammar after.now.whole.infos after.now.whole.kept.leaders slot.row slot.leaders) slots.now }
    requires skips { PassesStill after.now.sample slots.now skips.now }
    requires proper { All (λ slot. IsProper (form_of slot.row) slot.state) slots.now }
    requires in_order { AllPairs SlotBefore slots.now }
    requires unbroken { All (λ slot. slot.state ≢ Broken) slots.now }
    requires within { place < length slots.now }
    requires below { AreFoundBelow place (outcome asked (read_after after.now.whole.kept after.now.sample) after.now.sample) slots.now found.old }
    ensures more { IfOk result (λ next. place < next) }
    ensures within { IfOk result (λ next. next ≤ length slots.now) }
    ensures below { IfOk result (λ next. AreFoundBelow next (outcome asked (read_after after.now.whole.kept after.now.sample) after.now.sample) slots.now found.new) }
{
    let passed = passed_to(skips, place, slots.len());
    if !asked && place < passed {
        return Ok(passed);
    }
    let end = run_end(asked, after.ends(), slots, place);
    if place < end {
        add_changes(after, asked, skips, slots, place, end, found)?;
        Ok(end)
    } else {
        add_change(after, asked, slots, place, found)?;
        Ok(place + 1)
    }
}

/// The growths and changes of the slots that the sample doesn't leave as they are. Where it is asked, those that close go too.
pub(crate) fn changes(
    alloc: Global,
    after: &After<'_>,
    asked: bool,
    skips: &[usize],
    slots: &[Slot],
) -> Result<SlotChanges, NoMemory>
    requires placed { All (λ slot. IsPlaced after.now.whole.grammar after.now.whole.infos after.now.whole.kept.leaders slot.row slot.leaders) slots.now }
    requires skips { PassesStill after.now.sample slots.now skips.now }
    requires proper { All (λ slot. IsProper (form_of slot.row) slot.state) slots.now }
    requires in_order { AllPairs SlotBefore slots.now }
    requires unbroken { All (λ slot. slot.state ≢ Broken) slots.now }
    ensures { IfOk result (AreFound (outcome asked (read_after after.now.whole.kept after.now.sample) after.now.sample) slots.now) }
{
    let mut found = SlotChanges::none(alloc);
    let mut place = 0;
    while place < slots.len() {
        place = add_next(after, asked, skips, slots, place, &mut found)?;
    }
    Ok(found)
}

// How many growths, or changes, are few. A sample that changes many slots mostly loses a premise too, and then all its changes are found
// again.
const FEW: usize = 64;

impl SlotChanges {
    // Nothing. It takes no memory.
    fn none(alloc: Global) -> SlotChanges
        ensures growths { result.growths ≡ [] }
        ensures changes { result.changes ≡ [] }
    {
        SlotChanges {
            growths: List::new(alloc),
            changes: List::new(alloc),
        }
    }

    // Whether more than few are found.
    fn are_many(&self) -> bool {
        self.growths.len() > FEW || self.changes.len() > FEW
    }
}

/// The same, if they are few.
pub(crate) fn few_changes(
    alloc: Global,
    after: &After<'_>,
    asked: bool,
    skips: &[usize],
    slots: &[Slot],
) -> Result<Option<SlotChanges>, NoMemory>
    requires placed { All (λ slot. IsPlaced after.now.whole.grammar after.now.whole.infos after.now.whole.kept.leaders slot.row slot.leaders) slots.now }
    requires skips { PassesStill after.now.sample slots.now skips.now }
    requires proper { All (λ slot. IsProper (form_of slot.row) slot.state) slots.now }
    requires in_order { AllPairs SlotBefore slots.now }
    requires unbroken { All (λ slot. slot.state ≢ Broken) slots.now }
    ensures { IfOk result (λ few. IfSome few (AreFound (outcome asked (read_after after.now.whole.kept after.now.sample) after.now.sample) slots.now)) }
{
    let mut found = SlotChanges::none(alloc);
    let mut place = 0;
    while place < slots.len() {
        if found.are_many() {
            return Ok(None);
        }
        place = add_next(after, asked, skips, slots, place, &mut found)?;
    }
    Ok(Some(found))
}

// Whether a premise about the row is content with the old state and not with the new one.
fn loses(row: RowId, old: &State, new: &State) -> bool
    ensures { result ≡ loses row old.now new.now }
{
    for premise in asked_of(row) {
        if suffices_for(premise, old) && !suffices_for(premise, new) {
            return true;
        }
    }
    false
}

// Whether a premise is lost by the change.
fn loses_by(slots: &[Slot], change: &Change) -> bool
    requires { change.now.place < length slots.now }
    ensures { result ≡ loses_by slots.now change.now }
{
    let slot = &slots[change.place];
    loses(slot.row, &slot.state, &change.state)
}

/// Whether a premise of a rule is lost by one of the changes.
pub(crate) fn lose_some(slots: &[Slot], changes: &[Change]) -> bool
    requires { All (λ c. c.place < length slots.now) changes.now }
    ensures { result ≡ list_any (loses_by slots.now) changes.now }
{
    for change in changes {
        if loses_by(slots, change) {
            return true;
        }
    }
    false
}

// Whether the least or the greatest element may begin to be known by the change.
fn may_begin(slots: &[Slot], change: &Change) -> bool
    requires { change.now.place < length slots.now }
    ensures { result ≡ may_begin slots.now change.now }
{
    let slot = &slots[change.place];
    is_empty(&slot.state) && (slot.row.0 == rows::ELT_LOWER || slot.row.0 == rows::ELT_UPPER)
}

/// Whether it may by one of the changes.
pub(crate) fn some_may_begin(slots: &[Slot], changes: &[Change]) -> bool
    requires { All (λ c. c.place < length slots.now) changes.now }
    ensures { result ≡ list_any (may_begin slots.now) changes.now }
{
    for change in changes {
        if may_begin(slots, change) {
            return true;
        }
    }
    false
}

/// The places of the slots by which a premise is lost.
pub(crate) fn lost_places(
    alloc: Global,
    slots: &[Slot],
    changes: &[Change],
) -> Result<List<usize>, NoMemory>
    requires { All (λ c. c.place < length slots.now) changes.now }
    ensures { IfOk result (λ lost. lost ≡ lost_places slots.now changes.now) }
{
    let mut lost = List::new(alloc);
    for change in changes {
        if loses_by(slots, change) {
            lost.push(change.place)?;
        }
    }
    Ok(lost)
}
