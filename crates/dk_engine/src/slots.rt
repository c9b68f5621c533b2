// Kept slots.
ghost use Rattle.std.specs.Prelude.{◌≡◌, [], ◌∷◌, ◌++◌, false, List, OnErr, OnOk, filter, fold, not};
ghost use Rattle.std.specs.List.{list_any};
ghost use Rattle.dk_base.specs.Values.{values_of};
ghost use Rattle.dk_engine.specs.Feeding.{is_broken};
ghost use Rattle.dk_engine.specs.Feeding.Narrow.{with_change, with_growth};
ghost use Rattle.dk_engine.specs.Idle.{AreSkips, PassesStill, is_passed};
ghost use Rattle.dk_engine.specs.declared.slots.slot.Slot.{Slot as KeptSlot};

pub(crate) mod places;
pub(crate) mod slot;

use crate::Slot;
use crate::feed::changes::{Change, SlotChanges};
use crate::feed::changing::is_broken;
use crate::feed::growing::{Growth, grow};
use crate::idle::moves::Moves;
use crate::idle::{Notes, is_passed, meets, notes_of};
use dk_base::{NoMemory, View};
use std::alloc::Global;
use std::marker::Model;

/// Slots, which contracts see as a list. Beside them may be noted which of them a search for changed slots passes over, and which bounds
/// moved.
#[derive(Drop)]
pub struct Slots {
    all: Vec<Slot>,
    notes: Notes,
    moves: Moves,
}

impl Model for Slots {
    ghost use Rattle.std.specs.Prelude.{List};
    ghost use Rattle.dk_engine.specs.Idle.{AreSkips};
    ghost use Rattle.dk_engine.specs.declared.slots.slot.Slot.{Slot};

    ghost Value = { List Slot };

    ghost view = { λ s. s.all.items };

    ghost invariant = { λ s. AreSkips s.notes.watch s.all.items s.notes.skips.items };
}

// Gives the slot at the change's place its state.
fn change_slot(slots: &mut [Slot], change: Change)
    ensures { slots.new ≡ with_change slots.old change }
{
    let Change { place, state } = change;
    if place < slots.len() {
        slots[place].state = state;
    }
}

// Makes the changes one after another.
fn change_slots(slots: &mut [Slot], changes: Vec<Change>)
    ensures { slots.new ≡ fold with_change slots.old changes.items }
{
    for change in changes {
        change_slot(slots, change);
    }
}

// Lets a stretch of a line grow.
fn grow_slot(slots: &mut [Slot], growth: Growth)
    ensures { slots.new ≡ with_growth slots.old growth }
{
    if growth.place < slots.len() {
        grow(&mut slots[growth.place], growth);
    }
}

// Lets all stretches grow.
fn grow_slots(slots: &mut [Slot], growths: &[Growth])
    ensures { slots.new ≡ fold with_growth slots.old growths.now }
{
    for growth in growths {
        grow_slot(slots, *growth);
    }
}

// Whether one that grows is passed over.
fn some_grown_passed(skips: &[usize], growths: &[Growth]) -> bool
    ensures { result ≡ list_any (λ g. is_passed skips.now g.place) growths.now }
{
    for growth in growths {
        if is_passed(skips, growth.place) {
            return true;
        }
    }
    false
}

// Whether one of the changed places is passed over.
fn some_passed(skips: &[usize], changes: &[Change]) -> bool
    ensures { result ≡ list_any (λ c. is_passed skips.now c.place) changes.now }
{
    for change in changes {
        if is_passed(skips, change.place) {
            return true;
        }
    }
    false
}

// Whether a place that is passed over grows or is changed.
fn some_found_passed(skips: &[usize], found: &SlotChanges) -> bool
    ensures growths { result ≡ false → list_any (λ g. is_passed skips.now g.place) found.now.growths ≡ false }
    ensures changes { result ≡ false → list_any (λ c. is_passed skips.now c.place) found.now.changes ≡ false }
{
    some_grown_passed(skips, found.growths.as_slice())
        || some_passed(skips, found.changes.as_slice())
}

// Lets the notes hold of the slots with all growths and changes: forgets them, where a slot that is passed over is among these.
fn keep_notes(alloc: Global, notes: &mut Notes, found: &SlotChanges)
    ensures { (slots : List KeptSlot) → AreSkips notes.old.watch slots notes.old.skips.items → AreSkips notes.new.watch (fold with_change (fold with_growth slots found.now.growths) found.now.changes) notes.new.skips.items }
{
    if some_found_passed(notes.skips.as_slice(), found) {
        *notes = Notes::none(alloc);
    }
}

// Which bounds move with all changes, as far as memory can be had.
fn note_moves(moves: &mut Moves, slots: &[Slot], found: &SlotChanges) {
    if moves.note_changes(slots, found.changes.as_slice()).is_err() {
        moves.forget();
    }
}

impl Slots {
    /// No slots. It takes no memory.
    pub fn new(alloc: Global) -> Slots
        ensures { result ≡ [] }
    {
        Slots {
            all: Vec::new(alloc),
            notes: Notes::none(alloc),
            moves: Moves::none(alloc),
        }
    }

    /// The slot goes last. A refused push drops it, and leaves the slots as they were.
    pub fn push(&mut self, slot: Slot) -> Result<(), NoMemory>
        ensures ok { OnOk result (self.new ≡ self.old ++ slot ∷ []) }
        ensures err { OnErr result (self.new ≡ self.old) }
    {
        self.notes.skips.clear();
        self.all.push(slot)?;
        Ok(())
    }

    /// All slots in their order.
    pub fn as_slice(&self) -> &[Slot]
        ensures { result.now ≡ self.now }
    {
        self.all.as_slice()
    }

    // Which slots a search for those that a sample changes may pass over, as far as it is noted.
    pub(crate) fn skips(&self, sample: &[View<'_>]) -> &[usize]
        ensures { PassesStill (values_of sample.now) self.now result.now }
    {
        if meets(&self.notes.watch, sample) {
            self.notes.skips.as_slice()
        } else {
            &[]
        }
    }

    // Where rows end, as far as it is noted.
    pub(crate) fn ends(&self) -> &[usize] {
        self.notes.ends.as_slice()
    }

    // Slots that are in order already.
    pub(crate) fn of(all: Vec<Slot>) -> Slots
        ensures { result ≡ all.items }
    {
        let alloc = *all.allocator();
        Slots {
            all,
            notes: Notes::none(alloc),
            moves: Moves::none(alloc),
        }
    }

    // The slots, with the memory that they lie in.
    pub(crate) fn into_vec(self) -> Vec<Slot>
        ensures { result.items ≡ self }
    {
        self.all
    }

    // Makes all growths, and then all changes.
    pub(crate) fn change(&mut self, found: SlotChanges)
        ensures { self.new ≡ fold with_change (fold with_growth self.old found.growths) found.changes }
    {
        note_moves(&mut self.moves, self.all.as_slice(), &found);
        keep_notes(*self.all.allocator(), &mut self.notes, &found);
        let SlotChanges { growths, changes } = found;
        let slots = self.all.as_mut_slice();
        grow_slots(slots, growths.as_slice());
        change_slots(slots, changes.into_vec());
    }

    // Drops those that are Broken.
    pub(crate) fn drop_broken(&mut self)
        ensures { self.new ≡ filter (λ s. not (is_broken s.state)) self.old }
    {
        self.notes = Notes::none(*self.all.allocator());
        self.all.retain(|slot| !is_broken(&slot.state));
    }

    // Notes which of the slots are passed over, behind a sample more, if that isn't so or is to be done anew.
    pub(crate) fn note_skips(&mut self, alloc: Global)
        ensures { self.new ≡ self.old }
    {
        let anew = self.moves.count(self.all.len());
        if anew || self.notes.skips.is_empty() {
            self.notes = notes_of(alloc, &self.moves, self.all.as_slice());
            self.moves.renew();
        }
    }
}
