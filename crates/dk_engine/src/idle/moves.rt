// Which bounds move often. What is noted of slots holds as long as none of those that are passed over changes, so such a bound isn't noted.
// Nothing is said of it here: whatever is noted is right, and this decides what is worth it.
use crate::Slot;
use crate::feed::changes::Change;
use dk_base::{NoMemory, VarId};
use dk_template::rows;
use std::alloc::Global;

// How many samples come before anything is noted: fewer cost less without.
const FIRST: u64 = 4;

// How many come before bounds are.
const BOUNDS: u64 = 1024;

// Notes are young in the first samples, one for each so many slots. To make them costs as much as some samples, so a bound that moves while
// they are young isn't noted. Another one is at once.
const YOUNG: usize = 16;

// All bounds are noted once more after so many samples for each slot, or when the samples are twice as many.
const OLD: usize = 64;

/// How many samples slots have taken since they were put together, how many since the notes were made, and how many are left until all bounds
/// are noted once more; and which bounds moved while the notes were young, by their numbers.
#[derive(Drop)]
pub(crate) struct Moves {
    samples: u64,
    age: u32,
    left: u32,
    moved: Vec<bool>,
}

/// The variable of whose number a slot says a bound.
pub(crate) fn bounded(slot: &Slot) -> Option<VarId> {
    if slot.row.0 != rows::LOWER_BOUND && slot.row.0 != rows::UPPER_BOUND {
        return None;
    }
    match slot.leaders.as_slice() {
        [v] => Some(*v),
        _ => None,
    }
}

// The number of the bound that a slot says: a variable's least value comes before its greatest one.
fn number_of(slot: &Slot) -> Option<usize> {
    match bounded(slot) {
        Some(v) => {
            let least = (v.0 as usize).wrapping_mul(2);
            Some(if slot.row.0 == rows::LOWER_BOUND {
                least
            } else {
                least.wrapping_add(1)
            })
        }
        None => None,
    }
}

impl Moves {
    /// No samples. It takes no memory.
    pub(crate) fn none(alloc: Global) -> Moves {
        Moves {
            samples: 0,
            age: 0,
            left: BOUNDS as u32,
            moved: Vec::new(alloc),
        }
    }

    /// A sample more, which leaves so many slots. Whether all is to be noted anew.
    pub(crate) fn count(&mut self, slots: usize) -> bool {
        self.samples = self.samples.saturating_add(1);
        self.age = self.age.saturating_add(1);
        self.left = self.left.saturating_sub(1);
        if 0 < self.left {
            return false;
        }
        let old = slots.saturating_mul(OLD) as u64;
        self.left = old.min(self.samples).min(u32::MAX as u64) as u32;
        self.forget();
        true
    }

    /// The notes are made.
    pub(crate) fn renew(&mut self) {
        self.age = 0;
    }

    /// No bound has moved.
    pub(crate) fn forget(&mut self) {
        self.moved.clear();
    }

    /// Whether anything is noted yet.
    pub(crate) fn are_worth_notes(&self) -> bool {
        FIRST <= self.samples
    }

    /// Whether the bound that a slot says is noted.
    pub(crate) fn rests(&self, slot: &Slot) -> bool {
        match number_of(slot) {
            Some(number) => BOUNDS <= self.samples && !matches!(self.moved.get(number), Some(true)),
            None => false,
        }
    }

    // Whether the notes of so many slots are young.
    fn are_young(&self, slots: usize) -> bool {
        self.age as usize <= slots / YOUNG
    }

    // The bound of this number moved.
    fn note(&mut self, number: usize) -> Result<(), NoMemory> {
        for _ in self.moved.len()..number.saturating_add(1) {
            self.moved.push(false)?;
        }
        if let Some(moved) = self.moved.get_mut(number) {
            *moved = true;
        }
        Ok(())
    }

    // If the slot says a bound, it moved.
    fn note_slot(&mut self, slot: &Slot) -> Result<(), NoMemory> {
        match number_of(slot) {
            Some(number) => self.note(number),
            None => Ok(()),
        }
    }

    /// The slots at these places change. Where memory runs out, bounds that move may be noted, which costs time alone.
    pub(crate) fn note_changes(
        &mut self,
        slots: &[Slot],
        changes: &[Change],
    ) -> Result<(), NoMemory> {
        if self.samples < BOUNDS || !self.are_young(slots.len()) {
            return Ok(());
        }
        for change in changes {
            if let Some(slot) = slots.get(change.place) {
                self.note_slot(slot)?;
            }
        }
        Ok(())
    }
}
