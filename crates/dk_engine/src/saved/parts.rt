// The kept parts in the order in which they are saved.
ghost use Rattle.std.specs.Prelude.{◌≡◌, IfOk};

use crate::{Engine, Slot};
use dk_base::{List, NoMemory, VarId};
use dk_snapshot::{Known, Pattern, classes_in_order, known_in_order, patterns_in_order};
use dk_template::Tuple;
use std::alloc::Global;

/// What an engine keeps, in the order in which it is saved: the number of samples, the members of each class, ascending, the classes
/// by their leaders, the patterns, ascending, the constants by their leaders, and the slots by row and then by variables.
#[derive(Debug, Drop)]
pub struct Parts {
    pub samples: u64,
    pub classes: List<List<VarId>>,
    pub patterns: List<Pattern>,
    pub known: List<Known>,
    pub slots: List<Slot>,
}

// A slot that is equal to this one, in memory of its own.
fn copy_slot(alloc: Global, slot: &Slot) -> Result<Slot, NoMemory>
    ensures { IfOk result (λ copy. copy ≡ slot.now) }
{
    let state = slot.state.copy(alloc)?;
    Ok(Slot {
        row: slot.row,
        leaders: Tuple::of(slot.leaders.as_slice()),
        state,
    })
}

// Slots that are equal to these, in memory of their own.
fn copy_slots(alloc: Global, slots: &[Slot]) -> Result<List<Slot>, NoMemory>
    ensures { IfOk result (λ copies. copies ≡ slots.now) }
{
    let mut copies = List::new(alloc);
    for slot in slots {
        copies.push(copy_slot(alloc, slot)?)?;
    }
    Ok(copies)
}

impl Engine {
    ghost use Rattle.dk_engine.specs.Saved.{parts_of};

    /// The kept parts, in the order in which they are saved.
    pub fn parts(&self) -> Result<Parts, NoMemory>
        ensures { IfOk result (λ parts. parts ≡ parts_of self.now.kept) }
    {
        let kept = &self.kept;
        let classes = classes_in_order(self.alloc, &kept.leaders, self.infos.len())?;
        let patterns = patterns_in_order(self.alloc, kept.leaders.leaders(), kept.held.held())?;
        let known = known_in_order(self.alloc, kept.known.entries())?;
        let slots = copy_slots(self.alloc, kept.slots.as_slice())?;
        Ok(Parts {
            samples: kept.samples,
            classes,
            patterns,
            known,
            slots,
        })
    }
}
