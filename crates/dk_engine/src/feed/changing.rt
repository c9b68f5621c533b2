// Changes of kept slots.
ghost use Rattle.std.specs.Prelude.{◌≡◌};
ghost use Rattle.std.specs.List.{list_any};
ghost use Rattle.dk_forms.specs.declared.states.State.{State as SlotState};
ghost use Rattle.dk_engine.specs.Feeding.{is_broken};
ghost use Rattle.dk_engine.specs.Feeding.Narrow.{AreFound, slots_left};
ghost use Rattle.dk_engine.specs.declared.slots.slot.Slot.{Slot as KeptSlot};

use crate::Slots;
use crate::feed::changes::{Change, SlotChanges};
use dk_template::State;

// Whether the slot's state is Broken.
pub(crate) fn is_broken(state: &State) -> bool
    ensures { result ≡ is_broken state.now }
{
    matches!(state, State::Broken)
}

// Whether a change breaks a slot.
fn break_some(changes: &[Change]) -> bool
    ensures { result ≡ list_any (λ c. is_broken c.state) changes.now }
{
    for change in changes {
        if is_broken(&change.state) {
            return true;
        }
    }
    false
}

/// Makes all growths and changes of the slots, and drops those that are Broken then.
pub(crate) fn apply_changes(slots: &mut Slots, found: SlotChanges)
    ensures { (made : KeptSlot → SlotState) → AreFound made slots.old found → slots.new ≡ slots_left made slots.old }
{
    let breaks = break_some(found.changes.as_slice());
    slots.change(found);
    if breaks {
        slots.drop_broken();
    }
}
