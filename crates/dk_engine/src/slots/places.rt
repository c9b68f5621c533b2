// Where slots stand.
ghost use Rattle.std.specs.Prelude.{◌≡◌, ◌≤◌, false, true, MatchOption, None, Some, length};
ghost use Rattle.std.specs.List.{AllPairs};
ghost use Rattle.std.specs.List.Sorted.{IsPartitionPoint};
ghost use Rattle.dk_presence.specs.Patterns.{same_vars};
ghost use Rattle.dk_engine.specs.Exact.{SlotBefore};
ghost use Rattle.dk_engine.specs.Reading.Parts.{is_slot_of, slot_at};
ghost use Rattle.dk_engine.specs.Sweeps.Ordering.{is_slot_before, precedes};

use crate::Slot;
use dk_base::VarId;
use dk_template::RowId;

// Whether the variables are the same, in the same order.
fn are_same(vs: &[VarId], ws: &[VarId]) -> bool
    ensures { result ≡ same_vars vs.now ws.now }
{
    if vs.len() != ws.len() {
        return false;
    }
    for i in 0..vs.len() {
        if vs[i] != ws[i] {
            return false;
        }
    }
    true
}

// Whether the first tuple precedes the other: at the first place at which they differ it has the earlier variable.
#[inline(always)]
fn precedes(vars: &[VarId], others: &[VarId]) -> bool
    ensures { result ≡ precedes vars.now others.now }
{
    for i in 0..vars.len() {
        if i >= others.len() {
            return false;
        }
        if vars[i].0 != others[i].0 {
            return vars[i].0 < others[i].0;
        }
    }
    false
}

// Whether the slot is of an earlier row, or of the same row with leaders that precede.
#[inline(always)]
pub(crate) fn is_before(slot: &Slot, row: RowId, leaders: &[VarId]) -> bool
    ensures { result ≡ is_slot_before row leaders.now slot.now }
{
    slot.row.0 < row.0 || (slot.row.0 == row.0 && precedes(slot.leaders.as_slice(), leaders))
}

// Whether it is the slot of the row over the leaders.
fn is_slot_of(slot: &Slot, row: RowId, leaders: &[VarId]) -> bool
    ensures { result ≡ is_slot_of row leaders.now slot.now }
{
    slot.row.0 == row.0 && are_same(slot.leaders.as_slice(), leaders)
}

// How many slots come before the row and leaders, found by halving.
fn place_of(slots: &[Slot], row: RowId, leaders: &[VarId]) -> usize
    requires { AllPairs SlotBefore slots.now }
    ensures within { result ≤ length slots.now }
    ensures parted { IsPartitionPoint (λ s. is_slot_before row leaders.now s ≡ true) (λ s. is_slot_before row leaders.now s ≡ false) slots.now result }
{
    let mut low = 0;
    let mut high = slots.len();
    while low < high {
        let middle = low + (high - low) / 2;
        if is_before(&slots[middle], row, leaders) {
            low = middle + 1;
        } else {
            high = middle;
        }
    }
    low
}

/// The slot of a row over leaders, among slots in order.
pub(crate) fn find<'a>(slots: &'a [Slot], row: RowId, leaders: &[VarId]) -> Option<&'a Slot>
    requires { AllPairs SlotBefore slots.now }
    ensures { MatchOption result (slot_at slots.now row leaders.now ≡ None) (λ slot. slot_at slots.now row leaders.now ≡ Some slot.now.state) }
{
    let place = place_of(slots, row, leaders);
    if place < slots.len() && is_slot_of(&slots[place], row, leaders) {
        return Some(&slots[place]);
    }
    None
}
