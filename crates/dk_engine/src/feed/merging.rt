// Slots that are left and slots that are opened, in one list.
ghost use Rattle.std.specs.Prelude.{◌≡◌, ◌++◌, All, IfOk};
ghost use Rattle.std.specs.List.{AllPairs};
ghost use Rattle.dk_engine.specs.Exact.{SlotBefore};
ghost use Rattle.dk_engine.specs.Feeding.Merged.{AreTogether, HasNumber, slot_number, var_in};

use crate::{Slot, Slots};
use dk_base::{NoMemory, VarId};

// The number of a variable of a tuple; where there is none, 0.
fn var_in(vars: &[VarId], k: usize) -> u32
    ensures { result ≡ var_in vars.now k }
{
    match vars.get(k) {
        Some(v) => v.0,
        None => 0,
    }
}

// A number by which slots ascend.
fn number(slot: &Slot) -> u128
    ensures { result ≡ slot_number slot.now }
{
    let vars = slot.leaders.as_slice();
    let first = (slot.row.0 as u128) * 0x1_0000_0000 + var_in(vars, 0) as u128;
    let second = first * 0x1_0000_0000 + var_in(vars, 1) as u128;
    second * 0x1_0000_0000 + var_in(vars, 2) as u128
}

// The slots of both lists, one behind the other.
fn concatenate(left: Vec<Slot>, opened: Vec<Slot>) -> Result<Vec<Slot>, NoMemory>
    ensures { IfOk result (λ all. all.items ≡ left.items ++ opened.items) }
{
    let mut all = left;
    for slot in opened {
        all.push(slot)?;
    }
    Ok(all)
}

// In order, without those that stand there twice.
fn in_order(all: Vec<Slot>) -> Result<Slots, NoMemory>
    requires { All HasNumber all.items }
    ensures { IfOk result (AreTogether all.items) }
{
    let mut all = all;
    all.sort_by_key(|slot| number(slot))?;
    all.dedup_by_key(|slot| number(slot));
    Ok(Slots::of(all))
}

/// The slots of both lists, ascending.
pub(crate) fn merge_slots(left: Slots, opened: Slots) -> Result<Slots, NoMemory>
    requires ascend { AllPairs SlotBefore left }
    requires left { All HasNumber left }
    requires opened { All HasNumber opened }
    ensures { IfOk result (AreTogether (left ++ opened)) }
{
    if opened.as_slice().is_empty() {
        return Ok(left);
    }
    in_order(concatenate(left.into_vec(), opened.into_vec())?)
}
