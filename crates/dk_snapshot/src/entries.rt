// Constants that are read back from their list.
ghost use Rattle.std.specs.Prelude.{◌≡◌, ◌↔◌, IfOk, IsTrue, Some, map};
ghost use Rattle.dk_constants.specs.Known.{Entries, EntriesAscend};
ghost use Rattle.dk_snapshot.specs.Restored.{HaveEntries, entry_of};

use crate::Known;
use dk_base::{List, NoMemory, Value, VarId};
use dk_constants::Constants;
use std::alloc::Global;

// Each leader beside its value.
fn entries_of(alloc: Global, known: List<Known>) -> Result<List<(VarId, Value)>, NoMemory>
    ensures { IfOk result (λ entries. entries ≡ map entry_of known) }
{
    let mut entries = List::new(alloc);
    for constant in known.into_vec() {
        entries.push((constant.leader, constant.value))?;
    }
    Ok(entries)
}

// Whether the leaders ascend.
fn ascend(entries: &[(VarId, Value)]) -> bool
    ensures { IsTrue result ↔ EntriesAscend entries.now }
{
    for i in 1..entries.len() {
        if entries[i].0.0 <= entries[i - 1].0.0 {
            return false;
        }
    }
    true
}

/// The constants with these leaders and values, or None where the leaders don't ascend.
pub fn constants_from(alloc: Global, known: List<Known>) -> Result<Option<Constants>, NoMemory>
    ensures { IfOk result (λ found. (entries : Entries) → (found ≡ Some entries) ↔ HaveEntries known entries) }
{
    let entries = entries_of(alloc, known)?;
    if !ascend(entries.as_slice()) {
        return Ok(None);
    }
    Ok(Some(Constants::from_known(alloc, entries)?))
}
