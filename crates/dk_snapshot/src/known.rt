// Constant leaders, each with its value.
ghost use Rattle.std.specs.Prelude.{◌≡◌, IfOk};
ghost use Rattle.dk_snapshot.specs.Entries.{all_known_of};

use dk_base::{List, NoMemory, Text, Value, VarId};
use std::alloc::Global;

/// A leader that has had one value in all samples, with that value.
#[derive(Debug, Drop)]
pub struct Known {
    pub leader: VarId,
    pub value: Value,
}

/// Copies of the constants, in their order.
pub fn known_in_order(alloc: Global, entries: &[(VarId, Value)]) -> Result<List<Known>, NoMemory>
    ensures { IfOk result (λ known. known ≡ all_known_of entries.now) }
{
    let mut known = List::new(alloc);
    for (leader, value) in entries {
        let value = value.copy(alloc)?;
        known.push(Known {
            leader: *leader,
            value,
        })?;
    }
    Ok(known)
}
