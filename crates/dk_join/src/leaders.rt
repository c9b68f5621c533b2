// The classes of the variables that agree in both engines.
ghost use Rattle.std.specs.Prelude.{◌≡◌, ◌<◌, IfOk, length, map};
ghost use Rattle.dk_base.specs.Values.{values_of};
ghost use Rattle.dk_join.specs.Joined.{AreJoinedLeaders};
ghost use Rattle.dk_join.specs.Tallies.{leader_value};

use dk_base::{NoMemory, VarId, View};
use dk_classes::Classes;
use std::alloc::Global;

// The leaders as a sample in which each variable has its leader as its value.
fn leader_values<'a>(
    alloc: Global,
    classes: &Classes,
    count: usize,
) -> Result<Vec<View<'a>>, NoMemory>
    requires { length classes.now ≡ count }
    ensures { IfOk result (λ sample. values_of sample.items ≡ map leader_value classes.now) }
{
    let _leaders = classes.leaders();
    let mut sample = Vec::new(alloc);
    for v in 0..count {
        let leader = classes.leader(VarId(v as u32));
        sample.push(View::Int(leader.0 as i64))?;
    }
    Ok(sample)
}

/// The classes of so many variables that agree in both: those of the first split as by a sample in which each variable has its leader
/// in the second as its value.
pub(crate) fn joined_leaders(
    alloc: Global,
    first: &Classes,
    second: &Classes,
    count: usize,
) -> Result<Classes, NoMemory>
    requires first { length first.now ≡ count }
    requires second { length second.now ≡ count }
    ensures { IfOk result (λ classes. AreJoinedLeaders first.now second.now classes) }
{
    let values = leader_values(alloc, second, count)?;
    let (classes, _new) = first.split_with(values.as_slice())?;
    Ok(classes)
}
