// The members of each class.
ghost use Rattle.std.specs.Prelude.{◌≡◌, ◌<◌, ◌^◌, [], IfOk, length, replicate};
ghost use Rattle.dk_classes.specs.Leaders.{AreClasses};
ghost use Rattle.dk_snapshot.specs.Classes.{AreGroups, classes_of, nonempty};

use dk_base::{List, NoMemory, VarId};
use dk_classes::Classes;
use std::alloc::Global;

// So many empty lists.
fn empty_groups(alloc: Global, count: usize) -> Result<Vec<List<VarId>>, NoMemory>
    ensures { IfOk result (λ groups. groups.items ≡ replicate count []) }
{
    let mut groups = Vec::new(alloc);
    for _v in 0..count {
        groups.push(List::new(alloc))?;
    }
    Ok(groups)
}

// For each of so many variables the members of the class that it leads.
fn group_members(
    alloc: Global,
    classes: &Classes,
    count: usize,
) -> Result<Vec<List<VarId>>, NoMemory>
    requires count { count ≡ length classes.now }
    requires classes { AreClasses classes.now }
    ensures { IfOk result (λ groups. AreGroups classes.now count groups.items) }
{
    let mut groups = empty_groups(alloc, count)?;
    for v in 0..count {
        let member = VarId(v as u32);
        let leader = classes.leader(member);
        let group = &mut groups[leader.0 as usize];
        group.push(member)?;
    }
    Ok(groups)
}

// The lists that aren't empty.
fn nonempty(alloc: Global, groups: Vec<List<VarId>>) -> Result<List<List<VarId>>, NoMemory>
    ensures { IfOk result (λ left. left ≡ nonempty groups.items) }
{
    let mut left = List::new(alloc);
    for group in groups {
        if !group.is_empty() {
            left.push(group)?;
        }
    }
    Ok(left)
}

/// The members of each class, ascending, the classes ascending by their leaders. There are so many variables.
pub fn classes_in_order(
    alloc: Global,
    classes: &Classes,
    count: usize,
) -> Result<List<List<VarId>>, NoMemory>
    requires { count ≡ length classes.now }
    ensures { IfOk result (λ all. all ≡ classes_of classes.now) }
{
    let _leaders = classes.leaders();
    nonempty(alloc, group_members(alloc, classes, count)?)
}
