// Classes that are read back from their members.
ghost use Rattle.std.specs.Prelude.{◌≡◌, ◌↔◌, ◌<◌, ◌^◌, IfOk, IsTrue, List, Some, length, replicate};
ghost use Rattle.dk_base.specs.declared.kinds.VarId.{VarId};
ghost use Rattle.dk_classes.specs.Leaders.{AreClasses, var};
ghost use Rattle.dk_snapshot.specs.Restored.{HaveMembers, heads_of, led_by, led};

use crate::classes_in_order;
use dk_base::{List, NoMemory, VarId};
use dk_classes::Classes;
use std::alloc::Global;

// So many variables, each the first one.
fn initial_heads(alloc: Global, count: usize) -> Result<Vec<VarId>, NoMemory>
    ensures { IfOk result (λ heads. heads.items ≡ replicate count (var 0)) }
{
    let mut heads = Vec::new(alloc);
    for _v in 0..count {
        heads.push(VarId(0))?;
    }
    Ok(heads)
}

// The members that are there get this leader.
fn lead_by(heads: &mut Vec<VarId>, leader: VarId, members: &[VarId])
    ensures { heads.new.items ≡ led_by leader members.now heads.old.items }
{
    for member in members {
        let place = member.0 as usize;
        if place < heads.len() {
            heads[place] = leader;
        }
    }
}

// The members of a class get the first of them as their leader.
fn lead(heads: &mut Vec<VarId>, members: &[VarId])
    ensures { heads.new.items ≡ led members.now heads.old.items }
{
    if let [first, ..] = members {
        lead_by(heads, *first, members);
    }
}

// For each of so many variables the first member of the last class that has it.
fn heads(alloc: Global, count: usize, classes: &[List<VarId>]) -> Result<Vec<VarId>, NoMemory>
    ensures { IfOk result (λ heads. heads.items ≡ heads_of classes.now (replicate count (var 0))) }
{
    let mut heads = initial_heads(alloc, count)?;
    for class in classes {
        lead(&mut heads, class.as_slice());
    }
    Ok(heads)
}

// Whether no leader stands after its variable, and each is its own leader.
fn are_classes(leaders: &[VarId]) -> bool
    requires { length leaders.now < 2 ^ 32 }
    ensures { IsTrue result ↔ AreClasses leaders.now }
{
    for v in 0..leaders.len() {
        let leader = leaders[v].0 as usize;
        if v < leader || leaders[leader].0 as usize != leader {
            return false;
        }
    }
    true
}

// Whether the classes have the same members, in the same order.
fn are_same(classes: &[List<VarId>], others: &[List<VarId>]) -> bool
    ensures { IsTrue result ↔ (classes.now ≡ others.now) }
{
    classes == others
}

/// The classes of so many variables with these members, in the order in which they are saved; or None where no classes are saved
/// like that.
pub fn classes_from(
    alloc: Global,
    count: usize,
    classes: &[List<VarId>],
) -> Result<Option<Classes>, NoMemory>
    requires { count < 2 ^ 32 }
    ensures { IfOk result (λ found. (leaders : List VarId) → (found ≡ Some leaders) ↔ HaveMembers count classes.now leaders) }
{
    let heads = heads(alloc, count, classes)?;
    if !are_classes(heads.as_slice()) {
        return Ok(None);
    }
    let found = Classes::from_leaders(alloc, List::from_vec(heads))?;
    let saved = classes_in_order(alloc, &found, count)?;
    Ok(if are_same(saved.as_slice(), classes) {
        Some(found)
    } else {
        None
    })
}
