// The leaders that are new with a sample or were constant until then, and so touch the tuples in which they stand.
ghost use Rattle.std.specs.Prelude.{◌≡◌, IfOk, is_some};
ghost use Rattle.dk_constants.specs.Known.{known_at};
ghost use Rattle.dk_engine.specs.Feeding.Step.{is_new, touches};
ghost use Rattle.dk_engine.specs.Sweeps.Choices.{other_leaders, touching_leaders};

use crate::Now;
use dk_base::{List, NoMemory, Value, VarId};
use std::alloc::Global;

// Whether the variable is a new leader.
fn is_new(new: &[(VarId, VarId)], v: VarId) -> bool
    ensures { result ≡ is_new new.now v }
{
    for (leader, _) in new {
        if leader.0 == v.0 {
            return true;
        }
    }
    false
}

// Whether the variable is a constant that ended.
fn has_ended(ended: &[(VarId, Value)], v: VarId) -> bool
    ensures { result ≡ is_some (known_at ended.now v) }
{
    for (leader, _) in ended {
        if leader.0 == v.0 {
            return true;
        }
    }
    false
}

/// Whether the leader touches the tuples in which it stands.
pub(crate) fn touches(now: &Now, v: VarId) -> bool
    ensures { result ≡ touches now.now v }
{
    is_new(now.new.as_slice(), v) || has_ended(now.ended.as_slice(), v)
}

/// The leaders that touch a tuple.
pub(crate) fn touching_leaders(alloc: Global, now: &Now) -> Result<List<VarId>, NoMemory>
    ensures { IfOk result (λ vars. vars ≡ touching_leaders now.now) }
{
    let mut vars = List::new(alloc);
    for v in now.leaders.leaders() {
        if touches(now, *v) {
            vars.push(*v)?;
        }
    }
    Ok(vars)
}

/// The leaders of which no tuple is touched for their own sake.
pub(crate) fn others(alloc: Global, now: &Now) -> Result<List<VarId>, NoMemory>
    ensures { IfOk result (λ vars. vars ≡ other_leaders now.now) }
{
    let mut vars = List::new(alloc);
    for v in now.leaders.leaders() {
        if !touches(now, *v) {
            vars.push(*v)?;
        }
    }
    Ok(vars)
}
