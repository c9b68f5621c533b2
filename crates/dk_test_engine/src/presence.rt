// Patterns over small lists of samples, as they were worked out by hand.
ghost use Rattle.std.specs.Prelude.{◌<◌, IfOk};
ghost use Rattle.dk_samples.specs.Leaders.{VarsAscend};
ghost use Rattle.dk_presence.specs.Patterns.{AreHeld};

use dk_base::{List, NoMemory, VarId};
use dk_classes::{Held, Presence};
use std::alloc::Global;
use std::test::Fail;

fn one_held(alloc: Global, count: u64, leaders: &[VarId]) -> Result<List<Held>, NoMemory>
    requires count { 0 < count }
    requires leaders { VarsAscend leaders.now }
    ensures { IfOk result AreHeld }
{
    let mut held = List::new(alloc);
    held.push(Held {
        count,
        leaders: List::from_slice(alloc, leaders)?,
    })?;
    Ok(held)
}

#[test]
fn three_numbers_split_in_two_steps(rt: HostRuntime) -> Result<(), Fail> {
    let alloc = rt.alloc();
    let none = Presence::new(alloc)?;
    let one = none.add(&[VarId(0)])?;
    let two = one.refine(&[(VarId(2), VarId(0))])?;
    let two = two.add(&[VarId(0), VarId(2)])?;
    assert!(rt; two.held().len() == 1);
    let three = two.refine(&[(VarId(1), VarId(0))])?;
    let three = three.add(&[VarId(0), VarId(2)])?;
    assert!(rt; three.held().len() == 2);
    assert!(rt; three.count(&[VarId(0), VarId(1)]) == 2);
    assert!(rt; three.count(&[VarId(2)]) == 3);
    assert!(rt; three.count(&[]) == 3);
    assert!(rt; three.count(&[VarId(3)]) == 0);
    Ok(())
}

#[test]
fn counts_end_at_the_greatest(rt: HostRuntime) -> Result<(), Fail> {
    let alloc = rt.alloc();
    let most = Presence::from_held(alloc, one_held(alloc, u64::MAX, &[VarId(4)])?)?;
    let more = most.add(&[VarId(4)])?;
    assert!(rt; more.count(&[VarId(4)]) == u64::MAX);
    let none = more.add(&[])?;
    assert!(rt; none.count(&[]) == u64::MAX);
    Ok(())
}
