// Classes over small lists of samples, as they were worked out by hand.
ghost use Rattle.std.specs.Prelude.{◌≡◌, IfOk, length};

use dk_base::{Compar, Form, Kind, List, NoMemory, Text, VarId, VarInfo, View};
use dk_classes::Classes;
use std::alloc::Global;
use std::process::Abort;
use std::test::Fail;

fn info(alloc: Global, kind: Kind) -> VarInfo {
    VarInfo {
        name: Text::new(alloc),
        kind,
        form: Form::Declared,
        compar: Compar { elem: 0, index: 0 },
    }
}

fn infos(alloc: Global, kinds: &[Kind]) -> Result<List<VarInfo>, NoMemory>
    ensures { IfOk result (λ all. length all ≡ length kinds.now) }
{
    let mut all = List::new(alloc);
    for kind in kinds {
        all.push(info(alloc, *kind))?;
    }
    Ok(all)
}

fn check_leaders(rt: &impl Abort, classes: &Classes, expected: &[VarId]) {
    assert!(rt; classes.leaders() == expected);
}

#[test]
fn three_numbers_split_in_two_steps(rt: HostRuntime) -> Result<(), Fail> {
    let alloc = rt.alloc();
    let vars = infos(alloc, &[Kind::Int, Kind::Int, Kind::Int])?;
    let none = Classes::new(alloc, vars.as_slice())?;
    check_leaders(&rt, &none, &[VarId(0)]);
    let (one, new) = none.split(&[View::Int(1), View::Int(1), View::Int(1)])?;
    assert!(rt; new.is_empty());
    let (two, new) = one.split(&[View::Int(2), View::Int(2), View::Int(5)])?;
    assert!(rt; new.as_slice() == [(VarId(2), VarId(0))].as_slice());
    check_leaders(&rt, &two, &[VarId(0), VarId(2)]);
    let (three, new) = two.split(&[View::Int(3), View::Missing, View::Int(5)])?;
    assert!(rt; new.as_slice() == [(VarId(1), VarId(0))].as_slice());
    check_leaders(&rt, &three, &[VarId(0), VarId(1), VarId(2)]);
    Ok(())
}

#[test]
fn three_variables_leave_and_two_stay_together(rt: HostRuntime) -> Result<(), Fail> {
    let alloc = rt.alloc();
    let leaders = List::from_slice(
        alloc,
        &[VarId(0), VarId(0), VarId(2), VarId(0), VarId(2), VarId(0)],
    )?;
    let two = Classes::from_leaders(alloc, leaders)?;
    let sample = [
        View::Int(1),
        View::Int(7),
        View::Int(1),
        View::Int(8),
        View::Int(7),
        View::Int(7),
    ];
    let (more, new) = two.split(&sample)?;
    let expected = [
        (VarId(1), VarId(0)),
        (VarId(3), VarId(0)),
        (VarId(4), VarId(2)),
    ];
    assert!(rt; new.as_slice() == expected.as_slice());
    check_leaders(
        &rt,
        &more,
        &[VarId(0), VarId(1), VarId(2), VarId(3), VarId(4)],
    );
    assert!(rt; more.leader(VarId(5)) == VarId(1));
    Ok(())
}
