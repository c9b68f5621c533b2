// Constants over small lists of samples, as they were worked out by hand.
use dk_base::{List, NoMemory, Value, VarId, View, same_kept};
use dk_constants::Constants;
use std::alloc::Global;
use std::test::Fail;

fn shows(alloc: Global, expected: View<'_>, value: &Value) -> Result<bool, NoMemory> {
    Ok(same_kept(&Value::keep(alloc, expected)?, value))
}

fn is_known(
    alloc: Global,
    constants: &Constants,
    v: u32,
    expected: View<'_>,
) -> Result<bool, NoMemory> {
    match constants.value(VarId(v)) {
        Some(value) => shows(alloc, expected, value),
        None => Ok(false),
    }
}

fn has_ended(
    alloc: Global,
    ended: &List<(VarId, Value)>,
    v: u32,
    expected: View<'_>,
) -> Result<bool, NoMemory> {
    match ended.as_slice() {
        [(leader, value)] => Ok(leader.0 == v && shows(alloc, expected, value)?),
        _ => Ok(false),
    }
}

#[test]
fn values_of_every_kind(rt: HostRuntime) -> Result<(), Fail> {
    let alloc = rt.alloc();
    let sample = [
        View::Bool(true),
        View::Int(-1),
        View::Hash(2),
        View::Str(b"\"a\""),
        View::BoolSeq(&[true]),
        View::IntSeq(&[1, 2]),
        View::HashSeq(&[3]),
        View::StrSeq(&[b"\"a\"", b"null"]),
    ];
    let leaders = [
        VarId(0),
        VarId(1),
        VarId(2),
        VarId(3),
        VarId(4),
        VarId(5),
        VarId(6),
        VarId(7),
    ];
    let first = Constants::first(alloc, &leaders, &sample)?;
    let (second, ended) = first.feed(&[(VarId(8), VarId(7))], &sample)?;
    assert!(rt; has_ended(alloc, &ended, 8, View::StrSeq(&[b"\"a\"", b"null"]))?);
    assert!(rt; is_known(alloc, &second, 5, View::IntSeq(&[1, 2]))?);
    let (third, ended) = second.feed(&[], &[])?;
    assert!(rt; ended.len() == 8);
    assert!(rt; third.value(VarId(7)).is_none());
    let again = Constants::from_known(alloc, ended)?;
    assert!(rt; is_known(alloc, &again, 3, View::Str(b"\"a\""))?);
    Ok(())
}
