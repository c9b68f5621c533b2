// The engines of both states.
ghost use Rattle.std.specs.Prelude.{◌≡◌, Err, IfOk};
ghost use Rattle.dk_join.specs.Joining.{AreAlike};
ghost use Rattle.dk_merging.specs.Engines.{AreAllAlike, AreEnginesOfBoth, HaveNoJoin, HaveNoJoinSomewhere, IsEngineOfBoth, IsSound};

use dk_base::List;
use dk_engine::Engine;
use dk_join::{JoinFault, join};
use std::alloc::Global;

/// What is so of every engine: what it keeps meets the conditions.
pub(crate) fn tell_sound(engine: &Engine)
    ensures { IsSound engine.now }
{
    engine.kept();
    engine.presence().held();
}

// The engine of a point in both: the one that alone has samples, or the join.
fn engine_of_both(alloc: Global, first: Engine, second: Engine) -> Result<Engine, JoinFault>
    requires { AreAlike (record { first = first; second = second }) }
    ensures both { IfOk result (IsEngineOfBoth first second) }
    ensures none { result ≡ Err JoinFault.Joined → HaveNoJoin first second }
{
    tell_sound(&first);
    tell_sound(&second);
    if second.counts().samples == 0 {
        return Ok(first);
    }
    if first.counts().samples == 0 {
        return Ok(second);
    }
    join(alloc, &first, &second)
}

/// The engines of all points in both, in their order.
pub(crate) fn engines_of_both(
    alloc: Global,
    first: List<Engine>,
    second: List<Engine>,
) -> Result<List<Engine>, JoinFault>
    requires { AreAllAlike first second }
    ensures both { IfOk result (AreEnginesOfBoth first second) }
    ensures none { result ≡ Err JoinFault.Joined → HaveNoJoinSomewhere first second }
{
    let mut engines = List::new(alloc);
    for (one, other) in first.into_vec().into_iter().zip(second.into_vec()) {
        engines.push(engine_of_both(alloc, one, other)?)?;
    }
    Ok(engines)
}
