// The patterns of both engines, over the joined leaders.
ghost use Rattle.std.specs.Prelude.{◌≡◌, ◌<◌, All, IfOk, length};
ghost use Rattle.dk_base.specs.declared.kinds.VarId.{VarId};
ghost use Rattle.dk_engine.specs.Reading.Parts.{leader_of};
ghost use Rattle.dk_join.specs.Joined.{AreJoinedPatterns, present_with};
ghost use Rattle.dk_join.specs.Tallies.{AreAdded};
ghost use Rattle.dk_presence.specs.Patterns.{AreHeld, has};
ghost use Rattle.dk_samples.specs.Leaders.{VarsAscend};

use crate::tally::Tally;
use dk_base::{List, NoMemory, VarId};
use dk_classes::Classes;
use dk_engine::Engine;
use dk_presence::{Held, contains};
use std::alloc::Global;

// Whether a leader is present with a pattern of the old ones: its old leader is.
fn is_present_with(old: &Classes, present: &[VarId], v: VarId) -> bool
    requires within { v.0 < length old.now }
    requires ascend { VarsAscend present.now }
    ensures { result ≡ has present.now (leader_of old.now v) }
{
    contains(present, old.leader(v))
}

// The leaders that are present with a pattern of the old ones.
fn present_with(
    alloc: Global,
    old: &Classes,
    leaders: &[VarId],
    present: &[VarId],
) -> Result<List<VarId>, NoMemory>
    requires within { All (λ (v : VarId). v.0 < length old.now) leaders.now }
    requires ascend { VarsAscend present.now }
    ensures { IfOk result (λ now. now ≡ present_with old.now leaders.now present.now) }
{
    let mut now = List::new(alloc);
    for v in leaders {
        if is_present_with(old, present, *v) {
            now.push(*v)?;
        }
    }
    Ok(now)
}

// The tally with these patterns, each over the new leaders.
fn with_patterns(
    alloc: Global,
    old: &Classes,
    leaders: &[VarId],
    held: &[Held],
    tally: Tally,
) -> Result<Tally, NoMemory>
    requires within { All (λ (v : VarId). v.0 < length old.now) leaders.now }
    requires ascend { VarsAscend leaders.now }
    requires held { AreHeld held.now }
    ensures { IfOk result (AreAdded old.now leaders.now held.now tally) }
{
    let mut tally = tally;
    for pattern in held {
        let present = present_with(alloc, old, leaders, pattern.leaders.as_slice())?;
        tally = tally.add(alloc, present, pattern.count)?;
    }
    Ok(tally)
}

// The tally with the patterns of an engine, over the new leaders.
fn with_engine(
    alloc: Global,
    engine: &Engine,
    leaders: &[VarId],
    tally: Tally,
) -> Result<Tally, NoMemory>
    requires within { All (λ (v : VarId). v.0 < length engine.now.kept.leaders) leaders.now }
    requires ascend { VarsAscend leaders.now }
    ensures { IfOk result (AreAdded engine.now.kept.leaders leaders.now engine.now.kept.held tally) }
{
    with_patterns(
        alloc,
        engine.classes(),
        leaders,
        engine.presence().held(),
        tally,
    )
}

/// The patterns of both, over these leaders.
pub(crate) fn joined_patterns(
    alloc: Global,
    first: &Engine,
    second: &Engine,
    leaders: &[VarId],
) -> Result<List<Held>, NoMemory>
    requires first { All (λ (v : VarId). v.0 < length first.now.kept.leaders) leaders.now }
    requires second { All (λ (v : VarId). v.0 < length second.now.kept.leaders) leaders.now }
    requires ascend { VarsAscend leaders.now }
    ensures { IfOk result (AreJoinedPatterns first.now.kept second.now.kept leaders.now) }
{
    let none = Tally::new(alloc);
    let one = with_engine(alloc, first, leaders, none)?;
    let both = with_engine(alloc, second, leaders, one)?;
    Ok(both.into_held())
}
