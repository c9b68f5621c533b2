// The join of two engines.
ghost use Rattle.std.specs.Prelude.{◌≡◌, ◌≢◌, ◌<◌, ◌≤◌, ◌+◌, ◌^◌, ◌++◌, Err, IfOk, List, length};
ghost use Rattle.dk_base.specs.declared.values.Value.{Value};
ghost use Rattle.dk_engine.specs.Exact.{AreOfPoint, IsKeptOf};
ghost use Rattle.dk_engine.specs.Feeding.{slots_of};
ghost use Rattle.dk_engine.specs.Saved.{AreSavedParts, parts_of};
ghost use Rattle.dk_engine.specs.declared.saved.parts.Parts.{Parts as AllParts};
ghost use Rattle.dk_join.specs.Beside.{AreLed, HaveSamples};
ghost use Rattle.dk_join.specs.Joined.{AreJoinedParts};
ghost use Rattle.dk_join.specs.Joining.{AreAlike, AreOfOnePoint, read_joined};
ghost use Rattle.dk_join.specs.Laws.{AreKeptOf};
ghost use Rattle.dk_presence.specs.Patterns.{capped};

use crate::both::Both;
use crate::constants::joined_known;
use crate::leaders::joined_leaders;
use crate::patterns::joined_patterns;
use crate::sweeps::Sweep;
use dk_base::{List, NoMemory, Text, VarId, VarInfo};
use dk_constants::Constants;
use dk_engine::{Engine, Parts, PartsFault, Slot};
use dk_snapshot::{classes_in_order, known_in_order, patterns_in_order};
use std::alloc::Global;
use thiserror::Error;

/// Why two engines have no join.
#[derive(Clone, Copy, Debug, Drop, PartialEq, Eq, Error)]
pub enum JoinFault {
    /// Their join can't be saved.
    #[error("the join of the states is no state")]
    Joined,
    /// Memory could not be had.
    #[error("out of memory")]
    NoMemory,
}

impl From<NoMemory> for JoinFault {
    ghost use Rattle.std.specs.Prelude.{◌≡◌};
    ghost use Rattle.dk_join.specs.declared.joining.JoinFault.TheVariants as fault;

    ghost from_gives = { λ _ e. e ≡ fault.NoMemory };

    fn from(_: NoMemory) -> Self {
        JoinFault::NoMemory
    }
}

// A variable that is equal to this one, in memory of its own.
fn copy_var(alloc: Global, var: &VarInfo) -> Result<VarInfo, NoMemory>
    ensures { IfOk result (λ copy. copy ≡ var.now) }
{
    let name = Text::from_slice(alloc, var.name.as_slice())?;
    Ok(VarInfo {
        name,
        kind: var.kind,
        form: var.form,
        compar: var.compar,
    })
}

// Variables that are equal to these, in memory of their own.
fn copy_vars(alloc: Global, vars: &[VarInfo]) -> Result<List<VarInfo>, NoMemory>
    ensures { IfOk result (λ copies. copies ≡ vars.now) }
{
    let mut copies = List::new(alloc);
    for var in vars {
        copies.push(copy_var(alloc, var)?)?;
    }
    Ok(copies)
}

// How many samples both have, at most 2^64 - 1.
fn number_of_both(first: &Engine, second: &Engine) -> u64
    ensures { result ≡ capped (first.now.kept.samples + second.now.kept.samples) }
{
    let one = first.counts().samples;
    let other = second.counts().samples;
    one.saturating_add(other)
}

// The slots of both, over these leaders.
fn joined_slots(
    alloc: Global,
    first: &Engine,
    second: &Engine,
    known: &Constants,
    leaders: &[VarId],
) -> Result<List<Slot>, NoMemory>
    requires alike { AreAlike (record { first = first.now; second = second.now }) }
    requires some { HaveSamples (record { first = first.now; second = second.now }) }
    requires leaders { AreLed (record { first = first.now; second = second.now }) leaders.now }
    ensures { IfOk result (λ slots. slots ≡ slots_of first.now.grammar first.now.infos leaders.now known.now (read_joined first.now.kept second.now.kept)) }
{
    let both = Both::of(alloc, first, second, leaders)?;
    let sweep = Sweep {
        alloc,
        both: &both,
        known,
    };
    sweep.all(first.grammar(), leaders)
}

// The parts of the join, in the order in which they are saved.
fn joined_parts(alloc: Global, first: &Engine, second: &Engine) -> Result<Parts, NoMemory>
    requires one { AreOfOnePoint (record { first = first.now; second = second.now }) }
    requires some { HaveSamples (record { first = first.now; second = second.now }) }
    ensures { IfOk result (AreJoinedParts first.now.grammar first.now.infos first.now.kept second.now.kept) }
{
    let count = first.vars().len();
    let joined = joined_leaders(alloc, first.classes(), second.classes(), count)?;
    let leaders = joined.leaders();
    let values = joined_known(alloc, first, second, leaders)?;
    let known = Constants::from_known(alloc, values)?;
    let held = joined_patterns(alloc, first, second, leaders)?;
    let slots = joined_slots(alloc, first, second, &known, leaders)?;
    let members = classes_in_order(alloc, &joined, count)?;
    let patterns = patterns_in_order(alloc, leaders, held.as_slice())?;
    let constants = known_in_order(alloc, known.entries())?;
    Ok(Parts {
        samples: number_of_both(first, second),
        classes: members,
        patterns,
        known: constants,
        slots,
    })
}

// What is so of every engine: its variables are those of a point, and each has a leader.
fn tell_leaders(engine: &Engine)
    ensures point { AreOfPoint engine.now.infos }
    ensures long { length engine.now.kept.leaders ≡ length engine.now.infos }
{
    engine.kept();
}

/// The join of two engines over the same variables and rows, each of some samples. It stands for both lists of samples together, for
/// every two lists that the engines stand for. Joined exactly where its parts are none that can be saved, which is never so for lists
/// of at most 2^40 samples together.
pub fn join(alloc: Global, first: &Engine, second: &Engine) -> Result<Engine, JoinFault>
    requires alike { AreAlike (record { first = first.now; second = second.now }) }
    requires first { 0 < first.now.kept.samples }
    requires second { 0 < second.now.kept.samples }
    ensures grammar { IfOk result (λ e. e.grammar ≡ first.now.grammar) }
    ensures infos { IfOk result (λ e. e.infos ≡ first.now.infos) }
    ensures parts { IfOk result (λ e. AreJoinedParts first.now.grammar first.now.infos first.now.kept second.now.kept (parts_of e.kept)) }
    ensures saved { IfOk result (λ e. AreSavedParts first.now.grammar first.now.infos (parts_of e.kept)) }
    ensures joined { result ≡ Err JoinFault.Joined → (parts : AllParts) → AreJoinedParts first.now.grammar first.now.infos first.now.kept second.now.kept parts → AreSavedParts first.now.grammar first.now.infos parts → ⊥ }
    ensures stands { (samples others : List (List Value)) → AreKeptOf first.now.grammar first.now.infos samples others first.now.kept second.now.kept → IfOk result (λ e. IsKeptOf first.now.grammar first.now.infos (samples ++ others) e.kept) }
    ensures few { (samples others : List (List Value)) → AreKeptOf first.now.grammar first.now.infos samples others first.now.kept second.now.kept → length samples + length others ≤ 2 ^ 40 → result ≢ Err JoinFault.Joined }
{
    tell_leaders(first);
    tell_leaders(second);
    let parts = joined_parts(alloc, first, second)?;
    let vars = copy_vars(alloc, first.vars())?;
    match Engine::from_parts(alloc, vars, parts, first.grammar()) {
        Ok(engine) => Ok(engine),
        Err(PartsFault::Bad) => Err(JoinFault::Joined),
        Err(PartsFault::NoMemory) => Err(JoinFault::NoMemory),
    }
}
