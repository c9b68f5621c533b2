// An engine from saved parts.
ghost use Rattle.std.specs.Prelude.{◌≡◌, ◌≢◌, ◌<◌, ◌≤◌, ◌^◌, false, All, ◌↔◌, Err, IfOk, IfSome, IsTrue, List, None, length};
ghost use Rattle.dk_base.specs.declared.values.Value.{Value};
ghost use Rattle.dk_suppress.specs.Rules.{is_suppressed};
ghost use Rattle.dk_template.specs.Admitted.{admits};
ghost use Rattle.dk_classes.specs.Leaders.{own_leaders};
ghost use Rattle.dk_engine.specs.Saved.Bitmaps.{AreBitmaps};
ghost use Rattle.dk_engine.specs.Saved.Conditions.{AreParts};
ghost use Rattle.dk_engine.specs.Exact.{AreOfPoint, AreSamples, IsKeptOf};
ghost use Rattle.dk_engine.specs.Saved.Restored.{AreOpen, AreShaped, AreUnsuppressed, HaveParts, IsRearranged};
ghost use Rattle.dk_engine.specs.Saved.{AreSavedParts, parts_of};
ghost use Rattle.dk_engine.specs.declared.kept.Kept.{Kept};

pub(crate) mod bitmaps;
mod conditions;
pub(crate) mod mapping;
pub(crate) mod parts;

use crate::over::nothing::Nothing;
use crate::saved::bitmaps::Bitmaps;
use crate::saved::conditions::are_open;
use crate::saved::mapping::bitmaps;
use crate::{Engine, Kept, Parts, Slot, Slots};
use dk_base::{List, NoMemory, VarInfo};
use dk_snapshot::{classes_from, constants_from, presence_from};
use dk_suppress::suppressed;
use dk_template::{Answers, Grammar};
use std::alloc::Global;

/// Why parts make no engine.
#[derive(Clone, Copy, Debug, PartialEq, Eq)]
pub enum PartsFault {
    /// No kept parts that meet the conditions are saved like this.
    Bad,
    /// Memory could not be had.
    NoMemory,
}

impl From<NoMemory> for PartsFault {
    ghost use Rattle.std.specs.Prelude.{◌≡◌};
    ghost use Rattle.dk_engine.specs.declared.saved.PartsFault.TheVariants as fault;

    ghost from_gives = { λ _ e. e ≡ fault.NoMemory };

    fn from(_: NoMemory) -> Self {
        PartsFault::NoMemory
    }
}

// Whether no rule suppresses a slot, as the answers tell.
fn none_suppressed<A: Answers>(slots: &[Slot], answers: &A) -> bool
    requires { All (λ slot. IsTrue (admits slot.row (A.infos answers.now) slot.leaders)) slots.now }
    ensures { IsTrue result ↔ All (λ slot. is_suppressed (A.answered answers.now) slot.row slot.leaders ≡ false) slots.now }
{
    for slot in slots {
        if suppressed(slot.row, slot.leaders.as_slice(), answers) {
            return false;
        }
    }
    true
}

// Kept parts that are saved as these parts, over so many variables; or None where there are none.
fn kept_from(alloc: Global, count: usize, parts: Parts) -> Result<Option<Kept>, NoMemory>
    requires { count < 2 ^ 32 }
    ensures saved { IfOk result (λ found. IfSome found (HaveParts count parts)) }
    ensures any { IfOk result (λ found. (kept : Kept) → HaveParts count parts kept → (found ≢ None) × IfSome found (IsRearranged kept)) }
{
    let Parts {
        samples,
        classes,
        patterns,
        known,
        slots,
    } = parts;
    let leaders = match classes_from(alloc, count, classes.as_slice())? {
        Some(leaders) => leaders,
        None => return Ok(None),
    };
    let held = match presence_from(alloc, leaders.leaders(), patterns)? {
        Some(held) => held,
        None => return Ok(None),
    };
    let known = match constants_from(alloc, known)? {
        Some(known) => known,
        None => return Ok(None),
    };
    Ok(Some(Kept {
        samples,
        leaders,
        known,
        held,
        slots: Slots::of(slots.into_vec()),
    }))
}

// Whether parts meet the conditions, but that a rule may suppress a slot, as these bitmaps of their leaders tell.
fn is_open(grammar: Grammar, infos: &[VarInfo], kept: &Kept, maps: &[Vec<u64>]) -> bool
    requires shaped { AreShaped (length infos.now) kept.now }
    requires bitmaps { AreBitmaps kept.now.held (own_leaders kept.now.leaders) maps.now }
    ensures { IsTrue result ↔ AreOpen grammar infos.now kept.now }
{
    let bitmaps = Bitmaps::of(&kept.held, kept.leaders.leaders(), maps);
    are_open(grammar, infos, kept, &bitmaps)
}

impl Engine {
    // Whether no rule suppresses a slot in the parts as they stand.
    fn suppresses_none(&self, maps: &[Vec<u64>]) -> bool
        requires { AreBitmaps self.now.kept.held (own_leaders self.now.kept.leaders) maps.now }
        ensures { IsTrue result ↔ AreUnsuppressed self.now.kept }
    {
        let bitmaps = Bitmaps::of(&self.kept.held, self.kept.leaders.leaders(), maps);
        let lowest = self.over(
            Some(&bitmaps),
            0,
            Nothing {
                grammar: self.grammar,
                infos: self.infos.as_slice(),
                kept: &self.kept,
            },
        );
        let second = self.over(Some(&bitmaps), 1, lowest);
        let third = self.over(Some(&bitmaps), 2, second);
        let levels = self.over(Some(&bitmaps), 3, third);
        none_suppressed(self.kept.slots.as_slice(), &levels)
    }

    // The engine with these parts, or None where they don't meet the conditions.
    fn with_kept(
        alloc: Global,
        vars: List<VarInfo>,
        kept: Kept,
        grammar: Grammar,
    ) -> Result<Option<Engine>, NoMemory>
        requires point { AreOfPoint vars }
        requires shaped { AreShaped (length vars) kept }
        requires some { 1 ≤ kept.samples }
        ensures grammar { IfOk result (λ found. IfSome found (λ e. e.grammar ≡ grammar)) }
        ensures infos { IfOk result (λ found. IfSome found (λ e. e.infos ≡ vars)) }
        ensures kept { IfOk result (λ found. IfSome found (λ e. e.kept ≡ kept)) }
        ensures meets { IfOk result (λ found. IfSome found (λ e. AreParts grammar vars kept)) }
        ensures none { IfOk result (λ found. found ≡ None → AreParts grammar vars kept → ⊥) }
    {
        let maps = bitmaps(alloc, kept.leaders.leaders(), kept.held.held())?;
        if !is_open(grammar, vars.as_slice(), &kept, maps.as_slice()) {
            return Ok(None);
        }
        let engine = Engine {
            alloc,
            grammar,
            infos: vars,
            kept,
        };
        if engine.suppresses_none(maps.as_slice()) {
            Ok(Some(engine))
        } else {
            Ok(None)
        }
    }

    /// The engine with these parts, over the variables of a point and the rows of a grammar. It stands for every list of samples of
    /// which these parts are kept. Bad exactly where no kept parts of 1 to 2^40 samples that meet the conditions are saved as these.
    pub fn from_parts(
        alloc: Global,
        vars: List<VarInfo>,
        parts: Parts,
        grammar: Grammar,
    ) -> Result<Engine, PartsFault>
        requires { AreOfPoint vars }
        ensures grammar { IfOk result (λ e. e.grammar ≡ grammar) }
        ensures infos { IfOk result (λ e. e.infos ≡ vars) }
        ensures parts { IfOk result (λ e. parts_of e.kept ≡ parts) }
        ensures conditions { IfOk result (λ e. AreSavedParts grammar vars parts) }
        ensures bad { result ≡ Err PartsFault.Bad → AreSavedParts grammar vars parts → ⊥ }
        ensures stands { IfOk result (λ e. (samples : List (List Value)) (kept : Kept) → AreSamples vars samples → IsKeptOf grammar vars samples kept → parts_of kept ≡ parts → IsKeptOf grammar vars samples e.kept) }
    {
        if parts.samples == 0 || parts.samples > 1 << 40 {
            return Err(PartsFault::Bad);
        }
        match kept_from(alloc, vars.len(), parts)? {
            Some(kept) => match Engine::with_kept(alloc, vars, kept, grammar)? {
                Some(engine) => Ok(engine),
                None => Err(PartsFault::Bad),
            },
            None => Err(PartsFault::Bad),
        }
    }
}
