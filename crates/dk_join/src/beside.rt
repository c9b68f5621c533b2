// Which leaders may stand beside another in a slot of three, by what two engines keep.
ghost use Rattle.std.specs.Prelude.{◌≡◌, ◌<◌, ◌==◌, ◌&&◌, ◌||◌, ◌∷◌, [], All, IfOk, filter, is_some, length, map};
ghost use Rattle.std.specs.List.{list_any};
ghost use Rattle.dk_base.specs.declared.kinds.VarId.{VarId};
ghost use Rattle.dk_constants.specs.Known.{known_at};
ghost use Rattle.dk_join.specs.Beside.{AreAround, AreAtHand, LeavesNoneOut, has_room, is_alone, is_at_hand, is_beside, is_near, may_meet, may_stand};
ghost use Rattle.dk_join.specs.Numbers.{number_of};
ghost use Rattle.dk_presence.specs.Patterns.{has};
ghost use Rattle.dk_template.specs.Admitted.{is_written};
ghost use Rattle.dk_template.specs.Templates.{IsRow};

use crate::numbers::{Numbered, Numbers, are_broken};
use crate::watching::watched;
use dk_base::{NoMemory, VarId};
use dk_engine::{Engine, Slot};
use dk_template::{Premise, RowId, Symmetry, asked_row, suffices_for, template_at};
use dk_ternary::Operation;
use std::alloc::Global;

// ---- slots at hand

// Whether the slot may meet the premise.
#[tactic(auto, unfolding(crate::specs::Beside::may_meet))]
fn may_meet(premise: &Premise, slot: &Slot) -> bool
    ensures { result ≡ may_meet premise.now slot.now }
{
    asked_row(premise).0 == slot.row.0
        && (matches!(premise, Premise::Holds { .. }) || suffices_for(premise, &slot.state))
}

// Whether the slot may meet one of the premises.
fn may_meet_one(premises: &[Premise], slot: &Slot) -> bool
    ensures { result ≡ list_any (λ p. may_meet p slot.now) premises.now }
{
    premises.iter().any(|premise| may_meet(premise, slot))
}

// Whether the slot is of the row, or may meet one of the premises.
fn is_at_hand(row: RowId, premises: &[Premise], slot: &Slot) -> bool
    ensures { result ≡ is_at_hand row premises.now slot.now }
{
    slot.row.0 == row.0 || may_meet_one(premises, slot)
}

// The slots of three leaders that a search may meet.
fn slots_at_hand<'s>(
    alloc: Global,
    slots: &'s [Slot],
    row: RowId,
    premises: &[Premise],
) -> Result<Vec<&'s Slot>, NoMemory>
    ensures { IfOk result (λ list. map (λ slot. slot.now) list.items ≡ filter (is_at_hand row premises.now) slots.now) }
{
    let mut list = Vec::new(alloc);
    for slot in slots {
        if is_at_hand(row, premises, slot) {
            list.push(slot)?;
        }
    }
    Ok(list)
}

/// The slots of two engines that may tell of a row of three leaders.
#[derive(Drop)]
pub(crate) struct Hands<'a> {
    pub(crate) first: Vec<&'a Slot>,
    pub(crate) second: Vec<&'a Slot>,
}

impl<'a> Hands<'a> {
    /// Those for a row.
    pub(crate) fn of(
        alloc: Global,
        first: &'a Engine,
        second: &'a Engine,
        row: RowId,
    ) -> Result<Hands<'a>, NoMemory>
        ensures { IfOk result (AreAtHand (record { first = first.now; second = second.now }) row) }
    {
        let premises = watched(alloc, row)?;
        Ok(Hands {
            first: slots_at_hand(alloc, first.slots(), row, premises.as_slice())?,
            second: slots_at_hand(alloc, second.slots(), row, premises.as_slice())?,
        })
    }
}

// ---- slots around a leader

// Whether the variable is one of them.
fn has(vars: &[VarId], v: VarId) -> bool
    ensures { result ≡ has vars.now v }
{
    vars.iter().any(|w| w.0 == v.0)
}

// Those of the slots that are over a leader.
fn slots_with<'s>(
    alloc: Global,
    slots: &[&'s Slot],
    leader: VarId,
) -> Result<Vec<&'s Slot>, NoMemory>
    ensures { IfOk result (λ list. list.items ≡ filter (λ slot. has slot.now.leaders leader) slots.now) }
{
    let mut list = Vec::new(alloc);
    for slot in slots {
        if has(slot.leaders.as_slice(), leader) {
            list.push(*slot)?;
        }
    }
    Ok(list)
}

// Whether the slot is over one leader alone.
fn is_alone(slot: &Slot) -> bool
    ensures { result ≡ is_alone slot.now }
{
    slot.leaders.as_slice().len() == 1
}

// Whether one of the slots is.
fn one_is_alone(slots: &[&Slot]) -> bool
    ensures { result ≡ list_any (λ slot. is_alone slot.now) slots.now }
{
    slots.iter().any(|slot| is_alone(slot))
}

// Whether a leader is constant, or one of the slots is over it alone.
fn is_free(engine: &Engine, slots: &[&Slot], leader: VarId) -> bool
    ensures { result ≡ (is_some (known_at engine.now.kept.known leader) || list_any (λ slot. is_alone slot.now) slots.now) }
{
    engine.constants().value(leader).is_some() || one_is_alone(slots)
}

/// What an engine keeps around a leader that may tell of a row of three: whether the leader alone tells enough, and the slots at hand
/// that are over it.
#[derive(Drop)]
pub(crate) struct Around<'a> {
    engine: &'a Engine,
    free: bool,
    slots: Vec<&'a Slot>,
}

// How many slots at hand there are for each pair of leaders where they are many.
const SLOTS_OF_PAIR: usize = 4;

// Whether the slots are so many that nearly all leaders stand beside each other in some of them.
fn are_many(slots: &[&Slot], engine: &Engine) -> bool {
    let leaders = engine.classes().leaders().len();
    slots.len() / SLOTS_OF_PAIR > leaders.saturating_mul(leaders)
}

impl<'a> Around<'a> {
    // By the slots at hand that are over a variable's leader.
    fn by_slots(
        alloc: Global,
        engine: &'a Engine,
        hand: &[&'a Slot],
        v: VarId,
    ) -> Result<Around<'a>, NoMemory>
        requires { v.0 < length engine.now.kept.leaders }
        ensures { IfOk result (AreAround engine.now hand.now v) }
    {
        let leader = engine.classes().leader(v);
        let slots = slots_with(alloc, hand, leader)?;
        let free = is_free(engine, slots.as_slice(), leader);
        Ok(Around {
            engine,
            free,
            slots,
        })
    }

    /// What an engine keeps around a variable's leader, by its slots at hand. Where these are many all leaders may stand beside it,
    /// which costs less than to look for those that may not.
    pub(crate) fn of(
        alloc: Global,
        engine: &'a Engine,
        hand: &[&'a Slot],
        v: VarId,
    ) -> Result<Around<'a>, NoMemory>
        requires { v.0 < length engine.now.kept.leaders }
        ensures engine { IfOk result (λ around. around.engine.now ≡ engine.now) }
        ensures all { IfOk result (LeavesNoneOut engine.now.kept hand.now v) }
    {
        if are_many(hand, engine) {
            return Ok(Around {
                engine,
                free: true,
                slots: Vec::new(alloc),
            });
        }
        Around::by_slots(alloc, engine, hand, v)
    }

    // Whether one of the slots is over a leader.
    fn stands_in(&self, leader: VarId) -> bool
        ensures { result ≡ list_any (λ slot. has slot.now.leaders leader) self.now.slots.items }
    {
        self.slots
            .iter()
            .any(|slot| has(slot.leaders.as_slice(), leader))
    }

    // Whether a variable's leader may stand beside the leader.
    fn admits(&self, v: VarId) -> bool
        requires { v.0 < length self.now.engine.now.kept.leaders }
        ensures { result ≡ is_beside self.now v }
    {
        self.free || self.stands_in(self.engine.classes().leader(v))
    }
}

// ---- leaders beside it

/// A leader with its numbers, and whether it may stand beside another by what each of two engines keeps.
#[derive(Clone, Copy)]
pub(crate) struct Companion {
    pub(crate) leader: VarId,
    pub(crate) numbers: Numbers,
    pub(crate) by_first: bool,
    pub(crate) by_second: bool,
}

impl Companion {
    /// The leader with its numbers.
    pub(crate) fn numbered(self) -> Numbered
        ensures { result ≡ record { var = self.leader; numbers = self.numbers } }
    {
        Numbered {
            var: self.leader,
            numbers: self.numbers,
        }
    }
}

/// The leaders, each with its numbers, and whether it may stand beside the leader that both are around.
pub(crate) fn companions(
    alloc: Global,
    first: &Around<'_>,
    second: &Around<'_>,
    leaders: &[VarId],
) -> Result<Vec<Companion>, NoMemory>
    requires first { All (λ (v : VarId). v.0 < length first.now.engine.now.kept.leaders) leaders.now }
    requires second { All (λ (v : VarId). v.0 < length second.now.engine.now.kept.leaders) leaders.now }
    ensures { IfOk result (λ list. list.items ≡ map (λ v. record { leader = v; numbers = record { first = number_of first.now.engine.now.kept v; second = number_of second.now.engine.now.kept v }; by_first = is_beside first.now v; by_second = is_beside second.now v }) leaders.now) }
{
    let mut list = Vec::new(alloc);
    for v in leaders {
        list.push(Companion {
            leader: *v,
            numbers: Numbers::of(first.engine, second.engine, *v),
            by_first: first.admits(*v),
            by_second: second.admits(*v),
        })?;
    }
    Ok(list)
}

// Whether the leader may stand beside the other by what one of the engines keeps.
fn is_near(w: Companion) -> bool
    ensures { result ≡ is_near w }
{
    w.by_first || w.by_second
}

/// Those of the companions that are.
pub(crate) fn near(alloc: Global, beside: &[Companion]) -> Result<Vec<Companion>, NoMemory>
    ensures { IfOk result (λ list. list.items ≡ filter is_near beside.now) }
{
    let mut list = Vec::new(alloc);
    for w in beside {
        if is_near(*w) {
            list.push(*w)?;
        }
    }
    Ok(list)
}

/// Whether the leader may stand beside the other by what each engine keeps, whichever leader is the third.
pub(crate) fn is_beside_both(w: Companion) -> bool
    ensures { result ≡ (w.by_first && w.by_second) }
{
    w.by_first && w.by_second
}

// Whether by what each engine keeps one of two leaders may stand beside a third.
fn may_stand(w: Companion, x: Companion) -> bool
    ensures { result ≡ may_stand w x }
{
    (w.by_first || x.by_first) && (w.by_second || x.by_second)
}

// Whether three leaders are in the row's written order: at the roles that may be exchanged they don't descend.
fn are_written(row: RowId, v: VarId, w: VarId, x: VarId) -> bool
    requires { IsRow row }
    ensures { result ≡ is_written row (v ∷ w ∷ x ∷ []) }
{
    match template_at(row).symmetry {
        Symmetry::Fixed => true,
        Symmetry::All => v.0 <= w.0 && w.0 <= x.0,
        Symmetry::Arguments => w.0 <= x.0,
    }
}

/// Whether the row may have a slot over three leaders, by what each engine keeps around the first, by their order, and by their numbers,
/// where the row says the results of an operation.
pub(crate) fn has_room(
    row: RowId,
    operation: Option<Operation>,
    v: Numbered,
    w: Companion,
    x: Companion,
) -> bool
    requires { IsRow row }
    ensures { result ≡ has_room row operation v w x }
{
    may_stand(w, x)
        && (are_written(row, v.var, w.leader, x.leader)
            && !are_broken(operation, v.numbers, w.numbers, x.numbers))
}
