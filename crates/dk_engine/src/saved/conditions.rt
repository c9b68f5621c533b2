// Whether kept parts meet the conditions, but for suppression.
ghost use Rattle.std.specs.Prelude.{◌≡◌, ◌↔◌, ◌<◌, ◌^◌, All, Contains, IsTrue, length};
ghost use Rattle.std.specs.List.{AllPairs};
ghost use Rattle.dk_base.specs.Numbers.{fits_i64};
ghost use Rattle.dk_base.specs.Values.{IsOfKind};
ghost use Rattle.dk_base.specs.Values.Items.{is_text as is_string};
ghost use Rattle.dk_base.specs.Values.Spelling.{IsWritten};
ghost use Rattle.dk_classes.specs.Classes.{kind_at, var_kinds};
ghost use Rattle.dk_classes.specs.Leaders.{AreClasses, own_leaders};
ghost use Rattle.dk_engine.specs.Exact.{IsOverLeaders, Lead, SlotBefore};
ghost use Rattle.dk_engine.specs.Saved.Restored.{AreOpen, AreShaped, HaveKinds, IsConstant, IsOpenSlot, IsStateOf};
ghost use Rattle.dk_presence.specs.Patterns.{counted_by, has};
ghost use Rattle.dk_samples.specs.Leaders.{VarsAscend};
ghost use Rattle.dk_samples.specs.Samples.{is_present};
ghost use Rattle.dk_template.specs.Templates.{IsRow, form_of};

use crate::over::constant::are_known;
use crate::saved::bitmaps::{Bitmaps, are_same_words, bit};
use crate::slots::places::is_before;
use crate::{Kept, Slot};
use dk_base::{Kind, Text, Value, VarId, VarInfo, is_text};
use dk_classes::Classes;
use dk_presence::{Held, contains};
use dk_template::{Grammar, RowId, State, admits, info, is_written as stands_written, proper};

// The kind of a variable.
fn kind_of(infos: &[VarInfo], v: VarId) -> Kind
    requires { v.0 < length infos.now }
    ensures { result ≡ kind_at (var_kinds infos.now) v.0 }
{
    infos[v.0 as usize].kind
}

fn is_same(kind: Kind, other: Kind) -> bool
    ensures { IsTrue result ↔ (kind ≡ other) }
{
    kind == other
}

// Whether each variable is of its leader's kind.
fn have_kinds(infos: &[VarInfo], classes: &Classes) -> bool
    requires lawful { AreClasses classes.now }
    requires long { length classes.now ≡ length infos.now }
    ensures { IsTrue result ↔ HaveKinds infos.now classes.now }
{
    for v in 0..infos.len() {
        let member = VarId(v as u32);
        if !is_same(
            kind_of(infos, classes.leader(member)),
            kind_of(infos, member),
        ) {
            return false;
        }
    }
    true
}

// Whether the variable is there and leads. There are so many variables.
fn leads(classes: &Classes, count: usize, v: VarId) -> bool
    requires { length classes.now ≡ count }
    ensures { IsTrue result ↔ Contains (own_leaders classes.now) v }
{
    (v.0 as usize) < count && classes.leader(v).0 == v.0
}

// Whether each of the variables is there and leads.
fn all_lead(classes: &Classes, count: usize, vars: &[VarId]) -> bool
    requires { length classes.now ≡ count }
    ensures { IsTrue result ↔ Lead classes.now vars.now }
{
    for v in vars {
        if !leads(classes, count, *v) {
            return false;
        }
    }
    true
}

// Whether the value is missing or of the kind.
fn is_of_kind(kind: Kind, value: &Value) -> bool
    ensures { IsTrue result ↔ IsOfKind kind value.now }
{
    match value {
        Value::Missing => true,
        Value::Bool(_) => matches!(kind, Kind::Bool),
        Value::Int(_) => matches!(kind, Kind::Int),
        Value::Hash(_) => matches!(kind, Kind::Hash),
        Value::Str(_) => matches!(kind, Kind::Str),
        Value::BoolSeq(_) => matches!(kind, Kind::BoolSeq),
        Value::IntSeq(_) => matches!(kind, Kind::IntSeq),
        Value::HashSeq(_) => matches!(kind, Kind::HashSeq),
        Value::StrSeq(_) => matches!(kind, Kind::StrSeq),
    }
}

// Whether each text is one that a string is written by.
fn are_strings(texts: &[Text]) -> bool
    ensures { IsTrue result ↔ All (λ t. IsTrue (is_string t)) texts.now }
{
    for text in texts {
        if !is_text(text.as_slice()) {
            return false;
        }
    }
    true
}

// Each number is one of 64 bits. A proof knows that of a number that is read.
fn read_numbers(numbers: &[i64])
    ensures { All (λ z. IsTrue (fits_i64 z)) numbers.now }
{
    for number in numbers {
        let _number = *number;
    }
}

// The same of hash codes.
fn read_codes(codes: &[u64])
    ensures { All (λ n. n < 2 ^ 64) codes.now }
{
    for code in codes {
        let _code = *code;
    }
}

// Whether some text writes the value. Each number of 64 bits is written by some text.
fn is_written(value: &Value) -> bool
    ensures { IsTrue result ↔ IsWritten value.now }
{
    match value {
        Value::Str(text) => is_text(text.as_slice()),
        Value::StrSeq(texts) => are_strings(texts.as_slice()),
        Value::Int(number) => {
            let _number = *number;
            true
        }
        Value::IntSeq(numbers) => {
            read_numbers(numbers.as_slice());
            true
        }
        Value::Hash(code) => {
            let _code = *code;
            true
        }
        Value::HashSeq(codes) => {
            read_codes(codes.as_slice());
            true
        }
        Value::Missing | Value::Bool(_) | Value::BoolSeq(_) => true,
    }
}

// Whether the variable is in all patterns, or in none, as they tell one after another.
fn is_in_each(held: &[Held], v: VarId, present: bool) -> bool
    requires { All (λ h. VarsAscend h.leaders) held.now }
    ensures { IsTrue result ↔ All (λ h. has h.leaders v ≡ present) held.now }
{
    for pattern in held {
        if contains(pattern.leaders.as_slice(), v) != present {
            return false;
        }
    }
    true
}

// Whether the leader is present in all patterns, or absent from all.
fn is_throughout(bitmaps: &Bitmaps<'_>, held: &[Held], leader: VarId, present: bool) -> bool
    requires ascend { All (λ h. VarsAscend h.leaders) held.now }
    requires bitmaps { bitmaps.now ≡ held.now }
    ensures { IsTrue result ↔ All (λ h. has h.leaders leader ≡ present) held.now }
{
    match bitmaps.map(leader) {
        Some(words) => are_same_words(held, words, present),
        None => is_in_each(held, leader, present),
    }
}

// Whether the value isn't the missing one.
fn is_there(value: &Value) -> bool
    ensures { result ≡ is_present value.now }
{
    !matches!(value, Value::Missing)
}

// Whether a constant leads, has a value of its kind that some text writes, and is present in all patterns, or in none if it's missing.
fn is_constant(
    infos: &[VarInfo],
    kept: &Kept,
    bitmaps: &Bitmaps<'_>,
    entry: &(VarId, Value),
) -> bool
    requires shaped { AreShaped (length infos.now) kept.now }
    requires bitmaps { bitmaps.now ≡ kept.now.held }
    ensures { IsTrue result ↔ IsConstant infos.now kept.now entry.now }
{
    let (leader, value) = entry;
    leads(&kept.leaders, infos.len(), *leader)
        && is_of_kind(kind_of(infos, *leader), value)
        && is_written(value)
        && is_throughout(bitmaps, kept.held.held(), *leader, is_there(value))
}

// The same of all constants.
fn are_constants(infos: &[VarInfo], kept: &Kept, bitmaps: &Bitmaps<'_>) -> bool
    requires shaped { AreShaped (length infos.now) kept.now }
    requires bitmaps { bitmaps.now ≡ kept.now.held }
    ensures { IsTrue result ↔ All (IsConstant infos.now kept.now) kept.now.known }
{
    for entry in kept.known.entries() {
        if !is_constant(infos, kept, bitmaps, entry) {
            return false;
        }
    }
    true
}

// Whether each slot comes before the later ones.
fn are_in_order(slots: &[Slot]) -> bool
    ensures { IsTrue result ↔ AllPairs SlotBefore slots.now }
{
    for i in 1..slots.len() {
        let slot = &slots[i];
        if !is_before(&slots[i - 1], slot.row, slot.leaders.as_slice()) {
            return false;
        }
    }
    true
}

// Whether the row is one of the grammar over leaders that it admits.
fn is_over(
    grammar: Grammar,
    infos: &[VarInfo],
    classes: &Classes,
    row: RowId,
    vars: &[VarId],
) -> bool
    requires { length classes.now ≡ length infos.now }
    ensures { IsTrue result ↔ IsOverLeaders grammar infos.now classes.now row vars.now }
{
    if !grammar.has(row) {
        return false;
    }
    admits(row, infos, vars) && all_lead(classes, infos.len(), vars)
}

// Whether the row can have the state over leaders that are together in so many samples.
fn is_state_of(row: RowId, count: u64, state: &State) -> bool
    requires { IsRow row }
    ensures { IsTrue result ↔ IsStateOf (form_of row) count state.now }
{
    match state {
        State::Broken => false,
        State::Empty => count == 0 || !info(row).plain,
        _ => count != 0 && proper(row, state),
    }
}

// Whether the slot's row can have its state over leaders that are together in so many samples.
fn has_state(kept: &Kept, bitmaps: &Bitmaps<'_>, slot: &Slot) -> bool
    requires row { IsRow slot.now.row }
    requires bitmaps { bitmaps.now ≡ kept.now.held }
    ensures { IsTrue result ↔ IsStateOf (form_of slot.now.row) (counted_by kept.now.held slot.now.leaders) slot.now.state }
{
    let together = bitmaps.are_together(slot.leaders.as_slice());
    is_state_of(slot.row, bit(together), &slot.state)
}

// Whether it is a slot, but that a rule may suppress it.
fn is_open_slot(
    grammar: Grammar,
    infos: &[VarInfo],
    kept: &Kept,
    bitmaps: &Bitmaps<'_>,
    slot: &Slot,
) -> bool
    requires shaped { AreShaped (length infos.now) kept.now }
    requires bitmaps { bitmaps.now ≡ kept.now.held }
    ensures { IsTrue result ↔ IsOpenSlot grammar infos.now kept.now slot.now }
{
    let leaders = slot.leaders.as_slice();
    is_over(grammar, infos, &kept.leaders, slot.row, leaders)
        && stands_written(slot.row, leaders)
        && !are_known(&kept.known, leaders)
        && has_state(kept, bitmaps, slot)
}

// The same of all slots.
fn are_open_slots(grammar: Grammar, infos: &[VarInfo], kept: &Kept, bitmaps: &Bitmaps<'_>) -> bool
    requires shaped { AreShaped (length infos.now) kept.now }
    requires bitmaps { bitmaps.now ≡ kept.now.held }
    ensures { IsTrue result ↔ All (IsOpenSlot grammar infos.now kept.now) kept.now.slots }
{
    for slot in kept.slots.as_slice() {
        if !is_open_slot(grammar, infos, kept, bitmaps, slot) {
            return false;
        }
    }
    true
}

/// Whether parts meet the conditions, but that a rule may suppress a slot, as the bitmaps of their patterns tell.
pub(crate) fn are_open(
    grammar: Grammar,
    infos: &[VarInfo],
    kept: &Kept,
    bitmaps: &Bitmaps<'_>,
) -> bool
    requires shaped { AreShaped (length infos.now) kept.now }
    requires bitmaps { bitmaps.now ≡ kept.now.held }
    ensures { IsTrue result ↔ AreOpen grammar infos.now kept.now }
{
    have_kinds(infos, &kept.leaders)
        && kept.held.count(&[]) == kept.samples
        && are_constants(infos, kept, bitmaps)
        && are_in_order(kept.slots.as_slice())
        && are_open_slots(grammar, infos, kept, bitmaps)
}
