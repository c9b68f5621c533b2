// The steps by which classes are made and split.
ghost use Rattle.std.specs.Prelude.{◌≡◌, ◌≢◌, ◌↔◌, ◌<◌, ◌^◌, [], ℕ, true, IfOk, IsTrue, OnOk, length};
ghost use Rattle.dk_base.specs.Values.{value_of, values_of};
ghost use Rattle.dk_samples.specs.Samples.{value_in};
ghost use Rattle.dk_classes.specs.Classes.{AreLeaders, AreNew, InClass, IsFirst, IsLike, IsSplit, NewBelow, new_with, var_kinds};
ghost use Rattle.dk_classes.specs.Keys.{FindsLike, HaveKeys, has_key, key_of};
ghost use Rattle.dk_classes.specs.Leaders.{AreClasses, leader_at, own_leaders, var};

use dk_base::{Kind, List, NoMemory, VarId, VarInfo, View, same, spell};
use dk_samples::value_at;
use indexmap::IndexSet;
use std::alloc::Global;

fn is_same_kind(a: Kind, b: Kind) -> bool
    ensures { IsTrue result ↔ (a ≡ b) }
{
    a == b
}

// The first variable of the kind that the one at v has.
fn first_of_kind(vars: &[VarInfo], v: u32) -> VarId
    requires { v < length vars.now }
    ensures { IsFirst (InClass (var_kinds vars.now) [] v) result.0 }
{
    for w in 0..v {
        if is_same_kind(vars[w as usize].kind, vars[v as usize].kind) {
            return VarId(w);
        }
    }
    VarId(v)
}

/// The first variable of its kind for each.
pub(crate) fn first_leaders(alloc: Global, vars: &[VarInfo]) -> Result<Vec<VarId>, NoMemory>
    requires { length vars.now < 2 ^ 32 }
    ensures { IfOk result (λ leaders. AreLeaders (var_kinds vars.now) [] leaders.items) }
{
    let count = vars.len() as u32;
    let mut leaders = Vec::new(alloc);
    for v in 0..count {
        leaders.push(first_of_kind(vars, v))?;
    }
    Ok(leaders)
}

/// The variables that are their own leaders.
pub(crate) fn leading(alloc: Global, leaders: &[VarId]) -> Result<Vec<VarId>, NoMemory>
    requires { length leaders.now < 2 ^ 32 }
    ensures { IfOk result (λ own. own.items ≡ own_leaders leaders.now) }
{
    let mut own = Vec::new(alloc);
    for (place, leader) in leaders.iter().enumerate() {
        if leader.0 as usize == place {
            own.push(*leader)?;
        }
    }
    Ok(own)
}

// Whether the values of two variables in the sample are one. It stands apart from `agree_in`, since most variables lead their classes.
#[inline(never)]
fn have_one_value(sample: &[View<'_>], v: VarId, w: VarId) -> bool
    ensures { IsTrue result ↔ (value_in (values_of sample.now) v ≡ value_in (values_of sample.now) w) }
{
    same(value_at(sample, v), value_at(sample, w))
}

// Whether the two variables have one value in the sample.
#[inline(always)]
fn agree_in(sample: &[View<'_>], v: VarId, w: VarId) -> bool
    ensures { IsTrue result ↔ (value_in (values_of sample.now) v ≡ value_in (values_of sample.now) w) }
{
    v.0 == w.0 || have_one_value(sample, v, w)
}

/// Whether each variable has the value of its leader.
pub(crate) fn are_one(leaders: &[VarId], sample: &[View<'_>]) -> bool
    requires { length leaders.now < 2 ^ 32 }
    ensures { IsTrue result ↔ ((v : ℕ) → v < length leaders.now → value_in (values_of sample.now) (var (leader_at leaders.now v)) ≡ value_in (values_of sample.now) (var v)) }
{
    let count = leaders.len() as u32;
    for v in 0..count {
        if !agree_in(sample, leaders[v as usize], VarId(v)) {
            return false;
        }
    }
    true
}

// Whether a new leader comes out of an old class and has the value in the sample.
fn is_like(new: (VarId, VarId), sample: &[View<'_>], old: VarId, value: View<'_>) -> bool
    ensures { IsTrue result ↔ ((new.1 ≡ old) × (value_in (values_of sample.now) new.0 ≡ value_of value.entry)) }
{
    let (leader, was) = new;
    was == old && same(value_at(sample, leader), value)
}

// The new leader out of an old class that has the value in the sample, by a walk over all of them.
fn walk_to_like(
    new: &[(VarId, VarId)],
    sample: &[View<'_>],
    old: VarId,
    value: View<'_>,
) -> Option<VarId>
    ensures { FindsLike new.now (values_of sample.now) old (value_of value.entry) result }
{
    for pair in new {
        if is_like(*pair, sample, old, value) {
            return Some(pair.0);
        }
    }
    None
}

// The new leader out of an old class that has the value in the sample: the one at this place, or else one found by a walk.
fn find_near(
    new: &[(VarId, VarId)],
    sample: &[View<'_>],
    old: VarId,
    value: View<'_>,
    place: usize,
) -> Option<VarId>
    ensures { FindsLike new.now (values_of sample.now) old (value_of value.entry) result }
{
    if place < new.len() && is_like(new[place], sample, old, value) {
        return Some(new[place].0);
    }
    walk_to_like(new, sample, old, value)
}

// The key of a value out of an old class.
fn key_of(alloc: Global, old: VarId, value: View<'_>) -> Result<Vec<u8>, NoMemory>
    ensures { IfOk result (λ key. key.items ≡ key_of old (value_of value.entry)) }
{
    let mut key = spell(alloc, value)?;
    key.append(&old.0.to_le_bytes())?;
    Ok(key.into_vec())
}

// The new leader out of an old class that has the value in the sample. Its key is among the keys from then on. They stand in
// the order of the new leaders, so the place of a key is mostly the place of its leader.
fn find_like(
    alloc: Global,
    new: &[(VarId, VarId)],
    keys: &mut IndexSet<Vec<u8>>,
    sample: &[View<'_>],
    old: VarId,
    value: View<'_>,
) -> Result<Option<VarId>, NoMemory>
    requires { HaveKeys (values_of sample.now) new.now keys.old.keys }
    ensures found { IfOk result (FindsLike new.now (values_of sample.now) old (value_of value.entry)) }
    ensures kept { OnOk result (HaveKeys (values_of sample.now) new.now keys.new.keys) }
    ensures added { OnOk result (has_key keys.new.keys (key_of old (value_of value.entry)) ≡ true) }
{
    let key = key_of(alloc, old, value)?;
    let (place, is_added) = keys.insert_full(key)?;
    if is_added {
        return Ok(None);
    }
    Ok(find_near(new, sample, old, value, place))
}

// The first variable like this one, where the new leaders below it are known with their keys.
fn first_like(
    alloc: Global,
    leaders: &[VarId],
    new: &[(VarId, VarId)],
    keys: &mut IndexSet<Vec<u8>>,
    sample: &[View<'_>],
    v: u32,
) -> Result<VarId, NoMemory>
    requires classes { AreClasses leaders.now }
    requires within { v < length leaders.now }
    requires new { NewBelow leaders.now (values_of sample.now) v new.now }
    requires keys { HaveKeys (values_of sample.now) new.now keys.old.keys }
    ensures first { IfOk result (λ first. IsFirst (IsLike leaders.now (values_of sample.now) v) first.0) }
    ensures keys { IfOk result (λ first. HaveKeys (values_of sample.now) (new_with new.now v first (var (leader_at leaders.now v))) keys.new.keys) }
{
    let old = leaders[v as usize];
    let value = value_at(sample, VarId(v));
    if same(value_at(sample, old), value) {
        return Ok(old);
    }
    match find_like(alloc, new, keys, sample, old, value)? {
        Some(leader) => Ok(leader),
        None => Ok(VarId(v)),
    }
}

// With the variable, if it leads a new class.
fn with_leader(
    new: List<(VarId, VarId)>,
    v: u32,
    first: VarId,
    old: VarId,
) -> Result<List<(VarId, VarId)>, NoMemory>
    ensures { IfOk result (λ more. more ≡ new_with new v first old) }
{
    let mut more = new;
    if first.0 == v && old.0 != v {
        more.push((first, old))?;
    }
    Ok(more)
}

/// The leaders after a sample, and the new ones with their old ones.
pub(crate) fn split_leaders(
    alloc: Global,
    leaders: &[VarId],
    sample: &[View<'_>],
) -> Result<(Vec<VarId>, List<(VarId, VarId)>), NoMemory>
    requires { AreClasses leaders.now }
    ensures split { IfOk result (λ r. IsSplit leaders.now (values_of sample.now) r.0.items) }
    ensures new { IfOk result (λ r. AreNew leaders.now r.0.items r.1) }
{
    let count = leaders.len() as u32;
    let mut split = Vec::new(alloc);
    let mut new = List::new(alloc);
    let mut keys = IndexSet::new(alloc);
    for v in 0..count {
        let first = first_like(alloc, leaders, new.as_slice(), &mut keys, sample, v)?;
        split.push(first)?;
        new = with_leader(new, v, first, leaders[v as usize])?;
    }
    Ok((split, new))
}
