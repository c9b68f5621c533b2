// The steps by which patterns are read and refined.
ghost use Rattle.std.specs.Prelude.{◌≡◌, ◌<◌, [], ◌∷◌, ◌++◌, false, All, IfOk, map, length, slice_index_or, slice_set};
ghost use Rattle.dk_samples.specs.Leaders.{VarsAscend};
ghost use Rattle.dk_presence.specs.Patterns.{counted_by, has, has_all};
ghost use Rattle.dk_presence.specs.Steps.{AreUnheld, Differ, counted_once_more, first_held, put, refined, with_new};
ghost use Rattle.dk_presence.specs.declared.held.Held.{Held};

use crate::Held;
use dk_base::{List, NoMemory, VarId};
use std::alloc::Global;

/// Whether the variable is one of these, which ascend.
pub fn contains(vars: &[VarId], v: VarId) -> bool
    requires { VarsAscend vars.now }
    ensures { result ≡ has vars.now v }
{
    vars.binary_search_by_key(&v.0, |w| w.0).is_ok()
}

/// Whether each of the variables is one of these.
pub(crate) fn contains_all(vars: &[VarId], all: &[VarId]) -> bool
    requires { VarsAscend vars.now }
    ensures { result ≡ has_all vars.now all.now }
{
    for v in all {
        if !contains(vars, *v) {
            return false;
        }
    }
    true
}

/// The sum of the counts of the patterns that have all of these leaders.
pub(crate) fn sum_of(held: &[Held], leaders: &[VarId]) -> u64
    requires { All (λ h. VarsAscend h.leaders) held.now }
    ensures { result ≡ counted_by held.now leaders.now }
{
    let mut sum: u64 = 0;
    for pattern in held {
        if contains_all(pattern.leaders.as_slice(), leaders) {
            sum = sum.saturating_add(pattern.count);
        }
    }
    sum
}

// The variable at its place among these.
fn with_var(vars: Vec<VarId>, v: VarId) -> Result<Vec<VarId>, NoMemory>
    requires ascend { VarsAscend vars.items }
    ensures { IfOk result (λ more. more.items ≡ put v vars.items) }
{
    let mut more = vars;
    let place = more.as_slice().partition_point(|w| w.0 <= v.0);
    more.insert(place, v)?;
    Ok(more)
}

// A pattern's leaders with each new one of which the old one is among them.
fn with_leaders(
    alloc: Global,
    leaders: &[VarId],
    new: &[(VarId, VarId)],
) -> Result<Vec<VarId>, NoMemory>
    requires ascend { VarsAscend leaders.now }
    requires differ { Differ new.now }
    requires unheld { All (λ n. has leaders.now n.0 ≡ false) new.now }
    ensures { IfOk result (λ more. more.items ≡ with_new new.now leaders.now leaders.now) }
{
    let mut more = Vec::from_slice(alloc, leaders)?;
    for (leader, old) in new {
        if contains(leaders, *old) {
            more = with_var(more, *leader)?;
        }
    }
    Ok(more)
}

// A pattern after classes were split.
fn refine_one(alloc: Global, pattern: &Held, new: &[(VarId, VarId)]) -> Result<Held, NoMemory>
    requires ascend { VarsAscend pattern.now.leaders }
    requires differ { Differ new.now }
    requires unheld { All (λ n. has pattern.now.leaders n.0 ≡ false) new.now }
    ensures { IfOk result (λ h. h ≡ refined new.now pattern.now) }
{
    let more = with_leaders(alloc, pattern.leaders.as_slice(), new)?;
    Ok(Held {
        count: pattern.count,
        leaders: List::from_slice(alloc, more.as_slice())?,
    })
}

/// All patterns after classes were split.
pub(crate) fn refine_all(
    alloc: Global,
    held: Vec<Held>,
    new: &[(VarId, VarId)],
) -> Result<Vec<Held>, NoMemory>
    requires ascend { All (λ h. VarsAscend h.leaders) held.items }
    requires differ { Differ new.now }
    requires unheld { AreUnheld new.now held.items }
    ensures { IfOk result (λ all. all.items ≡ map (refined new.now) held.items) }
{
    let mut all = Vec::new(alloc);
    for pattern in held.as_slice() {
        all.push(refine_one(alloc, pattern, new)?)?;
    }
    Ok(all)
}

/// One sample more at the pattern at this place.
pub(crate) fn count_once_more(held: &mut Vec<Held>, place: usize)
    requires { place < length held.old.items }
    ensures { (d : Held) → held.new.items ≡ slice_set held.old.items place (counted_once_more (slice_index_or held.old.items place d)) }
{
    let pattern = &mut held[place];
    pattern.count = pattern.count.saturating_add(1);
}

/// The patterns with one sample more at the one at this place.
pub(crate) fn with_one_more(held: Vec<Held>, place: usize) -> Vec<Held>
    requires { place < length held.items }
    ensures { (d : Held) → result.items ≡ slice_set held.items place (counted_once_more (slice_index_or held.items place d)) }
{
    let mut more = held;
    count_once_more(&mut more, place);
    more
}

/// The patterns with a new one, of one sample.
pub(crate) fn with_pattern(
    alloc: Global,
    held: Vec<Held>,
    present: &[VarId],
) -> Result<Vec<Held>, NoMemory>
    ensures { IfOk result (λ more. more.items ≡ held.items ++ first_held present.now ∷ []) }
{
    let mut more = held;
    more.push(Held {
        count: 1,
        leaders: List::from_slice(alloc, present)?,
    })?;
    Ok(more)
}
