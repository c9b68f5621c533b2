// Patterns with a truth value for each leader.
ghost use Rattle.std.specs.Prelude.{◌≡◌, IfOk, List, map};
ghost use Rattle.dk_samples.specs.Leaders.{VarsAscend};
ghost use Rattle.dk_presence.specs.Patterns.{AreHeld, has};
ghost use Rattle.dk_snapshot.specs.Patterns.{from_var, is_first, pattern_cmp, pattern_of, patterns_of, seen};
ghost use Rattle.dk_snapshot.specs.Sorting.{ascending};

use dk_base::{List, NoMemory, VarId};
use dk_presence::Held;
use std::alloc::Global;

/// A pattern of present leaders: in how many samples, and for each leader, in order, whether it is present.
#[derive(Debug, Drop)]
pub struct Pattern {
    pub count: u64,
    pub present: List<bool>,
}

// The variables from the first one on that isn't before v.
fn from_var(vars: &[VarId], v: VarId) -> &[VarId]
    ensures { result.now ≡ from_var v vars.now }
{
    let mut left = vars;
    'lesser: while let [first, rest @ ..] = left {
        if first.0 >= v.0 {
            return left;
        }
        left = rest;
    }
    left
}

// Whether v is the first of the variables.
fn is_first(vars: &[VarId], v: VarId) -> bool
    ensures { result ≡ is_first v vars.now }
{
    match vars {
        [] => false,
        [first, ..] => first.0 == v.0,
    }
}

// For each leader whether it is one of the present ones.
fn presence_of(alloc: Global, leaders: &[VarId], present: &[VarId]) -> Result<Vec<bool>, NoMemory>
    requires leaders { VarsAscend leaders.now }
    requires present { VarsAscend present.now }
    ensures { IfOk result (λ truths. truths.items ≡ map (has present.now) leaders.now) }
{
    let mut truths = Vec::with_capacity(alloc, leaders.len())?;
    let mut left = present;
    for leader in leaders {
        left = from_var(left, *leader);
        truths.push(is_first(left, *leader))?;
    }
    Ok(truths)
}

/// The pattern over these leaders, which ascend.
pub fn pattern_of(alloc: Global, leaders: &[VarId], pattern: &Held) -> Result<Pattern, NoMemory>
    requires leaders { VarsAscend leaders.now }
    requires held { VarsAscend pattern.now.leaders }
    ensures { IfOk result (λ own. own ≡ pattern_of leaders.now pattern.now) }
{
    let present = presence_of(alloc, leaders, pattern.leaders.as_slice())?;
    Ok(Pattern {
        count: pattern.count,
        present: List::from_vec(present),
    })
}

// For each pattern whether each leader is present, and its count.
fn with_truths(
    alloc: Global,
    leaders: &[VarId],
    held: &[Held],
) -> Result<Vec<(Vec<bool>, u64)>, NoMemory>
    requires leaders { VarsAscend leaders.now }
    requires held { AreHeld held.now }
    ensures { IfOk result (λ all. map seen all.items ≡ map (pattern_of leaders.now) held.now) }
{
    let mut all = Vec::with_capacity(alloc, held.len())?;
    for pattern in held {
        let present = presence_of(alloc, leaders, pattern.leaders.as_slice())?;
        all.push((present, pattern.count))?;
    }
    Ok(all)
}

// The same patterns, ascending.
fn sort_patterns(all: Vec<(Vec<bool>, u64)>) -> Result<Vec<(Vec<bool>, u64)>, NoMemory>
    ensures { IfOk result (λ sorted. map seen sorted.items ≡ ascending pattern_cmp (map seen all.items)) }
{
    let mut all = all;
    all.sort()?;
    Ok(all)
}

// The patterns, which keep the memory of their truth values.
fn as_patterns(alloc: Global, all: Vec<(Vec<bool>, u64)>) -> Result<List<Pattern>, NoMemory>
    ensures { IfOk result (λ patterns. patterns ≡ map seen all.items) }
{
    let mut patterns = List::from_vec(Vec::with_capacity(alloc, all.len())?);
    for (present, count) in all {
        patterns.push(Pattern {
            count,
            present: List::from_vec(present),
        })?;
    }
    Ok(patterns)
}

/// The patterns over these leaders, which ascend. The patterns ascend by the leaders in order, an absent one first.
pub fn patterns_in_order(
    alloc: Global,
    leaders: &[VarId],
    held: &[Held],
) -> Result<List<Pattern>, NoMemory>
    requires leaders { VarsAscend leaders.now }
    requires held { AreHeld held.now }
    ensures { IfOk result (λ patterns. patterns ≡ patterns_of leaders.now held.now) }
{
    as_patterns(alloc, sort_patterns(with_truths(alloc, leaders, held)?)?)
}
