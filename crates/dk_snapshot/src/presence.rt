// Patterns that are read back from a truth value for each leader.
ghost use Rattle.std.specs.Prelude.{◌≡◌, ◌↔◌, ◌<◌, ◌≢◌, All, IfOk, IfSome, IsTrue, List, None, count_by, false, length, map, slice_index_or};
ghost use Rattle.std.specs.List.Sorted.{IsPermutation};
ghost use Rattle.dk_presence.specs.Patterns.{AreHeld};
ghost use Rattle.dk_presence.specs.declared.held.Held.{Held};
ghost use Rattle.dk_snapshot.specs.Patterns.{pattern_of, patterns_of};
ghost use Rattle.dk_snapshot.specs.Restored.{AreInOrder, HavePatterns, Rise, chosen_leaders, held_of, is_before};
ghost use Rattle.dk_samples.specs.Leaders.{VarsAscend};

use crate::pattern::{Pattern, pattern_of};
use dk_base::{List, NoMemory, VarId};
use dk_presence::{Held, Presence};
use std::alloc::Global;

// Whether the truth value at the place is there and true.
fn is_true(truths: &[bool], place: usize) -> bool
    ensures { result ≡ slice_index_or truths.now place false }
{
    place < truths.len() && truths[place]
}

// How many of the truth values are true.
fn true_count(truths: &[bool]) -> usize
    ensures { result ≡ count_by (λ t. t) truths.now }
{
    let mut count = 0;
    for truth in truths {
        if *truth {
            count += 1;
        }
    }
    count
}

// The leaders at whose places the truth values are true. The list has room for these alone.
fn chosen_leaders(
    alloc: Global,
    leaders: &[VarId],
    truths: &[bool],
) -> Result<List<VarId>, NoMemory>
    ensures { IfOk result (λ present. present ≡ chosen_leaders leaders.now truths.now) }
{
    let mut present = List::from_vec(Vec::with_capacity(alloc, true_count(truths))?);
    for i in 0..leaders.len() {
        if is_true(truths, i) {
            present.push(leaders[i])?;
        }
    }
    Ok(present)
}

// Each pattern with its present leaders. The truth values of a pattern are let go when its leaders are there.
fn all_held(
    alloc: Global,
    leaders: &[VarId],
    patterns: List<Pattern>,
) -> Result<List<Held>, NoMemory>
    ensures { IfOk result (λ held. held ≡ map (held_of leaders.now) patterns) }
{
    let mut held = List::from_vec(Vec::with_capacity(alloc, patterns.len())?);
    for pattern in patterns.into_vec() {
        let present = chosen_leaders(alloc, leaders, pattern.present.as_slice())?;
        held.push(Held {
            count: pattern.count,
            leaders: present,
        })?;
    }
    Ok(held)
}

// Whether each pattern is of some samples.
fn are_counted(patterns: &[Pattern]) -> bool
    ensures { IsTrue result ↔ All (λ p. 0 < p.count) patterns.now }
{
    for pattern in patterns {
        if pattern.count == 0 {
            return false;
        }
    }
    true
}

// Whether each pattern has so many truth values.
fn are_full(patterns: &[Pattern], count: usize) -> bool
    ensures { IsTrue result ↔ All (λ p. length p.present ≡ count) patterns.now }
{
    for pattern in patterns {
        if pattern.present.len() != count {
            return false;
        }
    }
    true
}

// Whether the truth values of the pattern are less than those of the next one.
fn is_before(pattern: &Pattern, next: &Pattern) -> bool
    ensures { result ≡ is_before pattern.now next.now }
{
    pattern
        .present
        .as_slice()
        .cmp(next.present.as_slice())
        .is_lt()
}

// Whether the patterns rise by their truth values.
fn rise(patterns: &[Pattern]) -> bool
    ensures { IsTrue result ↔ Rise patterns.now }
{
    for i in 1..patterns.len() {
        if !is_before(&patterns[i - 1], &patterns[i]) {
            return false;
        }
    }
    true
}

// Whether patterns over so many leaders are as they are saved.
fn are_in_order(patterns: &[Pattern], count: usize) -> bool
    ensures { IsTrue result ↔ AreInOrder count patterns.now }
{
    are_counted(patterns) && are_full(patterns, count) && rise(patterns)
}

/// The patterns over these leaders, which ascend, from the order in which they are saved; or None where no patterns are saved like
/// that. Any patterns that are saved like that are these, in some order.
pub fn presence_from(
    alloc: Global,
    leaders: &[VarId],
    patterns: List<Pattern>,
) -> Result<Option<Presence>, NoMemory>
    requires { VarsAscend leaders.now }
    ensures saved { IfOk result (λ found. IfSome found (HavePatterns leaders.now patterns)) }
    ensures any { IfOk result (λ found. (held : List Held) → HavePatterns leaders.now patterns held → (found ≢ None) × IfSome found (IsPermutation held)) }
{
    if !are_in_order(patterns.as_slice(), leaders.len()) {
        return Ok(None);
    }
    let held = all_held(alloc, leaders, patterns)?;
    Ok(Some(Presence::from_held(alloc, held)?))
}

/// Whether the patterns over these leaders, which ascend, are held in the order in which they are saved.
pub fn held_in_order(alloc: Global, leaders: &[VarId], held: &[Held]) -> Result<bool, NoMemory>
    requires leaders { VarsAscend leaders.now }
    requires held { AreHeld held.now }
    ensures { IfOk result (λ are. IsTrue are → patterns_of leaders.now held.now ≡ map (pattern_of leaders.now) held.now) }
{
    for i in 1..held.len() {
        let pattern = pattern_of(alloc, leaders, &held[i - 1])?;
        let next = pattern_of(alloc, leaders, &held[i])?;
        if !is_before(&pattern, &next) {
            return Ok(false);
        }
    }
    Ok(true)
}
