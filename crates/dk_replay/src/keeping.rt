// Comparing what an engine keeps beside slots.
ghost use Rattle.std.specs.Prelude.{◌<◌, length};

use crate::both::Both;
use crate::leading::{Leading, is_one_of};
use crate::tally::Tally;
use dk_base::{List, NoMemory, Value, VarId, View, same_kept};
use dk_presence::Held;
use dk_samples::{is_present, value_at};
use std::alloc::Global;

/// Compares the number of samples, and the leaders. With which leader a variable agrees is compared elsewhere.
pub fn compare_classes(both: &Both<'_, '_>, leading: &Leading, tally: &mut Tally) {
    tally.part(both.engine.counts().samples == both.listed.samples().len() as u64);
    tally.part(both.engine.classes().leaders() == leading.leaders.as_slice());
}

// The value that the constant has in the first sample; none of another variable.
fn constant<'v>(both: &Both<'_, 'v>, leading: &Leading, v: VarId) -> Option<View<'v>> {
    if !is_one_of(v, leading.constants.as_slice()) {
        return None;
    }
    match both.listed.samples().first() {
        Some(first) => Some(value_at(first.as_slice(), v)),
        None => None,
    }
}

// Whether the value is kept, or none of none.
fn is_kept(alloc: Global, kept: Option<&Value>, value: Option<View<'_>>) -> Result<bool, NoMemory> {
    match (kept, value) {
        (Some(kept), Some(value)) => Ok(same_kept(kept, &Value::keep(alloc, value)?)),
        (None, None) => Ok(true),
        _ => Ok(false),
    }
}

/// Compares the number of the constants, and of each variable whether a value is kept, and which one.
pub fn compare_constants(
    both: &Both<'_, '_>,
    leading: &Leading,
    tally: &mut Tally,
) -> Result<(), NoMemory> {
    let constants = both.engine.constants();
    tally.part(constants.entries().len() == leading.constants.len());
    for v in 0..both.listed.count_vars() {
        let value = constant(both, leading, VarId(v));
        let same = is_kept(both.listed.alloc(), constants.value(VarId(v)), value)?;
        tally.part(same);
    }
    Ok(())
}

// The leaders that are present in a sample.
fn pattern_of(
    alloc: Global,
    leaders: &[VarId],
    sample: &[View<'_>],
) -> Result<List<VarId>, NoMemory> {
    let mut pattern = List::new(alloc);
    for v in leaders {
        if is_present(value_at(sample, *v)) {
            pattern.push(*v)?;
        }
    }
    Ok(pattern)
}

// In how many of the samples exactly these leaders are present.
fn times(
    alloc: Global,
    samples: &[List<View<'_>>],
    leaders: &[VarId],
    pattern: &[VarId],
) -> Result<u64, NoMemory> {
    let mut times = 0u64;
    for sample in samples {
        let other = pattern_of(alloc, leaders, sample.as_slice())?;
        if other.as_slice() == pattern {
            times = times.saturating_add(1);
        }
    }
    Ok(times)
}

// The count that is held with a pattern, or 0.
fn held_at(held: &[Held], pattern: &[VarId]) -> u64 {
    for one in held {
        if one.leaders.as_slice() == pattern {
            return one.count;
        }
    }
    0
}

// Compares how often the pattern of the sample at this place is held; whether no sample before it has that pattern.
fn compare_pattern(
    both: &Both<'_, '_>,
    leaders: &[VarId],
    samples: &[List<View<'_>>],
    place: usize,
    tally: &mut Tally,
) -> Result<bool, NoMemory>
    requires { place < length samples.now }
{
    let alloc = both.listed.alloc();
    let pattern = pattern_of(alloc, leaders, samples[place].as_slice())?;
    let held = held_at(both.engine.presence().held(), pattern.as_slice());
    let all = times(alloc, samples, leaders, pattern.as_slice())?;
    let before = times(alloc, &samples[..place], leaders, pattern.as_slice())?;
    tally.part(held == all);
    Ok(before == 0)
}

/// Compares how often each pattern is held, and the number of patterns.
pub fn compare_patterns(
    both: &Both<'_, '_>,
    leading: &Leading,
    tally: &mut Tally,
) -> Result<(), NoMemory> {
    let leaders = leading.leaders.as_slice();
    let mut patterns = 0usize;
    let samples = both.listed.samples();
    for place in 0..samples.len() {
        if compare_pattern(both, leaders, samples, place, tally)? {
            patterns = patterns.saturating_add(1);
        }
    }
    tally.part(both.engine.presence().held().len() == patterns);
    Ok(())
}
