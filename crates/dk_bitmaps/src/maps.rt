// The bitmaps of patterns: which of them have a leader, and which counts have a binary digit, 64 patterns to a word.
ghost use Rattle.std.specs.Prelude.{◌≡◌, ◌≤◌, ◌<◌, ◌*◌, ◌^◌, All, IfOk, cond, drop, length, take};
ghost use Rattle.dk_samples.specs.Leaders.{VarsAscend};
ghost use Rattle.dk_bitmaps.specs.Bitmaps.{AreDigitMaps, AreLeaderMaps, IsBitmap, digits, is_marked};

use crate::marks::{Mark, is_marked};
use dk_base::{NoMemory, VarId};
use dk_presence::Held;
use std::alloc::Global;

// How many patterns have a digit in one word.
const BLOCK: usize = 64;

// How many binary digits a count has at most.
const COUNT_DIGITS: u32 = 64;

// 1 for yes, 0 for no.
fn digit(yes: bool) -> u64
    ensures { result ≡ cond yes 1 0 }
{
    if yes { 1 } else { 0 }
}

// The patterns from the start on, at most so many as have a digit in one word.
fn block(held: &[Held], start: usize) -> &[Held]
    requires { start ≤ length held.now }
    ensures { result.now ≡ take 64 (drop start held.now) }
{
    let end = if held.len() - start < BLOCK {
        held.len()
    } else {
        start + BLOCK
    };
    &held[start..end]
}

// A digit for each of the patterns, the first the highest: whether the mark holds of it.
fn word(mark: Mark, block: &[Held]) -> u64
    requires few { length block.now ≤ 64 }
    requires ascend { All (λ h. VarsAscend h.leaders) block.now }
    ensures { result ≡ digits (is_marked mark) block.now }
{
    let mut word: u64 = 0;
    for pattern in block {
        word = word * 2 + digit(is_marked(mark, pattern));
    }
    word
}

// The bitmap of a mark.
fn bitmap(alloc: Global, mark: Mark, held: &[Held]) -> Result<Vec<u64>, NoMemory>
    requires { All (λ h. VarsAscend h.leaders) held.now }
    ensures { IfOk result (λ words. IsBitmap held.now (is_marked mark) words.items) }
{
    let mut words = Vec::new(alloc);
    for j in 0..held.len() / BLOCK + 1 {
        words.push(word(mark, block(held, j * BLOCK)))?;
    }
    Ok(words)
}

/// A bitmap for each of the leaders.
pub(crate) fn leader_maps(
    alloc: Global,
    leaders: &[VarId],
    held: &[Held],
) -> Result<Vec<Vec<u64>>, NoMemory>
    requires { All (λ h. VarsAscend h.leaders) held.now }
    ensures { IfOk result (λ maps. AreLeaderMaps held.now leaders.now maps.items) }
{
    let mut maps = Vec::new(alloc);
    for v in leaders {
        maps.push(bitmap(alloc, Mark::Leader(*v), held)?)?;
    }
    Ok(maps)
}

// The greatest count of the patterns that are held.
fn most(held: &[Held]) -> u64
    ensures { All (λ h. h.count ≤ result) held.now }
{
    let mut most = 0;
    for pattern in held {
        if most < pattern.count {
            most = pattern.count;
        }
    }
    most
}

// How many binary digits the number has.
fn width(number: u64) -> u32
    ensures { number < 2 ^ result }
{
    COUNT_DIGITS - number.leading_zeros()
}

/// A bitmap for each binary digit of the counts, the last digit first.
pub(crate) fn digit_maps(alloc: Global, held: &[Held]) -> Result<Vec<Vec<u64>>, NoMemory>
    requires { All (λ h. VarsAscend h.leaders) held.now }
    ensures { IfOk result (λ maps. AreDigitMaps held.now maps.items) }
{
    let mut maps = Vec::new(alloc);
    for place in 0..width(most(held)) {
        maps.push(bitmap(alloc, Mark::Digit(place), held)?)?;
    }
    Ok(maps)
}
