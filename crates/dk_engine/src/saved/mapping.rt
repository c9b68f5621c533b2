// The making of bitmaps: 64 patterns after another, and each of them in one walk over the leaders.
ghost use Rattle.std.specs.Prelude.{◌≡◌, ◌≢◌, ◌+◌, ◌*◌, ◌++◌, ◌<◌, ◌≤◌, ◌^◌, ℕ, [], ◌∷◌, false, All, IfOk, IsTrue, OnOk, cond, get_or, length};
ghost use Rattle.std.specs.Global.{Vec};
ghost use Rattle.dk_base.specs.declared.kinds.VarId.{VarId};
ghost use Rattle.dk_presence.specs.Patterns.{has};
ghost use Rattle.dk_samples.specs.Leaders.{VarsAscend};
ghost use Rattle.dk_engine.specs.Saved.Bitmaps.{AreBitmaps, IsRowOf};

use crate::saved::bitmaps::{BLOCK, bit, block};
use dk_base::{NoMemory, VarId};
use dk_presence::Held;
use std::alloc::Global;

// The first place from here on whose variable doesn't come before this one.
fn place_from(present: &[VarId], from: usize, v: VarId) -> usize
    requires { from ≤ length present.now }
    ensures from { from ≤ result }
    ensures within { result ≤ length present.now }
    ensures passed { (k : ℕ) (d : VarId) → from ≤ k → k < result → (get_or present.now k d).0 < v.0 }
    ensures next { (d : VarId) → result < length present.now → v.0 ≤ (get_or present.now result d).0 }
{
    for place in from..present.len() {
        if v.0 <= present[place].0 {
            return place;
        }
    }
    present.len()
}

/// Whether the variable stands at the place.
pub(crate) fn stands_at(present: &[VarId], place: usize, v: VarId) -> bool
    ensures stands { IsTrue result → (place < length present.now) × ((d : VarId) → (get_or present.now place d).0 ≡ v.0) }
    ensures not { result ≡ false → place < length present.now → (d : VarId) → (get_or present.now place d).0 ≢ v.0 }
{
    place < present.len() && present[place].0 == v.0
}

// With one bit more in the word of each leader: whether it is present.
fn push_pattern(row: &mut [u64], leaders: &[VarId], present: &[VarId])
    requires long { length row.old ≡ length leaders.now }
    requires leaders { VarsAscend leaders.now }
    requires present { VarsAscend present.now }
    requires room { All (λ n. n < 2 ^ 63) row.old }
    ensures long { length row.new ≡ length row.old }
    ensures each { (k : ℕ) (d : VarId) → k < length leaders.now → get_or row.new k 0 ≡ get_or row.old k 0 * 2 + cond (has present.now (get_or leaders.now k d)) 1 0 }
{
    let mut place = 0;
    for k in 0..leaders.len() {
        let v = leaders[k];
        place = place_from(present, place, v);
        row[k] = row[k] * 2 + bit(stands_at(present, place, v));
    }
}

// A word for each leader, with a bit for each of the patterns, the first the highest: whether it has the leader.
fn block_row(alloc: Global, leaders: &[VarId], block: &[Held]) -> Result<Vec<u64>, NoMemory>
    requires few { length block.now ≤ 64 }
    requires leaders { VarsAscend leaders.now }
    requires ascend { All (λ h. VarsAscend h.leaders) block.now }
    ensures { IfOk result (λ row. IsRowOf leaders.now block.now row.items) }
{
    let mut row = vec![in alloc; 0; leaders.len()]?;
    for pattern in block {
        push_pattern(row.as_mut_slice(), leaders, pattern.leaders.as_slice());
    }
    Ok(row)
}

// So many bitmaps without words.
fn no_words(alloc: Global, count: usize) -> Result<Vec<Vec<u64>>, NoMemory>
    ensures { IfOk result (λ maps. (length maps.items ≡ count) × All (λ m. m.items ≡ []) maps.items) }
{
    let mut maps = Vec::new(alloc);
    for _ in 0..count {
        maps.push(Vec::new(alloc))?;
    }
    Ok(maps)
}

// With a word more in each bitmap.
fn push_row(maps: &mut Vec<Vec<u64>>, row: &[u64]) -> Result<(), NoMemory>
    requires { length row.now ≡ length maps.old.items }
    ensures long { OnOk result (length maps.new.items ≡ length maps.old.items) }
    ensures each { OnOk result ((k : ℕ) (d : Vec ℕ) → k < length row.now → (get_or maps.new.items k d).items ≡ (get_or maps.old.items k d).items ++ get_or row.now k 0 ∷ []) }
{
    for k in 0..row.len() {
        maps[k].push(row[k])?;
    }
    Ok(())
}

/// A bitmap of the patterns for each of the leaders. It takes a step for each leader of each pattern.
pub(crate) fn bitmaps(
    alloc: Global,
    leaders: &[VarId],
    held: &[Held],
) -> Result<Vec<Vec<u64>>, NoMemory>
    requires leaders { VarsAscend leaders.now }
    requires ascend { All (λ h. VarsAscend h.leaders) held.now }
    ensures { IfOk result (λ maps. AreBitmaps held.now leaders.now maps.items) }
{
    let mut maps = no_words(alloc, leaders.len())?;
    for j in 0..held.len() / BLOCK + 1 {
        let row = block_row(alloc, leaders, block(held, j * BLOCK))?;
        push_row(&mut maps, row.as_slice())?;
    }
    Ok(maps)
}
