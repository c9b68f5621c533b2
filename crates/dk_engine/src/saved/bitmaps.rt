// Bitmaps of the patterns: which of them have a leader, 64 to a word.
ghost use Rattle.std.specs.Prelude.{◌≡◌, ◌+◌, ◌/◌, ◌↔◌, ◌<◌, ◌≤◌, ◌*◌, [], ◌∷◌, All, IfSome, IsTrue, List, cond, drop, get_or, length, take};
ghost use Rattle.dk_presence.specs.Patterns.{counted_by, has, has_all};
ghost use Rattle.dk_presence.specs.declared.held.Held.{Held};
ghost use Rattle.dk_samples.specs.Leaders.{VarsAscend};
ghost use Rattle.dk_base.specs.declared.kinds.VarId.{VarId};
ghost use Rattle.dk_engine.specs.Saved.Bitmaps.{AreBitmaps, IsBitmap, IsPlaceOf, are_together, digits};

use dk_base::VarId;
use dk_presence::{Held, Presence, contains};
use std::marker::Model;

/// How many patterns have a bit in one word.
pub(crate) const BLOCK: usize = 64;

/// 1 for yes, 0 for no.
pub(crate) fn bit(yes: bool) -> u64
    ensures { result ≡ cond yes 1 0 }
{
    if yes { 1 } else { 0 }
}

/// The patterns from the start on, at most so many as have a bit in one word.
pub(crate) fn block(held: &[Held], start: usize) -> &[Held]
    requires { start ≤ length held.now }
    ensures { result.now ≡ take 64 (drop start held.now) }
{
    let end = if held.len() - start < BLOCK {
        held.len()
    } else {
        start + BLOCK
    };
    &held[start..end]
}

// A bit for each of the patterns, the same for all.
fn same_word(block: &[Held], present: bool) -> u64
    requires { length block.now ≤ 64 }
    ensures { result ≡ digits (λ _. present) block.now }
{
    let mut bits: u64 = 0;
    for _ in block {
        bits = bits * 2 + bit(present);
    }
    bits
}

/// Whether the bitmap is that of a variable that is in all patterns, or in none.
pub(crate) fn are_same_words(held: &[Held], words: &[u64], present: bool) -> bool
    requires { length words.now ≡ length held.now / 64 + 1 }
    ensures { (v : VarId) → IsBitmap held.now v words.now → IsTrue result ↔ All (λ h. has h.leaders v ≡ present) held.now }
{
    for j in 0..words.len() {
        if words[j] != same_word(block(held, j * BLOCK), present) {
            return false;
        }
    }
    true
}

// Whether the bitmaps of three variables have a bit in common: whether some pattern has all three.
fn have_common_bit(a: &[u64], b: &[u64], c: &[u64]) -> bool
    requires second { length b.now ≡ length a.now }
    requires third { length c.now ≡ length a.now }
    ensures { (held : List Held) (x y z : VarId) → IsBitmap held x a.now → IsBitmap held y b.now → IsBitmap held z c.now → result ≡ are_together held (x ∷ y ∷ z ∷ []) }
{
    for j in 0..a.len() {
        if a[j] & b[j] & c[j] != 0 {
            return true;
        }
    }
    false
}

// Whether a pattern has all of these variables.
fn has_each(pattern: &Held, vars: &[VarId]) -> bool
    requires { VarsAscend pattern.now.leaders }
    ensures { result ≡ has_all pattern.now.leaders vars.now }
{
    for v in vars {
        if !contains(pattern.leaders.as_slice(), *v) {
            return false;
        }
    }
    true
}

// Whether some pattern has all of these variables. It ends at the first that does.
fn some_has_each(held: &[Held], vars: &[VarId]) -> bool
    requires { All (λ h. VarsAscend h.leaders) held.now }
    ensures { result ≡ are_together held.now vars.now }
{
    for pattern in held {
        if has_each(pattern, vars) {
            return true;
        }
    }
    false
}

/// Whether in some sample all of these leaders are present, as the patterns tell one after another, up to the first that has all.
pub(crate) fn counts_some(presence: &Presence, vars: &[VarId]) -> bool
    ensures { IsTrue result ↔ (0 < counted_by presence.now vars.now) }
{
    some_has_each(presence.held(), vars)
}

// Where the variable stands among the leaders.
fn place_of(leaders: &[VarId], v: VarId) -> Option<usize>
    ensures { IfSome result (IsPlaceOf leaders.now v) }
{
    match leaders.binary_search_by_key(&v.0, |w| w.0) {
        Ok(place) => Some(place),
        Err(_) => None,
    }
}

/// The patterns of present leaders, with a bitmap for each leader. They tell whether some pattern has all of some leaders by at most one
/// step for 64 patterns. Contracts see them as the patterns.
#[derive(Drop)]
pub(crate) struct Bitmaps<'a> {
    presence: &'a Presence,
    leaders: &'a [VarId],
    maps: &'a [Vec<u64>],
}

impl<'a> Model for Bitmaps<'a> {
    ghost use Rattle.std.specs.Prelude.{List};
    ghost use Rattle.dk_engine.specs.Saved.Bitmaps.{AreBitmaps};
    ghost use Rattle.dk_presence.specs.Patterns.{AreHeld};
    ghost use Rattle.dk_presence.specs.declared.held.Held.{Held};

    ghost Value = { List Held };

    ghost view = { λ b. b.presence.now };

    ghost invariant = { λ b. AreHeld b.presence.now × AreBitmaps b.presence.now b.leaders.now b.maps.now };
}

impl<'a> Bitmaps<'a> {
    /// The patterns with these bitmaps of leaders.
    pub(crate) fn of(
        presence: &'a Presence,
        leaders: &'a [VarId],
        maps: &'a [Vec<u64>],
    ) -> Bitmaps<'a>
        requires { AreBitmaps presence.now leaders.now maps.now }
        ensures { result ≡ presence.now }
    {
        let _held = presence.held();
        Bitmaps {
            presence,
            leaders,
            maps,
        }
    }

    /// The bitmap of a leader.
    pub(crate) fn map(&self, v: VarId) -> Option<&[u64]>
        ensures { IfSome result (λ words. IsBitmap self.now v words.now) }
    {
        match place_of(self.leaders, v) {
            Some(place) => Some(self.maps[place].as_slice()),
            None => None,
        }
    }

    // Whether some pattern has all three.
    fn have_all(&self, x: VarId, y: VarId, z: VarId) -> bool
        ensures { IsTrue result ↔ (0 < counted_by self.now (x ∷ y ∷ z ∷ [])) }
    {
        match (self.map(x), self.map(y), self.map(z)) {
            (Some(a), Some(b), Some(c)) => have_common_bit(a, b, c),
            _ => counts_some(self.presence, &[x, y, z]),
        }
    }

    /// Whether in some sample all of these leaders are present.
    pub(crate) fn are_together(&self, vars: &[VarId]) -> bool
        ensures { IsTrue result ↔ (0 < counted_by self.now vars.now) }
    {
        match vars {
            [x] => self.have_all(*x, *x, *x),
            [x, y] => self.have_all(*x, *y, *y),
            [x, y, z] => self.have_all(*x, *y, *z),
            _ => counts_some(self.presence, vars),
        }
    }
}
