// The bitmap index of patterns.
ghost use Rattle.std.specs.Prelude.{◌≡◌, ◌≤◌, ◌∷◌, [], IfOk, IfSome, is_some, length};
ghost use Rattle.dk_bitmaps.specs.Bitmaps.{IsBitmap, told};
ghost use Rattle.dk_presence.specs.Patterns.{has};
ghost use Rattle.dk_samples.specs.Leaders.{VarsAscend};

use crate::counting::common_sum;
use crate::maps::{digit_maps, leader_maps};
use dk_base::{NoMemory, VarId};
use dk_presence::Presence;
use std::alloc::Global;
use std::marker::Model;

/// A bitmap of the patterns for each of some leaders, and one for each binary digit of the counts (a bit-sliced index). With it the
/// count of some leaders takes one step for 64 patterns and a digit. Contracts see the patterns and
/// the leaders.
#[derive(Drop)]
pub struct PatternIndex<'p> {
    presence: &'p Presence,
    leaders: &'p [VarId],
    maps: Vec<Vec<u64>>,
    digits: Vec<Vec<u64>>,
}

impl<'p> Model for PatternIndex<'p> {
    ghost use Rattle.dk_bitmaps.specs.Bitmaps.{AreDigitMaps, AreLeaderMaps, Indexed};
    ghost use Rattle.dk_samples.specs.Leaders.{VarsAscend};

    ghost Value = { Indexed };

    ghost view = { λ index. record { held = index.presence.now; leaders = index.leaders.now } };

    ghost invariant = { λ index. VarsAscend index.leaders.now × AreLeaderMaps index.presence.now index.leaders.now index.maps.items × AreDigitMaps index.presence.now index.digits.items };
}

impl<'p> PatternIndex<'p> {
    /// The index of these patterns by these leaders, which ascend. It takes a bit for each leader and pattern, and a search for each.
    pub fn of(
        alloc: Global,
        presence: &'p Presence,
        leaders: &'p [VarId],
    ) -> Result<PatternIndex<'p>, NoMemory>
        requires { VarsAscend leaders.now }
        ensures { IfOk result (λ index. index ≡ record { held = presence.now; leaders = leaders.now }) }
    {
        let held = presence.held();
        Ok(PatternIndex {
            presence,
            leaders,
            maps: leader_maps(alloc, leaders, held)?,
            digits: digit_maps(alloc, held)?,
        })
    }

    // The bitmap of a leader.
    fn map(&self, v: VarId) -> Option<&[u64]>
        ensures map { IfSome result (λ words. IsBitmap self.now.held (λ h. has h.leaders v) words.now) }
        ensures there { is_some result ≡ has self.now.leaders v }
    {
        match self.leaders.binary_search_by_key(&v.0, |w| w.0) {
            Ok(place) => Some(self.maps[place].as_slice()),
            Err(_) => None,
        }
    }

    // The count of three leaders, if they are indexed.
    fn count_three(&self, x: VarId, y: VarId, z: VarId) -> Option<u64>
        ensures { result ≡ told self.now (x ∷ y ∷ z ∷ []) }
    {
        let a = self.map(x)?;
        let b = self.map(y)?;
        let c = self.map(z)?;
        Some(common_sum(self.digits.as_slice(), a, b, c))
    }

    /// In how many samples all of at most three leaders are present, or 2^64 - 1 if there are more; None where one of them isn't indexed.
    pub fn count(&self, leaders: &[VarId]) -> Option<u64>
        requires { length leaders.now ≤ 3 }
        ensures { result ≡ told self.now leaders.now }
    {
        match leaders {
            [] => Some(self.presence.count(&[])),
            [x] => self.count_three(*x, *x, *x),
            [x, y] => self.count_three(*x, *y, *y),
            [x, y, z] => self.count_three(*x, *y, *z),
            _ => unreachable!(),
        }
    }
}
