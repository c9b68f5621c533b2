// The place of each pattern, which is found by one look-up unless patterns have one hash.
ghost use Rattle.std.specs.Prelude.{◌≡◌, ◌&&◌, IfOk, length, nat_lt, position, slice_index_or};
ghost use Rattle.std.specs.List.{IsDistinct};
ghost use Rattle.dk_presence.specs.Hashes.{AreKeyed, hash_of};
ghost use Rattle.dk_presence.specs.Patterns.{held_patterns, same_vars};
ghost use Rattle.dk_presence.specs.declared.held.Held.{Held};

use crate::Held;
use dk_base::{NoMemory, VarId};
use indexmap::IndexMap;
use std::alloc::Global;

/// By the hash of a pattern's leaders the place of one pattern that has it.
pub(crate) type Places = IndexMap<u64, usize>;

// A large odd number, by which the multiples of small numbers lie far apart.
const FACTOR: u64 = 6_364_136_223_846_793_005;

/// The hash of a pattern's leaders.
pub(crate) fn hash_of(leaders: &[VarId]) -> u64
    ensures { result ≡ hash_of leaders.now }
{
    let mut hash: u64 = 1;
    for leader in leaders {
        hash = hash.wrapping_mul(FACTOR).wrapping_add(u64::from(leader.0));
    }
    hash
}

/// The places of the patterns.
pub(crate) fn places_of(alloc: Global, held: &[Held]) -> Result<Places, NoMemory>
    ensures { IfOk result (λ places. AreKeyed places (held_patterns held.now)) }
{
    let mut places = IndexMap::with_capacity(alloc, held.len())?;
    for place in 0..held.len() {
        places.insert(hash_of(held[place].leaders.as_slice()), place)?;
    }
    Ok(places)
}

// Whether the pattern is the one at this place.
fn is_at(held: &[Held], place: usize, present: &[VarId]) -> bool
    ensures { (d : Held) → result ≡ (nat_lt place (length held.now) && same_vars present.now (slice_index_or held.now place d).leaders) }
{
    place < held.len() && present == held[place].leaders.as_slice()
}

// The place of a pattern, found by going over all.
fn place_among_all(held: &[Held], present: &[VarId]) -> Option<usize>
    ensures { result ≡ position (same_vars present.now) (held_patterns held.now) }
{
    for place in 0..held.len() {
        if is_at(held, place, present) {
            return Some(place);
        }
    }
    None
}

/// The place of a pattern. The pattern at the place of its hash is compared with it; where that is another one, all are gone over.
pub(crate) fn place_of(places: &Places, held: &[Held], present: &[VarId]) -> Option<usize>
    requires once { IsDistinct same_vars (held_patterns held.now) }
    requires keyed { AreKeyed places.now (held_patterns held.now) }
    ensures { result ≡ position (same_vars present.now) (held_patterns held.now) }
{
    let place = *places.get(&hash_of(present))?;
    if is_at(held, place, present) {
        Some(place)
    } else {
        place_among_all(held, present)
    }
}
