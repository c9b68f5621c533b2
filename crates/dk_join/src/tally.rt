// Patterns that are counted together.
ghost use Rattle.std.specs.Prelude.{◌≡◌, ◌<◌, [], ◌∷◌, ◌++◌, IfOk, length, map, position, slice_index_or, slice_set};
ghost use Rattle.dk_join.specs.Tallies.{counted_more, with_samples_of};
ghost use Rattle.dk_presence.specs.Patterns.{AreHeld, same_vars};
ghost use Rattle.dk_presence.specs.declared.held.Held.{Held};
ghost use Rattle.dk_samples.specs.Leaders.{VarsAscend};

use dk_base::{List, NoMemory, VarId};
use dk_presence::Held;
use indexmap::IndexSet;
use std::alloc::Global;
use std::marker::Model;

/// Patterns with their counts, each found by one look-up. Contracts see them as a list.
#[derive(Drop)]
pub(crate) struct Tally {
    held: Vec<Held>,
    places: IndexSet<Vec<VarId>>,
}

impl Model for Tally {
    ghost use Rattle.std.specs.Prelude.{◌≡◌, List, map};
    ghost use Rattle.dk_presence.specs.Patterns.{AreHeld, held_patterns};
    ghost use Rattle.dk_presence.specs.declared.held.Held.{Held};

    ghost Value = { List Held };

    ghost view = { λ t. t.held.items };

    ghost invariant = { λ t. AreHeld t.held.items × (map (λ k. k.items) t.places.keys ≡ held_patterns t.held.items) };
}

// The place of a pattern.
fn place_of(places: &IndexSet<Vec<VarId>>, present: &[VarId]) -> Option<usize>
    ensures { result ≡ position (same_vars present.now) (map (λ k. k.items) places.now.keys) }
{
    places.get_index_of(present)
}

// The patterns with so many samples more at the one at this place.
fn with_more(held: Vec<Held>, place: usize, count: u64) -> Vec<Held>
    requires { place < length held.items }
    ensures { (d : Held) → result.items ≡ slice_set held.items place (counted_more count (slice_index_or held.items place d)) }
{
    let mut more = held;
    let pattern = &mut more[place];
    pattern.count = pattern.count.saturating_add(count);
    more
}

// The patterns with a new one, of so many samples.
fn with_pattern(held: Vec<Held>, present: List<VarId>, count: u64) -> Result<Vec<Held>, NoMemory>
    ensures { IfOk result (λ more. more.items ≡ held.items ++ record { count = count; leaders = present } ∷ []) }
{
    let mut more = held;
    more.push(Held {
        count,
        leaders: present,
    })?;
    Ok(more)
}

impl Tally {
    /// No pattern is counted yet.
    pub(crate) fn new(alloc: Global) -> Tally
        ensures { result ≡ [] }
    {
        Tally {
            held: Vec::new(alloc),
            places: IndexSet::new(alloc),
        }
    }

    /// The patterns with so many samples more in which these leaders are present.
    pub(crate) fn add(
        self,
        alloc: Global,
        present: List<VarId>,
        count: u64,
    ) -> Result<Tally, NoMemory>
        requires ascend { VarsAscend present }
        requires some { 0 < count }
        ensures { IfOk result (λ t. t ≡ with_samples_of count present self) }
    {
        let Tally { held, mut places } = self;
        match place_of(&places, present.as_slice()) {
            Some(place) => Ok(Tally {
                held: with_more(held, place, count),
                places,
            }),
            None => {
                places.insert(Vec::from_slice(alloc, present.as_slice())?)?;
                Ok(Tally {
                    held: with_pattern(held, present, count)?,
                    places,
                })
            }
        }
    }

    /// The patterns with their counts.
    pub(crate) fn into_held(self) -> List<Held>
        ensures all { result ≡ self }
        ensures form { AreHeld self }
    {
        List::from_vec(self.held)
    }
}
