// Entries without a nonce, on a stack.
ghost use Rattle.std.specs.Prelude.{◌≡◌, ◌∷◌, [], ℕ, OnOk, OnErr, IsSome, drop, find, nat_eq, option_map, slice_get};
ghost use Rattle.std.specs.Map.{update};
ghost use Rattle.indexmap.specs.IndexMap.{get};
ghost use Rattle.dk_calls.specs.Links.{plain_of};
ghost use Rattle.dk_calls.specs.Stacks.{Plain, below_first, is_at};

use dk_base::{List, NoMemory, Value};
use indexmap::IndexMap;
use std::alloc::Global;
use std::marker::Model;

/// An entry on the stack: its point, its values, and the place of the latest entry of its point below it.
#[derive(Drop)]
pub(crate) struct Placed {
    pub(crate) point: u32,
    pub(crate) values: List<Value>,
    pub(crate) below: Option<usize>,
}

/// Entries that wait without a nonce. The latest of a point is found by one look-up.
#[derive(Drop)]
pub(crate) struct Stack {
    entries: Vec<Placed>,
    latest: IndexMap<u32, usize>,
}

// The point's latest place is this one, or there is none. It takes no memory.
fn set_latest(latest: &mut IndexMap<u32, usize>, point: u32, place: Option<usize>)
    requires { IsSome (get nat_eq latest.old point) }
    ensures { (q : ℕ) → get nat_eq latest.new q ≡ update nat_eq (get nat_eq latest.old) point place q }
{
    match place {
        None => {
            latest.swap_remove(&point);
        }
        Some(place) => match latest.insert(point, place) {
            Ok(_) => (),
            Err(_) => unreachable!(),
        },
    }
}

impl Model for Stack {
    ghost use Rattle.std.specs.Prelude.{List};
    ghost use Rattle.dk_calls.specs.Links.{IsStack, stack_of};
    ghost use Rattle.dk_calls.specs.Stacks.{Plain};

    ghost Value = { List Plain };

    ghost view = { λ s. stack_of s.entries.items };

    ghost invariant = { λ s. IsStack s.entries.items s.latest };
}

impl Stack {
    /// No entry waits yet.
    pub(crate) fn new(alloc: Global) -> Stack
        ensures { result ≡ [] }
    {
        Stack {
            entries: Vec::new(alloc),
            latest: IndexMap::new(alloc),
        }
    }

    /// The entry lies on top. A refused call leaves the stack as it was.
    pub(crate) fn push(&mut self, point: u32, values: List<Value>) -> Result<(), NoMemory>
        ensures ok { OnOk result (self.new ≡ record { point = point; values = values } ∷ self.old) }
        ensures err { OnErr result (self.new ≡ self.old) }
    {
        let place = self.entries.len();
        let below = self.latest.get(&point).copied();
        self.entries.push(Placed {
            point,
            values,
            below,
        })?;
        match self.latest.insert(point, place) {
            Ok(_) => Ok(()),
            Err(_) => {
                let _ = self.entries.pop();
                Err(NoMemory)
            }
        }
    }

    /// The values of the latest entry of the point.
    pub(crate) fn latest(&self, point: u32) -> Option<&List<Value>>
        ensures { option_map (λ values. values.now) result ≡ option_map (λ w. w.values) (find (is_at point) self.now) }
    {
        match self.latest.get(&point) {
            None => None,
            Some(place) => Some(&self.entries[*place].values),
        }
    }

    // The entry on top, which goes.
    fn pop(&mut self) -> Option<Placed>
        ensures top { option_map plain_of result ≡ slice_get self.old 0 }
        ensures rest { self.new ≡ drop 1 self.old }
    {
        match self.entries.pop() {
            None => None,
            Some(top) => {
                set_latest(&mut self.latest, top.point, top.below);
                Some(top)
            }
        }
    }

    /// Takes the latest entry of the point, and those above it.
    pub(crate) fn cut(&mut self, point: u32)
        ensures { self.new ≡ below_first (is_at point) self.old }
    {
        'cut: while let Some(top) = self.pop() {
            if top.point == point {
                return;
            }
        }
    }

    /// Forgets all entries that wait.
    pub(crate) fn clear(&mut self)
        ensures { self.new ≡ [] }
    {
        self.entries.clear();
        self.latest.clear();
    }
}
