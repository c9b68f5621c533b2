// Names in a row.
ghost use Rattle.std.specs.Prelude.{◌≡◌, ◌∷◌, ◌++◌, [], ◌<◌, length, None, Some, OnOk, OnErr, IfSome, slice_get};
ghost use Rattle.dk_graph.specs.Names.{place_of};

use dk_base::{NoMemory, same_bytes};
use indexmap::IndexSet;
use std::alloc::Global;
use std::marker::Model;

/// Different names, in the order in which they came. A name is found by its bytes without a walk over the others.
#[derive(Drop)]
pub struct Names {
    alloc: Global,
    kept: IndexSet<Vec<u8>>,
}

impl Model for Names {
    ghost use Rattle.std.specs.Prelude.{List, ℕ, map};
    ghost use Rattle.dk_graph.specs.Names.{AreDifferent};

    ghost Value = { List (List ℕ) };

    ghost view = { λ n. map (λ name. name.items) n.kept.keys };

    ghost invariant = { λ n. AreDifferent (map (λ name. name.items) n.kept.keys) };
}

impl Names {
    /// An index without names.
    pub fn new(alloc: Global) -> Names
        ensures { result ≡ [] }
    {
        Names {
            alloc,
            kept: IndexSet::new(alloc),
        }
    }

    /// The place of a name. It takes no memory.
    pub fn find(&self, name: &[u8]) -> Option<usize>
        ensures place { result ≡ place_of self.now name.now }
        ensures within { IfSome result (λ i. i < length self.now) }
    {
        self.kept.get_index_of(name)
    }

    /// The place of a name, which is looked for at this place first. It takes no memory.
    pub fn find_from(&self, place: usize, name: &[u8]) -> Option<usize>
        ensures place { result ≡ place_of self.now name.now }
        ensures within { IfSome result (λ i. i < length self.now) }
    {
        let names = self.kept.as_slice();
        if place < names.len() && same_bytes(names[place].as_slice(), name) {
            return Some(place);
        }
        self.kept.get_index_of(name)
    }

    /// A new name goes last. A refused push leaves the names as they were.
    pub fn push(&mut self, name: &[u8]) -> Result<(), NoMemory>
        requires { place_of self.old name.now ≡ None }
        ensures ok { OnOk result (self.new ≡ self.old ++ name.now ∷ []) }
        ensures err { OnErr result (self.new ≡ self.old) }
    {
        let key = Vec::from_slice(self.alloc, name)?;
        match self.kept.insert(key) {
            Ok(_) => Ok(()),
            Err(_) => Err(NoMemory),
        }
    }

    /// How many names there are.
    pub fn len(&self) -> usize
        ensures { result ≡ length self.now }
    {
        self.kept.len()
    }

    /// The name at a place.
    pub fn get(&self, place: usize) -> &[u8]
        requires { place < length self.now }
        ensures { slice_get self.now place ≡ Some result.now }
    {
        self.kept.as_slice()[place].as_slice()
    }
}
