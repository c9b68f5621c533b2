// Links that wait for their parents, by the parent's name.
ghost use Rattle.std.specs.Prelude.{◌≡◌, ◌∷◌, [], IfOk, OnOk};
ghost use Rattle.dk_graph.specs.Notes.{noted_under, noted};

use crate::nodes::Waiting;
use dk_base::{List, NoMemory};
use indexmap::IndexMap;
use std::alloc::Global;
use std::marker::Model;

// Links, noted under the names of their parents.
#[derive(Drop)]
pub struct Notes {
    alloc: Global,
    table: IndexMap<Vec<u8>, List<Waiting>>,
}

impl Model for Notes {
    ghost use Rattle.std.specs.Prelude.{List, ℕ, map};
    ghost use Rattle.dk_graph.specs.declared.nodes.Waiting.{Waiting};

    ghost Value = { List (List ℕ × List Waiting) };

    ghost view = { λ n. map (λ e. (e.0.items, e.1)) n.table.entries };
}

// A list of one link.
fn list_of_one(alloc: Global, link: Waiting) -> Result<List<Waiting>, NoMemory>
    ensures { IfOk result (λ list. list ≡ link ∷ []) }
{
    let mut list = List::new(alloc);
    list.push(link)?;
    Ok(list)
}

impl Notes {
    // No link waits yet.
    pub fn new(alloc: Global) -> Notes
        ensures { result ≡ [] }
    {
        Notes {
            alloc,
            table: IndexMap::new(alloc),
        }
    }

    // The links under a name.
    pub fn under(&self, name: &[u8]) -> &[Waiting]
        ensures { result.now ≡ noted_under self.now name.now }
    {
        match self.table.get(name) {
            Some(list) => list.as_slice(),
            None => &[],
        }
    }

    // One link more, last under its name. After an error the notes may be any.
    pub fn push(&mut self, name: &[u8], link: Waiting) -> Result<(), NoMemory>
        ensures { OnOk result (self.new ≡ noted self.old name.now link) }
    {
        match self.table.get_index_of(name) {
            Some(place) => self.table[place].push(link),
            None => {
                let key = Vec::from_slice(self.alloc, name)?;
                let list = list_of_one(self.alloc, link)?;
                match self.table.insert(key, list) {
                    Ok(_) => Ok(()),
                    Err(_) => Err(NoMemory),
                }
            }
        }
    }
}
