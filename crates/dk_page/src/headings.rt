// The names of sections, and which one of its name each is.
ghost use Rattle.std.specs.Prelude.{◌≡◌, ◌∷◌, [], ℕ, List, IfOk, OnOk};
ghost use Rattle.dk_graph.specs.Notes.{noted, noted_under};
ghost use Rattle.dk_page.specs.Headings.{IsNext, StandsFor};

use crate::ids::id_behind;
use dk_base::{List, NoMemory, Text};
use indexmap::IndexMap;
use std::alloc::Global;
use std::marker::Model;

/// The names of the sections so far: under each name a number for each of its sections, from 0.
#[derive(Drop)]
pub struct Headings {
    alloc: Global,
    table: IndexMap<Vec<u8>, List<usize>>,
}

impl Model for Headings {
    ghost use Rattle.std.specs.Prelude.{List, ℕ, map};

    ghost Value = { List (List ℕ × List ℕ) };

    ghost view = { λ n. map (λ e. (e.0.items, e.1)) n.table.entries };
}

// A list of one number.
fn list_of_one(alloc: Global, number: usize) -> Result<List<usize>, NoMemory>
    ensures { IfOk result (λ list. list ≡ number ∷ []) }
{
    let mut list = List::new(alloc);
    list.push(number)?;
    Ok(list)
}

impl Headings {
    /// No names. It takes no memory.
    pub fn new(alloc: Global) -> Headings
        ensures { StandsFor result [] }
    {
        Headings {
            alloc,
            table: IndexMap::new(alloc),
        }
    }

    // The numbers under a name.
    fn under(&self, name: &[u8]) -> &[usize]
        ensures { result.now ≡ noted_under self.now name.now }
    {
        match self.table.get(name) {
            Some(list) => list.as_slice(),
            None => &[],
        }
    }

    // One number more, last under its name. After an error the names may be any.
    fn push(&mut self, name: &[u8], number: usize) -> Result<(), NoMemory>
        ensures { OnOk result (self.new ≡ noted self.old name.now number) }
    {
        match self.table.get_index_of(name) {
            Some(place) => self.table[place].push(number),
            None => {
                let key = Vec::from_slice(self.alloc, name)?;
                let list = list_of_one(self.alloc, number)?;
                match self.table.insert(key, list) {
                    Ok(_) => Ok(()),
                    Err(_) => Err(NoMemory),
                }
            }
        }
    }

    /// The id of the next section, of this name. After an error nothing is said of the names.
    pub fn next(&mut self, name: &[u8]) -> Result<Text, NoMemory>
        ensures { IfOk result (λ id. (names : List (List ℕ)) → StandsFor self.old names → IsNext self.old names name.now id self.new) }
    {
        let count = self.under(name).len();
        self.push(name, count)?;
        id_behind(self.alloc, count as u64, name)
    }
}
