// The variables of a point by their names.
ghost use Rattle.std.specs.Prelude.{◌≡◌, ◌∷◌, ◌++◌, [], ◌<◌, ◌^◌, IfOk, if◌then◌else◌, length, map};
ghost use Rattle.dk_graph.specs.Notes.{noted, noted_under};
ghost use Rattle.dk_expr.specs.Naming.{AreUnderNames, HaveLengths, has_length};

use dk_base::{List, NoMemory, VarId, VarInfo};
use indexmap::IndexMap;
use std::alloc::Global;
use std::marker::Model;

/// The variables of a point, listed under their names.
#[derive(Drop)]
pub struct VarNames {
    alloc: Global,
    table: IndexMap<Vec<u8>, List<VarId>>,
    lengths: List<usize>,
}

impl Model for VarNames {
    ghost use Rattle.std.specs.Prelude.{List, ℕ, map};
    ghost use Rattle.dk_base.specs.declared.kinds.VarId.{VarId};
    ghost use Rattle.dk_expr.specs.Naming.{HaveLengths};

    ghost Value = { List (List ℕ × List VarId) };

    ghost view = { λ n. map (λ e. (e.0.items, e.1)) n.table.entries };

    ghost invariant = { λ n. HaveLengths (map (λ e. (e.0.items, e.1)) n.table.entries) n.lengths };
}

// A list of one variable.
fn list_of_one(alloc: Global, v: VarId) -> Result<List<VarId>, NoMemory>
    ensures { IfOk result (λ list. list ≡ v ∷ []) }
{
    let mut list = List::new(alloc);
    list.push(v)?;
    Ok(list)
}

// The lengths with one more, unless it is one of them.
fn with_length(lengths: List<usize>, len: usize) -> Result<List<usize>, NoMemory>
    ensures { IfOk result (λ more. more ≡ (if has_length lengths len then lengths else lengths ++ len ∷ [])) }
{
    if lengths.as_slice().contains(&len) {
        return Ok(lengths);
    }
    let mut more = lengths;
    more.push(len)?;
    Ok(more)
}

// One variable more in a table of names, last under its name.
fn put(
    alloc: Global,
    table: IndexMap<Vec<u8>, List<VarId>>,
    name: &[u8],
    v: VarId,
) -> Result<IndexMap<Vec<u8>, List<VarId>>, NoMemory>
    ensures { IfOk result (λ more. map (λ e. (e.0.items, e.1)) more.entries ≡ noted (map (λ e. (e.0.items, e.1)) table.entries) name.now v) }
{
    let mut more = table;
    match more.get_index_of(name) {
        Some(place) => more[place].push(v)?,
        None => {
            let key = Vec::from_slice(alloc, name)?;
            let list = list_of_one(alloc, v)?;
            more.insert(key, list)?;
        }
    }
    Ok(more)
}

impl VarNames {
    // The names of no variables.
    fn new(alloc: Global) -> VarNames
        ensures { result ≡ [] }
    {
        VarNames {
            alloc,
            table: IndexMap::new(alloc),
            lengths: List::new(alloc),
        }
    }

    /// The variables of a name.
    pub(crate) fn under(&self, name: &[u8]) -> &[VarId]
        ensures { result.now ≡ noted_under self.now name.now }
    {
        match self.table.get(name) {
            Some(list) => list.as_slice(),
            None => &[],
        }
    }

    /// How many bytes the names have, each number once.
    pub(crate) fn lengths(&self) -> &[usize]
        ensures { HaveLengths self.now result.now }
    {
        self.lengths.as_slice()
    }

    // One variable more, last under its name.
    fn with(self, name: &[u8], v: VarId) -> Result<VarNames, NoMemory>
        ensures { IfOk result (λ names. names ≡ noted self name.now v) }
    {
        let VarNames {
            alloc,
            table,
            lengths,
        } = self;
        let lengths = with_length(lengths, name.len())?;
        let table = put(alloc, table, name, v)?;
        Ok(VarNames {
            alloc,
            table,
            lengths,
        })
    }

    /// A point's variables, each under its name. There must be fewer than 2^32 of them.
    pub fn of(alloc: Global, vars: &[VarInfo]) -> Result<VarNames, NoMemory>
        requires { length vars.now < 2 ^ 32 }
        ensures { IfOk result (λ names. AreUnderNames vars.now names) }
    {
        let mut names = VarNames::new(alloc);
        for (place, info) in vars.iter().enumerate() {
            names = names.with(info.name.as_slice(), VarId(place as u32))?;
        }
        Ok(names)
    }
}
