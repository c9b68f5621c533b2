// The variables of a block, which are found by name.
ghost use Rattle.std.specs.Prelude.{◌≡◌, ◌∷◌, ◌++◌, [], IfOk};
ghost use Rattle.dk_decl.specs.VarNames.{has_name};

use crate::decls::VarDecl;
use dk_base::{List, NoMemory};
use indexmap::IndexSet;
use std::alloc::Global;
use std::marker::Model;

/// The variables of a block so far. Whether one of them has a name is told by one look-up.
#[derive(Drop)]
pub(crate) struct Vars {
    alloc: Global,
    list: List<VarDecl>,
    names: IndexSet<Vec<u8>>,
}

impl Model for Vars {
    ghost use Rattle.std.specs.Prelude.{◌≡◌, List, ℕ};
    ghost use Rattle.std.specs.List.{list_any};
    ghost use Rattle.std.specs.Str.{bytes_eq};
    ghost use Rattle.dk_decl.specs.VarNames.{has_name};
    ghost use Rattle.dk_decl.specs.declared.decls.VarDecl.{VarDecl};

    ghost Value = { List VarDecl };

    ghost view = { λ v. v.list };

    ghost invariant = { λ v. (name : List ℕ) → list_any (λ k. bytes_eq name k.items) v.names.keys ≡ has_name name v.list };
}

impl Vars {
    /// Variables of a declaration of which no line has been read.
    pub(crate) fn new(alloc: Global) -> Vars
        ensures { result ≡ [] }
    {
        Vars {
            alloc,
            list: List::new(alloc),
            names: IndexSet::new(alloc),
        }
    }

    /// Whether one of them has this name.
    pub(crate) fn has(&self, name: &[u8]) -> bool
        ensures { result ≡ has_name name.now self.now }
    {
        self.names.contains(name)
    }

    /// The variables and this one behind them.
    pub(crate) fn with(self, var: VarDecl) -> Result<Vars, NoMemory>
        ensures { IfOk result (λ vars. vars ≡ self ++ var ∷ []) }
    {
        let Vars {
            alloc,
            mut list,
            mut names,
        } = self;
        let key = Vec::from_slice(alloc, var.name.as_slice())?;
        names.insert(key)?;
        list.push(var)?;
        Ok(Vars { alloc, list, names })
    }

    /// The variables, in order.
    pub(crate) fn into_list(self) -> List<VarDecl>
        ensures { result ≡ self }
    {
        self.list
    }
}
