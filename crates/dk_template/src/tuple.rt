// At most three variables.
ghost use Rattle.std.specs.Prelude.{◌≡◌, ◌≤◌, length};

use arrayvec::ArrayVec;
use dk_base::VarId;
use std::marker::Model;

/// At most three variables, which lie inline; contracts see them as a list.
#[derive(Debug, Drop)]
pub struct Tuple {
    items: ArrayVec<VarId, 3>,
}

impl Model for Tuple {
    ghost use Rattle.std.specs.Prelude.{List, length, ◌≤◌};
    ghost use Rattle.dk_base.specs.declared.kinds.VarId.{VarId};

    ghost Value = { List VarId };

    ghost view = { λ t. t.items.items };

    ghost invariant = { λ t. length t.items.items ≤ 3 };
}

impl Tuple {
    /// These variables.
    pub fn of(vars: &[VarId]) -> Tuple
        requires { length vars.now ≤ 3 }
        ensures { result ≡ vars.now }
    {
        match ArrayVec::try_from(vars) {
            Ok(items) => Tuple { items },
            Err(_) => unreachable!(),
        }
    }

    /// The variables.
    pub fn as_slice(&self) -> &[VarId]
        ensures items { result.now ≡ self.now }
        ensures few { length result.now ≤ 3 }
    {
        self.items.as_slice()
    }
}
