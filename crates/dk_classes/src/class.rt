// Classes of variables.
ghost use Rattle.std.specs.Prelude.{◌≡◌, ◌↔◌, ◌<◌, ◌^◌, [], ◌∷◌, ◌++◌, IfOk, IsTrue, List, length};
ghost use Rattle.dk_base.specs.Values.{values_of};
ghost use Rattle.dk_base.specs.declared.kinds.Kind.{Kind};
ghost use Rattle.dk_base.specs.declared.values.Value.{Value};
ghost use Rattle.dk_samples.specs.Leaders.{LeadNow, VarsAscend};
ghost use Rattle.dk_classes.specs.Classes.{AreLeaders, AreNew, IsSplit, var_kinds};
ghost use Rattle.dk_classes.specs.Leaders.{AreClasses, leader_at, own_leaders};

use crate::steps::{are_one, first_leaders, leading, split_leaders};
use dk_base::{List, NoMemory, VarId, VarInfo, View};
use std::alloc::Global;
use std::marker::Model;

/// The classes of a point's variables. Contracts see them as the list of the leaders by variable.
#[derive(Debug, Drop)]
pub struct Classes {
    alloc: Global,
    leaders: Vec<VarId>,
    own: Vec<VarId>,
}

impl Model for Classes {
    ghost use Rattle.std.specs.Prelude.{◌≡◌, List};
    ghost use Rattle.dk_base.specs.declared.kinds.VarId.{VarId};
    ghost use Rattle.dk_classes.specs.Leaders.{AreClasses, own_leaders};

    ghost Value = { List VarId };

    ghost view = { λ c. c.leaders.items };

    ghost invariant = { λ c. AreClasses c.leaders.items × (c.own.items ≡ own_leaders c.leaders.items) };
}

impl Classes {
    /// The classes of no samples: one for each kind that occurs.
    pub fn new(alloc: Global, vars: &[VarInfo]) -> Result<Classes, NoMemory>
        requires { length vars.now < 2 ^ 32 }
        ensures { IfOk result (λ c. AreLeaders (var_kinds vars.now) [] c) }
    {
        let leaders = first_leaders(alloc, vars)?;
        let own = leading(alloc, leaders.as_slice())?;
        Ok(Classes {
            alloc,
            leaders,
            own,
        })
    }

    /// The classes in which each variable has the leader at its position. No leader stands after its variable, and each is its
    /// own leader.
    pub fn from_leaders(alloc: Global, leaders: List<VarId>) -> Result<Classes, NoMemory>
        requires { AreClasses leaders }
        ensures { IfOk result (λ c. c ≡ leaders) }
    {
        let leaders = leaders.into_vec();
        let own = leading(alloc, leaders.as_slice())?;
        Ok(Classes {
            alloc,
            leaders,
            own,
        })
    }

    /// The leader of a variable.
    pub fn leader(&self, v: VarId) -> VarId
        requires { v.0 < length self.now }
        ensures { result.0 ≡ leader_at self.now v.0 }
    {
        self.leaders[v.0 as usize]
    }

    /// The leaders, each once, ascending.
    pub fn leaders(&self) -> &[VarId]
        ensures all { result.now ≡ own_leaders self.now }
        ensures ascend { VarsAscend result.now }
        ensures classes { AreClasses self.now }
    {
        self.own.as_slice()
    }

    /// The classes with a sample more, and each new leader, once, with its old one.
    pub fn split(self, sample: &[View<'_>]) -> Result<(Classes, List<(VarId, VarId)>), NoMemory>
        ensures exact { IfOk result (λ r. IsSplit self (values_of sample.now) r.0) }
        ensures new { IfOk result (λ r. AreNew self r.0 r.1) }
        ensures same { IfOk result (λ r. r.1 ≡ [] → r.0 ≡ self) }
        ensures stands { IfOk result (λ r. (kinds : List Kind) (samples : List (List Value)) → AreLeaders kinds samples self → AreLeaders kinds (samples ++ values_of sample.now ∷ []) r.0) }
        ensures lead { IfOk result (λ r. (kinds : List Kind) (samples : List (List Value)) → AreLeaders kinds samples self → LeadNow (own_leaders self) r.1 samples (own_leaders r.0)) }
    {
        if self.stays_with(sample) {
            let none = List::new(self.alloc);
            return Ok((self, none));
        }
        self.split_with(sample)
    }

    /// Whether no class splits with the sample. Then no leader is new.
    pub fn stays_with(&self, sample: &[View<'_>]) -> bool
        ensures split { IsTrue result ↔ IsSplit self.now (values_of sample.now) self.now }
        ensures new { IsTrue result → AreNew self.now self.now [] }
    {
        are_one(self.leaders.as_slice(), sample)
    }

    /// The classes with a sample more, and each new leader, once, with its old one. These stay as they are.
    pub fn split_with(
        &self,
        sample: &[View<'_>],
    ) -> Result<(Classes, List<(VarId, VarId)>), NoMemory>
        ensures exact { IfOk result (λ r. IsSplit self.now (values_of sample.now) r.0) }
        ensures new { IfOk result (λ r. AreNew self.now r.0 r.1) }
        ensures same { IfOk result (λ r. r.1 ≡ [] → r.0 ≡ self.now) }
    {
        let (leaders, new) = split_leaders(self.alloc, self.leaders.as_slice(), sample)?;
        let own = leading(self.alloc, leaders.as_slice())?;
        let classes = Classes {
            alloc: self.alloc,
            leaders,
            own,
        };
        Ok((classes, new))
    }
}
