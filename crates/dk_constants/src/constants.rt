// Constant leaders with their values.
ghost use Rattle.std.specs.Prelude.{◌≡◌, ◌≢◌, ◌↔◌, ◌<◌, [], ◌∷◌, ◌++◌, All, IfOk, IsTrue, List, length, map, None, option_copied};
ghost use Rattle.std.specs.List.{AllPairs};
ghost use Rattle.dk_base.specs.Values.{values_of};
ghost use Rattle.dk_base.specs.declared.kinds.VarId.{VarId};
ghost use Rattle.dk_base.specs.declared.values.Value.{Value};
ghost use Rattle.dk_samples.specs.Leaders.{LeadNow, VarsAscend as LeadersAscend};
ghost use Rattle.dk_samples.specs.Samples.{value_in};
ghost use Rattle.dk_constants.specs.Constants.{AreConstants, AreFed, HaveEnded};
ghost use Rattle.dk_constants.specs.Known.{EntriesAscend, known_at};

use crate::kept::copies;
use crate::places::find;
use crate::steps::{are_still, feed_constants};
use dk_base::{List, NoMemory, Value, VarId, View};
use dk_samples::value_at;
use std::alloc::Global;
use std::marker::Model;

/// The leaders that have had one value in all samples, each with its value. Contracts see them as a list of pairs that ascends by
/// the leaders.
#[derive(Debug, Drop)]
pub struct Constants {
    alloc: Global,
    known: Vec<(VarId, Value)>,
}

impl Model for Constants {
    ghost use Rattle.dk_constants.specs.Known.{Entries, EntriesAscend};

    ghost Value = { Entries };

    ghost view = { λ c. c.known.items };

    ghost invariant = { λ c. EntriesAscend c.known.items };
}

impl Constants {
    /// The constants of a first sample: all leaders, each with its value there. The leaders ascend.
    pub fn first(
        alloc: Global,
        leaders: &[VarId],
        sample: &[View<'_>],
    ) -> Result<Constants, NoMemory>
        requires { LeadersAscend leaders.now }
        ensures exact { IfOk result (λ c. c ≡ map (λ v. (v, value_in (values_of sample.now) v)) leaders.now) }
        ensures stands { IfOk result (λ c. AreConstants leaders.now (values_of sample.now ∷ []) c) }
    {
        let mut known = Vec::new(alloc);
        for v in leaders {
            known.push((*v, Value::keep(alloc, value_at(sample, *v))?))?;
        }
        Ok(Constants { alloc, known })
    }

    /// These constant leaders with their values, possibly none. The leaders ascend.
    pub fn from_known(alloc: Global, known: List<(VarId, Value)>) -> Result<Constants, NoMemory>
        requires { EntriesAscend known }
        ensures { IfOk result (λ c. c ≡ known) }
    {
        Ok(Constants {
            alloc,
            known: known.into_vec(),
        })
    }

    /// The constant leaders with their values, ascending.
    pub fn entries(&self) -> &[(VarId, Value)]
        ensures all { result.now ≡ self.now }
        ensures ascend { EntriesAscend self.now }
    {
        self.known.as_slice()
    }

    /// The value of a constant leader.
    pub fn value(&self, leader: VarId) -> Option<&Value>
        ensures { option_copied result ≡ known_at self.now leader }
    {
        find(self.known.as_slice(), leader)
    }

    /// The constants with one sample more, and those that ended with their old values, ascending. Where classes were split before,
    /// each new leader stands in `new` with its old one, and has had that one's value. The new leaders differ and aren't known.
    /// Where none is new and none ended, these are the same constants.
    pub fn feed(
        self,
        new: &[(VarId, VarId)],
        sample: &[View<'_>],
    ) -> Result<(Constants, List<(VarId, Value)>), NoMemory>
        requires differ { AllPairs (λ m n. m.0.0 ≢ n.0.0) new.now }
        requires unknown { All (λ n. known_at self n.0 ≡ None) new.now }
        ensures exact { IfOk result (λ r. AreFed self new.now (values_of sample.now) r.0 r.1) }
        ensures same { IfOk result (λ r. new.now ≡ [] → r.1 ≡ [] → r.0 ≡ self) }
        ensures stands { IfOk result (λ r. (leaders now : List VarId) (samples : List (List Value)) → 0 < length samples → AreConstants leaders samples self → LeadNow leaders new.now samples now → AreConstants now (samples ++ values_of sample.now ∷ []) r.0 × HaveEnded now samples (values_of sample.now) r.1) }
    {
        let Constants { alloc, known } = self;
        let (known, ended) = feed_constants(alloc, known, new, sample)?;
        Ok((Constants { alloc, known }, ended))
    }

    /// Whether the sample has each of the values.
    pub fn stays_with(&self, sample: &[View<'_>]) -> bool
        ensures { IsTrue result ↔ AreFed self.now [] (values_of sample.now) self.now [] }
    {
        are_still(self.known.as_slice(), sample)
    }

    /// As `feed` gives them. These stay as they are.
    pub fn feed_with(
        &self,
        new: &[(VarId, VarId)],
        sample: &[View<'_>],
    ) -> Result<(Constants, List<(VarId, Value)>), NoMemory>
        requires differ { AllPairs (λ m n. m.0.0 ≢ n.0.0) new.now }
        requires unknown { All (λ n. known_at self.now n.0 ≡ None) new.now }
        ensures { IfOk result (λ r. AreFed self.now new.now (values_of sample.now) r.0 r.1) }
    {
        let known = copies(self.alloc, self.known.as_slice())?;
        let (known, ended) = feed_constants(self.alloc, known, new, sample)?;
        let constants = Constants {
            alloc: self.alloc,
            known,
        };
        Ok((constants, ended))
    }
}
