// State files that are joined, each of which is read once.
ghost use Rattle.std.specs.Prelude.{◌≡◌, Bool, IfErr, IfOk, List};
ghost use Rattle.dk_hierarchy.specs.Samples.{OwnSamples};
ghost use Rattle.dk_merging.specs.Loading.{AreOfOneHead, IsBadOr, IsLoadOf, MakesBoth, text_of, texts_of};
ghost use Rattle.dk_merging.specs.Merging.{AnswersMerge, CanBeMerged, GivesBoth, file_of_both};
ghost use Rattle.dk_points.specs.Table.{Point};
ghost use Rattle.dk_state.specs.Spelling.{IsSpelling};
ghost use Rattle.dk_state.specs.StateFile.{state_file_of};
ghost use Rattle.dk_template.specs.declared.grammar.Grammar.{Grammar as Grammars};

use crate::engines::engines_of_both;
use crate::fronts::front_of;
use crate::numbers::read_engines;
use dk_base::{NoMemory, Text, same_bytes};
use dk_join::JoinFault;
use dk_state::{LoadFault, Loaded, load, save};
use std::alloc::Global;
use std::marker::Model;
use thiserror::Error;

/// Why two state files make none.
#[derive(Clone, Copy, Debug, Drop, PartialEq, Eq, Error)]
pub enum MergeFault {
    /// The first bytes are no spelling of a state.
    #[error("the first is no state")]
    BadFirst,
    /// The second bytes are no spelling of a state.
    #[error("the second is no state")]
    BadSecond,
    /// The two differ in front of what is kept of samples.
    #[error("the states differ in what they declare")]
    Different,
    /// The join of a point's engines can't be saved.
    #[error("the join of the states is no state")]
    Joined,
    /// Memory could not be had.
    #[error("out of memory")]
    NoMemory,
}

impl From<NoMemory> for MergeFault {
    ghost use Rattle.std.specs.Prelude.{◌≡◌};
    ghost use Rattle.dk_merging.specs.declared.merging.MergeFault.TheVariants as fault;

    ghost from_gives = { λ _ e. e ≡ fault.NoMemory };

    fn from(_: NoMemory) -> Self {
        MergeFault::NoMemory
    }
}

impl From<JoinFault> for MergeFault {
    ghost use Rattle.dk_merging.specs.Faults.{IsJoinFault};

    ghost from_gives = { IsJoinFault };

    fn from(fault: JoinFault) -> Self {
        match fault {
            JoinFault::Joined => MergeFault::Joined,
            JoinFault::NoMemory => MergeFault::NoMemory,
        }
    }
}

// What a state file says, or this fault for bytes that are none.
fn load_or(alloc: Global, bytes: &[u8], bad: MergeFault) -> Result<Loaded, MergeFault>
    ensures loaded { IfOk result (IsLoadOf bytes.now) }
    ensures bad { IfErr result (IsBadOr bytes.now bad) }
{
    match load(alloc, bytes) {
        Ok(loaded) => Ok(loaded),
        Err(LoadFault::BadState) => Err(bad),
        Err(LoadFault::NoMemory) => Err(MergeFault::NoMemory),
    }
}

// What two states that declare the same say together.
fn joined(alloc: Global, one: Loaded, other: Loaded) -> Result<Loaded, MergeFault>
    requires { AreOfOneHead one other }
    ensures { MakesBoth one other result }
{
    let engines = engines_of_both(alloc, one.engines, other.engines)?;
    read_engines(engines.as_slice());
    Ok(Loaded {
        points: one.points,
        engines,
        implicit: one.implicit,
        grammar: one.grammar,
    })
}

/// States that are joined: what they say together, as it is loaded, and what stands in front of what is kept in the file of each.
#[derive(Drop)]
pub struct JoinedStates {
    loaded: Loaded,
    front: Text,
}

impl Model for JoinedStates {
    ghost use Rattle.std.specs.Prelude.{◌≡◌};
    ghost use Rattle.dk_merging.specs.Fronts.{front_of};
    ghost use Rattle.dk_merging.specs.Loading.{IsLoadOf, text_of};
    ghost use Rattle.dk_state.specs.declared.loading.Loaded.{Loaded};

    ghost Value = { Loaded };

    ghost view = { λ s. s.loaded };

    ghost invariant = { λ s. IsLoadOf (text_of s.loaded) s.loaded × (s.front ≡ front_of (text_of s.loaded)) };
}

impl JoinedStates {
    /// What one state file says. `BadFirst` comes exactly where the bytes are no spelling of a state.
    pub fn of(alloc: Global, file: &[u8]) -> Result<JoinedStates, MergeFault>
        ensures text { IfOk result (λ states. text_of states ≡ file.now) }
        ensures spelling { IfOk result (λ states. IsSpelling file.now) }
        ensures bad { IfErr result (IsBadOr file.now MergeFault.BadFirst) }
    {
        let loaded = load_or(alloc, file, MergeFault::BadFirst)?;
        let front = Text::from_slice(alloc, front_of(file))?;
        Ok(JoinedStates { loaded, front })
    }

    /// With one state file more, which alone is read. What they say together is what `merge_two` makes of the state file of those before,
    /// which is a spelling, and this one, with its faults.
    pub fn with(self, alloc: Global, file: &[u8]) -> Result<JoinedStates, MergeFault>
        ensures answers { AnswersMerge (text_of self) file.now (texts_of result) }
        ensures spelling { IsSpelling (text_of self) }
        ensures both { (g : Grammars) (ps : List Point) (implicit : Bool) (own others : OwnSamples) → CanBeMerged g ps own others → state_file_of g ps implicit own ≡ text_of self → state_file_of g ps implicit others ≡ file.now → GivesBoth (file_of_both g ps implicit own others) (texts_of result) }
    {
        let other = load_or(alloc, file, MergeFault::BadSecond)?;
        let JoinedStates { loaded, front } = self;
        if !same_bytes(front.as_slice(), front_of(file)) {
            return Err(MergeFault::Different);
        }
        let both = joined(alloc, loaded, other)?;
        Ok(JoinedStates {
            loaded: both,
            front,
        })
    }

    /// The state file of all.
    pub fn text(&self, alloc: Global) -> Result<Text, NoMemory>
        ensures { IfOk result (λ text. text ≡ text_of self.now) }
    {
        save(
            alloc,
            &self.loaded.points,
            self.loaded.engines.as_slice(),
            self.loaded.implicit,
            self.loaded.grammar,
        )
    }

    /// What they say together. It is what their state file says: it stands for every history of which that is the state file.
    pub fn into_loaded(self) -> Loaded
        ensures same { result ≡ self }
        ensures held { IsLoadOf (text_of self) result }
    {
        self.loaded
    }
}

/// The state file of what two state files say together: the common declarations and, for each point, the join of both engines or the
/// engine that alone has samples. Of files of histories of one table, comparability word and grammar, with at most 2^40 own samples for
/// each point in all, it is that of the history with the samples of both. BadFirst and BadSecond come exactly where the bytes are no
/// spelling, Different exactly where the files differ in front of their first line of `samples`, or of `end-state` where there is none,
/// and Joined exactly where the join at a point with samples in both can't be saved; in this order.
pub fn merge_two(alloc: Global, first: &[u8], second: &[u8]) -> Result<Text, MergeFault>
    ensures answers { AnswersMerge first.now second.now result }
    ensures both { (g : Grammars) (ps : List Point) (implicit : Bool) (own others : OwnSamples) → CanBeMerged g ps own others → state_file_of g ps implicit own ≡ first.now → state_file_of g ps implicit others ≡ second.now → GivesBoth (file_of_both g ps implicit own others) result }
{
    let one = JoinedStates::of(alloc, first)?;
    let both = one.with(alloc, second)?;
    Ok(both.text(alloc)?)
}
