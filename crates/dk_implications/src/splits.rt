// The engines of a point whose samples are split by its Bools.
ghost use Rattle.std.specs.Prelude.{◌≡◌, ◌<◌, ◌^◌, ◌++◌, ◌∷◌, [], All, IfOk, List, length, map};
ghost use Rattle.dk_base.specs.Values.{values_of};
ghost use Rattle.dk_base.specs.declared.values.Value.{Value as SampleValue};
ghost use Rattle.dk_hierarchy.specs.Samples.{all_vars_of};
ghost use Rattle.dk_implications.specs.Conditions.{base_bools, is_base_bool};
ghost use Rattle.dk_implications.specs.Standing.{AreOver, HalvesStandFor, StandFor};
ghost use Rattle.dk_instances.specs.Laws.{IsSample};

use crate::Halves;
use crate::halves::feed_all;
use dk_base::{Form, Kind, List, NoMemory, PointId, VarId, VarInfo, View};
use dk_engine::Engine;
use dk_hierarchy::engine_of;
use dk_points::Points;
use dk_template::Grammar;
use std::alloc::Global;
use std::marker::Model;

// Whether the variable is a base one and a Bool.
fn is_base_bool(infos: &[VarInfo], v: VarId) -> bool
    requires { v.0 < length infos.now }
    ensures { result ≡ is_base_bool infos.now v }
{
    let info = &infos[v.0 as usize];
    info.kind == Kind::Bool && matches!(info.form, Form::Declared | Form::Orig)
}

// The base Bools, in order.
#[tactic(auto, using(dk_filters::proofs::Listed::filter_vars_more))]
fn base_bools(alloc: Global, infos: &[VarInfo]) -> Result<List<VarId>, NoMemory>
    requires { length infos.now < 2 ^ 32 }
    ensures { IfOk result (λ list. list ≡ base_bools infos.now) }
{
    let mut list = List::new(alloc);
    for n in 0..infos.len() as u32 {
        if is_base_bool(infos, VarId(n)) {
            list.push(VarId(n))?;
        }
    }
    Ok(list)
}

// Halves of no samples by each of these Bools.
fn halves_by(
    alloc: Global,
    points: &Points,
    p: PointId,
    grammar: Grammar,
    bools: &[VarId],
) -> Result<Vec<Halves>, NoMemory>
    requires { p.0 < length points.now }
    ensures conditions { IfOk result (λ all. map (λ halves. halves.condition) all.items ≡ bools.now) }
    ensures over { IfOk result (λ all. All (AreOver grammar (all_vars_of points.now p.0)) all.items) }
    ensures stand { IfOk result (λ all. All (λ halves. HalvesStandFor halves []) all.items) }
{
    let mut all = Vec::new(alloc);
    for b in bools {
        all.push(Halves::new(alloc, points, p, grammar, *b)?)?;
    }
    Ok(all)
}

/// The engines of a point whose samples are split by its Bools: one of all its samples, and for each of its base Bools one of the samples
/// in which it is true, and one of those in which it is false.
#[derive(Drop)]
pub struct Split {
    pub(crate) alloc: Global,
    pub(crate) whole: Engine,
    pub(crate) halves: Vec<Halves>,
}

impl Model for Split {
    ghost use Rattle.dk_implications.specs.Standing.{AreEngines, Engines};

    ghost Value = { Engines };

    ghost view = { λ s. record { whole = s.whole; halves = s.halves.items } };

    ghost invariant = { λ s. AreEngines (record { whole = s.whole; halves = s.halves.items }) };
}

impl Split {
    /// The engines of a point without samples.
    pub fn new(
        alloc: Global,
        points: &Points,
        p: PointId,
        grammar: Grammar,
    ) -> Result<Split, NoMemory>
        requires { p.0 < length points.now }
        ensures grammar { IfOk result (λ split. split.whole.grammar ≡ grammar) }
        ensures infos { IfOk result (λ split. split.whole.infos ≡ all_vars_of points.now p.0) }
        ensures stand { IfOk result (λ split. StandFor split []) }
    {
        let whole = engine_of(alloc, points, p, grammar)?;
        let bools = base_bools(alloc, whole.vars())?;
        let halves = halves_by(alloc, points, p, grammar, bools.as_slice())?;
        Ok(Split {
            alloc,
            whole,
            halves,
        })
    }

    /// The engine of all samples.
    pub fn whole(&self) -> &Engine
        ensures { result.now ≡ self.now.whole }
    {
        &self.whole
    }

    /// One sample more. Of the two engines of a Bool one takes it at most: none where the Bool is missing. After want of memory the engines
    /// can be fed and asked as before, and nothing else is said of what they keep.
    pub fn feed(&mut self, sample: &[View<'_>]) -> Result<(), NoMemory>
        requires { IsSample self.old.whole.infos (values_of sample.now) }
        ensures grammar { self.new.whole.grammar ≡ self.old.whole.grammar }
        ensures infos { self.new.whole.infos ≡ self.old.whole.infos }
        ensures stand { IfOk result (λ _. (samples : List (List SampleValue)) → StandFor self.old samples → StandFor self.new (samples ++ values_of sample.now ∷ [])) }
    {
        self.whole.feed(sample)?;
        feed_all(self.halves.as_mut_slice(), sample)
    }
}
