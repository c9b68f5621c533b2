// The engines of both halves of a point's samples.
ghost use Rattle.std.specs.Prelude.{◌≡◌, ◌<◌, [], All, IfOk, length};
ghost use Rattle.std.specs.List.{AllZip};
ghost use Rattle.dk_base.specs.Values.{value_of, values_of};
ghost use Rattle.dk_hierarchy.specs.Samples.{all_vars_of};
ghost use Rattle.dk_implications.specs.Halves.{is_truth};
ghost use Rattle.dk_implications.specs.Standing.{AreAlike, AreFed, AreOver, HalvesStandFor, half_by};
ghost use Rattle.dk_instances.specs.Laws.{IsSample};

use dk_base::{NoMemory, PointId, VarId, View};
use dk_engine::Engine;
use dk_hierarchy::engine_of;
use dk_points::Points;
use dk_samples::value_at;
use dk_template::Grammar;
use std::alloc::Global;

// Whether the value is this truth value.
fn is_truth(truth: bool, value: View<'_>) -> bool
    ensures { result ≡ is_truth truth (value_of value.entry) }
{
    match value {
        View::Bool(b) => b == truth,
        _ => false,
    }
}

/// A Bool of a point, with the engine of the samples in which it is true, and that of those in which it is false.
#[derive(Drop)]
pub struct Halves {
    pub(crate) condition: VarId,
    pub(crate) when_true: Engine,
    pub(crate) when_false: Engine,
}

impl Halves {
    /// The halves of no samples.
    pub(crate) fn new(
        alloc: Global,
        points: &Points,
        p: PointId,
        grammar: Grammar,
        condition: VarId,
    ) -> Result<Halves, NoMemory>
        requires { p.0 < length points.now }
        ensures condition { IfOk result (λ halves. halves.condition ≡ condition) }
        ensures over { IfOk result (AreOver grammar (all_vars_of points.now p.0)) }
        ensures stand { IfOk result (λ halves. HalvesStandFor halves []) }
    {
        Ok(Halves {
            condition,
            when_true: engine_of(alloc, points, p, grammar)?,
            when_false: engine_of(alloc, points, p, grammar)?,
        })
    }

    /// The engine of the half in which the Bool has this truth value.
    pub(crate) fn half(&self, truth: bool) -> &Engine
        ensures { result.now ≡ half_by self.now truth }
    {
        if truth {
            &self.when_true
        } else {
            &self.when_false
        }
    }

    // One sample more. It goes to one engine at most: to none where the Bool is missing.
    fn feed(&mut self, sample: &[View<'_>]) -> Result<(), NoMemory>
        requires when_true { IsSample self.old.when_true.infos (values_of sample.now) }
        requires when_false { IsSample self.old.when_false.infos (values_of sample.now) }
        ensures alike { AreAlike self.old self.new }
        ensures fed { IfOk result (λ _. AreFed (values_of sample.now) self.old self.new) }
    {
        let value = value_at(sample, self.condition);
        if is_truth(true, value) {
            return self.when_true.feed(sample);
        }
        if is_truth(false, value) {
            return self.when_false.feed(sample);
        }
        Ok(())
    }
}

/// One sample more for all of these.
pub(crate) fn feed_all(all: &mut [Halves], sample: &[View<'_>]) -> Result<(), NoMemory>
    requires { All (λ halves. IsSample halves.when_true.infos (values_of sample.now) × IsSample halves.when_false.infos (values_of sample.now)) all.old }
    ensures alike { AllZip AreAlike all.old all.new }
    ensures fed { IfOk result (λ _. AllZip (AreFed (values_of sample.now)) all.old all.new) }
{
    for place in 0..all.len() {
        all[place].feed(sample)?;
    }
    Ok(())
}
