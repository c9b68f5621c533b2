// Feeding samples to an engine, and comparing it with the definitions after each.
ghost use Rattle.std.specs.Prelude.{◌≡◌, ◌<◌, ◌^◌, All, IfOk, OnOk, length};
ghost use Rattle.dk_base.specs.Values.{values_of};
ghost use Rattle.dk_base.specs.Values.Spelling.{IsWritten};
ghost use Rattle.dk_engine.specs.Exact.{AreOfPoint};
ghost use Rattle.dk_instances.specs.Laws.{IsSample};
ghost use Rattle.dk_replay.specs.Samples.{samples_of};

use crate::asking::{compare_agreements, compare_answers, compare_counts};
use crate::both::Both;
use crate::habits::Habits;
use crate::keeping::{compare_classes, compare_constants, compare_patterns};
use crate::leading::leading_of;
use crate::listed::Listed;
use crate::noise::Noise;
use crate::sampling::sample;
use crate::slots::compare_slots;
use crate::tally::Tally;
use crate::variables::variables;
use dk_base::{Arena, List, NoMemory, View};
use dk_engine::Engine;
use dk_template::Grammar;
use std::alloc::Global;

// Compares what the engine answers and keeps.
fn compare_both(both: &Both<'_, '_>, tally: &mut Tally) -> Result<(), NoMemory> {
    compare_answers(both, tally)?;
    compare_counts(both, tally);
    compare_agreements(both, tally);
    let leading = leading_of(&both.listed)?;
    compare_classes(both, &leading, tally);
    compare_constants(both, &leading, tally)?;
    compare_patterns(both, &leading, tally)?;
    compare_slots(both, &leading, tally)
}

// Compares the engine with the definitions over the samples that were fed to it.
fn compare(
    alloc: Global,
    engine: &Engine,
    samples: &[List<View<'_>>],
    tally: &mut Tally,
) -> Result<(), NoMemory>
    requires some { 0 < length engine.now.infos }
    requires few { length engine.now.infos < 2 ^ 32 }
    requires samples { All (IsSample engine.now.infos) (samples_of samples.now) }
{
    let listed = Listed::new(alloc, engine.grammar(), engine.vars(), samples);
    compare_both(&Both { engine, listed }, tally)
}

// Draws one sample more.
fn draw<'a>(
    alloc: Global,
    arena: &'a Arena,
    noise: &mut Noise,
    habits: &Habits,
    engine: &Engine,
    samples: &[List<View<'a>>],
) -> Result<List<View<'a>>, NoMemory>
    requires { All (IsSample engine.now.infos) (samples_of samples.now) }
    ensures { IfOk result (λ next. All IsWritten (values_of next)) }
{
    match samples.last() {
        Some(last) => sample(alloc, arena, noise, habits, engine.vars(), last.as_slice()),
        None => sample(alloc, arena, noise, habits, engine.vars(), &[]),
    }
}

// Feeds the sample, if it is one of the engine's variables.
fn feed<'a>(
    engine: &mut Engine,
    samples: &mut List<List<View<'a>>>,
    next: List<View<'a>>,
) -> Result<(), NoMemory>
    requires written { All IsWritten (values_of next) }
    requires samples { All (IsSample engine.old.infos) (samples_of samples.old) }
    ensures infos { engine.new.infos ≡ engine.old.infos }
    ensures samples { OnOk result (All (IsSample engine.old.infos) (samples_of samples.new)) }
{
    if engine.takes(next.as_slice()) {
        engine.feed(next.as_slice())?;
        samples.push(next)?;
    }
    Ok(())
}

// Feeds so many samples, and compares before the first and after each.
fn feed_all(
    alloc: Global,
    arena: &Arena,
    noise: &mut Noise,
    engine: &mut Engine,
    count: u64,
    tally: &mut Tally,
) -> Result<(), NoMemory>
    requires some { 0 < length engine.old.infos }
    requires point { AreOfPoint engine.old.infos }
{
    let habits = Habits::new(noise);
    let mut samples = List::new(alloc);
    compare(alloc, engine, samples.as_slice(), tally)?;
    for _ in 0..count {
        let next = draw(alloc, arena, noise, &habits, engine, samples.as_slice())?;
        feed(engine, &mut samples, next)?;
        tally.sample();
        compare(alloc, engine, samples.as_slice(), tally)?;
    }
    Ok(())
}

// The first grammar for odd seeds, and the second one for even ones.
fn grammar_of(seed: u64) -> Grammar {
    if seed % 2 == 0 {
        Grammar::Two
    } else {
        Grammar::One
    }
}

/// Draws variables and so many samples, feeds these to an engine, and compares it with the definitions before the first and after each.
pub fn replay(alloc: Global, seed: u64, samples: u64) -> Result<Tally, NoMemory> {
    let mut noise = Noise::new(seed);
    let vars = variables(alloc, &mut noise)?;
    let mut engine = Engine::new(alloc, vars, grammar_of(seed))?;
    let arena = Arena::new(alloc);
    let mut tally = Tally::new();
    feed_all(alloc, &arena, &mut noise, &mut engine, samples, &mut tally)?;
    Ok(tally)
}
