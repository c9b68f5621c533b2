// Samples that are drawn.
ghost use Rattle.std.specs.Prelude.{◌<◌, All, IfOk, IsTrue};
ghost use Rattle.dk_base.specs.Numbers.{fits_i64};
ghost use Rattle.dk_base.specs.Values.{value_of, values_of};
ghost use Rattle.dk_base.specs.Values.Spelling.{IsWritten};

use crate::noise::Noise;
use bumpalo::Bump;
use dk_base::{Arena, NoMemory, View};
use dk_derive::extend;
use dk_engine::Engine;
use std::alloc::Global;

/// What samples there are.
#[derive(Clone, Copy)]
pub enum Samples {
    /// Each number is a little above the one before it.
    Rising,
    /// Numbers without a pattern.
    Random,
    /// A counter, a constant, a number without a pattern, one of three values, one equal to the third, a multiple of six, one on a line
    /// over the counter, one that changes late, one that is missing at times, and a sum.
    Ten,
    /// Four small numbers and four sequences of up to eight numbers, with what is derived of them.
    Sequences,
}

/// What is done with the samples that are drawn.
#[derive(Clone, Copy)]
pub enum Task {
    /// It is looked whether they are samples of the engine's variables.
    Look,
    /// They are fed too.
    Feed,
}

// From which sample of ten numbers on the number that changes late has changed.
const LATE: u32 = 999_990;

// The value of a number, or of one that is missing.
fn value(number: Option<i64>) -> View<'static>
    ensures { IsWritten (value_of result) }
{
    match number {
        Some(number) => View::Int(number),
        None => View::Missing,
    }
}

// The values of numbers.
#[tactic(auto, using(crate::proofs::Written::written_push))]
fn values<'a>(alloc: Global, numbers: &[Option<i64>]) -> Result<Vec<View<'a>>, NoMemory>
    ensures { IfOk result (λ sample. All IsWritten (values_of sample.items)) }
{
    let mut sample = Vec::new(alloc);
    for number in numbers {
        sample.push(value(*number))?;
    }
    Ok(sample)
}

fn below(noise: &mut Noise, bound: u32) -> i64
    requires { 0 < bound }
{
    noise.below(u64::from(bound)) as i64
}

// So many numbers, each of which is a little above the one before it.
fn rising(alloc: Global, noise: &mut Noise, vars: usize) -> Result<Vec<Option<i64>>, NoMemory> {
    let mut numbers = Vec::new(alloc);
    let mut last = 0i64;
    for _ in 0..vars {
        last = last.wrapping_add(1).wrapping_add(below(noise, 1000));
        numbers.push(Some(last))?;
    }
    Ok(numbers)
}

/// So many values, each of which is a little above the one before it.
pub fn rising_values(
    alloc: Global,
    noise: &mut Noise,
    vars: usize,
) -> Result<Vec<View<'static>>, NoMemory>
    ensures { IfOk result (λ sample. All IsWritten (values_of sample.items)) }
{
    let numbers = rising(alloc, noise, vars)?;
    values(alloc, numbers.as_slice())
}

// So many numbers without a pattern.
fn random(alloc: Global, noise: &mut Noise, vars: usize) -> Result<Vec<Option<i64>>, NoMemory> {
    let mut numbers = Vec::new(alloc);
    for _ in 0..vars {
        numbers.push(Some(below(noise, 1_000_000)))?;
    }
    Ok(numbers)
}

// The numbers at this place among the samples of ten numbers.
fn ten(noise: &mut Noise, place: u32) -> [Option<i64>; 10] {
    let counter = i64::from(place);
    let some = below(noise, 1_000_000);
    let few = [1, 5, 9][noise.below(3) as usize];
    let multiple = below(noise, 100_000).wrapping_mul(6);
    let late = if place < LATE { 3 } else { 4 };
    let at_times = if place % 7 == 0 {
        None
    } else {
        Some(below(noise, 100))
    };
    [
        Some(counter),
        Some(42),
        Some(some),
        Some(few),
        Some(some),
        Some(multiple),
        Some(2 * counter + 1),
        Some(late),
        at_times,
        Some(counter.wrapping_add(some)),
    ]
}

// Draws eight small numbers.
fn eight(noise: &mut Noise) -> [i64; 8]
    ensures { All (λ number. IsTrue (fits_i64 number)) result }
{
    let mut numbers = [0; 8];
    for place in 0..8usize {
        numbers[place] = noise.below(100) as i64;
    }
    numbers
}

// A sequence of up to eight numbers.
fn sequence<'a>(arena: &'a Arena, noise: &mut Noise) -> Result<View<'a>, NoMemory>
    ensures { IfOk result (λ view. IsWritten (value_of view)) }
{
    let numbers = eight(noise);
    let length = noise.below(9) as usize;
    let copy: &'a [i64] = arena.try_alloc_slice_copy(&numbers[..length])?;
    Ok(View::IntSeq(copy))
}

// Four small numbers and four sequences.
#[tactic(auto, using(crate::proofs::Written::written_push))]
fn mixed<'a>(alloc: Global, arena: &'a Arena, noise: &mut Noise) -> Result<Vec<View<'a>>, NoMemory>
    ensures { IfOk result (λ sample. All IsWritten (values_of sample.items)) }
{
    let numbers = [
        Some(below(noise, 8)),
        Some(below(noise, 8)),
        Some(below(noise, 8)),
        Some(below(noise, 8)),
    ];
    let mut sample = values(alloc, &numbers)?;
    for _ in 0..4u8 {
        sample.push(sequence(arena, noise)?)?;
    }
    Ok(sample)
}

/// Does the task with a sample. Whether it is one of the engine's variables.
pub fn take(engine: &mut Engine, task: Task, sample: &[View<'_>]) -> Result<bool, NoMemory>
    requires { All IsWritten (values_of sample.now) }
{
    if !engine.takes(sample) {
        return Ok(false);
    }
    match task {
        Task::Look => {}
        Task::Feed => engine.feed(sample)?,
    }
    Ok(true)
}

// Does it with numbers.
fn take_numbers(
    alloc: Global,
    engine: &mut Engine,
    task: Task,
    numbers: &[Option<i64>],
) -> Result<bool, NoMemory> {
    let sample = values(alloc, numbers)?;
    take(engine, task, sample.as_slice())
}

// Does it with four small numbers and four sequences, and what is derived of them.
fn take_mixed(
    alloc: Global,
    engine: &mut Engine,
    task: Task,
    noise: &mut Noise,
) -> Result<bool, NoMemory> {
    let arena = Bump::new(alloc);
    let base = mixed(alloc, &arena, noise)?;
    let sample = extend(&arena, engine.vars(), base.as_slice())?;
    take(engine, task, sample)
}

// Does it with the sample of this place.
fn take_one(
    alloc: Global,
    engine: &mut Engine,
    task: Task,
    noise: &mut Noise,
    samples: Samples,
    place: u32,
) -> Result<bool, NoMemory> {
    let vars = engine.vars().len();
    match samples {
        Samples::Rising => take_numbers(alloc, engine, task, &rising(alloc, noise, vars)?),
        Samples::Random => take_numbers(alloc, engine, task, &random(alloc, noise, vars)?),
        Samples::Ten => take_numbers(alloc, engine, task, &ten(noise, place)),
        Samples::Sequences => take_mixed(alloc, engine, task, noise),
    }
}

/// Does it with so many samples. How many of them are the engine's variables'.
pub fn take_all(
    alloc: Global,
    engine: &mut Engine,
    task: Task,
    samples: Samples,
    count: u32,
) -> Result<u32, NoMemory> {
    let mut noise = Noise::new();
    let mut taken = 0u32;
    for place in 0..count {
        if take_one(alloc, engine, task, &mut noise, samples, place)? {
            taken = taken.saturating_add(1);
        }
    }
    Ok(taken)
}
