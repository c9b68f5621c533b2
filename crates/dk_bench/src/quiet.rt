// What a sample costs an engine that changes none of its slots.
ghost use Rattle.std.specs.Prelude.{All};
ghost use Rattle.dk_base.specs.Values.{values_of};
ghost use Rattle.dk_base.specs.Values.Spelling.{IsWritten};

use crate::declared::{engine_in, numbers};
use crate::drawing::{Samples, Task, rising_values, take, take_all};
use crate::faults::Fault;
use crate::noise::Noise;
use dk_base::{NoMemory, View};
use dk_engine::Engine;
use std::alloc::Global;
use std::time::{Clock, Duration, Instant};

// How often a sample that changes nothing is fed in a round, and how many rounds there are; the shortest counts.
const TURNS: u32 = 1000;

const ROUNDS: usize = 60;

// Feeds one of two samples again and again, in no order.
#[inline(never)]
fn feed_again(engine: &mut Engine, a: &[View<'_>], b: &[View<'_>]) -> Result<(), NoMemory>
    requires a { All IsWritten (values_of a.now) }
    requires b { All IsWritten (values_of b.now) }
{
    let mut noise = Noise::new();
    for _ in 0..TURNS {
        if noise.below(2) == 0 {
            take(engine, Task::Feed, a)?;
        } else {
            take(engine, Task::Feed, b)?;
        }
    }
    Ok(())
}

// The time of the shortest round in which two samples are fed again and again.
fn shortest(
    clock: &impl Clock,
    engine: &mut Engine,
    a: &[View<'_>],
    b: &[View<'_>],
) -> Result<Duration, Fault>
    requires a { All IsWritten (values_of a.now) }
    requires b { All IsWritten (values_of b.now) }
{
    let mut best = Duration::MAX;
    for _ in 0..ROUNDS {
        let start = Instant::now(clock)?;
        feed_again(engine, a, b)?;
        best = best.min(start.elapsed(clock)?);
    }
    Ok(best)
}

// The engine of so many rising numbers in a hundred samples.
fn risen(alloc: Global, vars: u32) -> Result<Engine, Fault> {
    let mut engine = engine_in(alloc, numbers(alloc, vars)?.as_slice())?;
    take_all(alloc, &mut engine, Task::Feed, Samples::Rising, 100)?;
    Ok(engine)
}

/// Prints the line of two samples that change nothing, of so many rising numbers, behind a hundred others.
pub fn print_quiet(rt: &(impl Print + Clock + AllocGlobal), vars: u32) -> Result<(), Fault> {
    let alloc = rt.alloc();
    let mut noise = Noise::new();
    let mut engine = risen(alloc, vars)?;
    let a = rising_values(alloc, &mut noise, vars as usize)?;
    let b = rising_values(alloc, &mut noise, vars as usize)?;
    let time = shortest(rt, &mut engine, &a, &b)?;
    let nanos = time.as_secs_f64() * 1e9 / f64::from(TURNS);
    let slots = engine.counts().slots.min(1_000_000) as u32;
    let each = nanos / f64::from(slots);
    println!(rt; "{vars:>8} {slots:>8} {nanos:>9.0} {each:>9.2}")?;
    Ok(())
}
