// What many samples cost an engine.
use crate::declared::engine_in;
use crate::drawing::{Samples, Task, take_all};
use crate::faults::Fault;
use dk_engine::Engine;
use std::time::{Clock, Duration, Instant};

// How often many samples are fed, each time to an engine of none; the shortest time counts.
const RUNS: usize = 5;

/// A point's declaration, drawn samples of it, and how many.
#[derive(Clone, Copy)]
pub struct Run<'a> {
    pub name: &'a str,
    pub point: &'a [u8],
    pub samples: Samples,
    pub count: u32,
}

// The time of a task with the samples of a run, which is done to an engine of none; and the engine, with how many samples it takes.
#[derive(Drop)]
struct Timed {
    time: Duration,
    engine: Engine,
    taken: u32,
}

fn time_once(rt: &(impl Clock + AllocGlobal), task: Task, run: Run<'_>) -> Result<Timed, Fault> {
    let alloc = rt.alloc();
    let mut engine = engine_in(alloc, run.point)?;
    let start = Instant::now(rt)?;
    let taken = take_all(alloc, &mut engine, task, run.samples, run.count)?;
    let time = start.elapsed(rt)?;
    Ok(Timed {
        time,
        engine,
        taken,
    })
}

// The shortest of some times.
fn time_best(rt: &(impl Clock + AllocGlobal), task: Task, run: Run<'_>) -> Result<Timed, Fault> {
    let mut best = time_once(rt, task, run)?;
    for _ in 1..RUNS {
        let next = time_once(rt, task, run)?;
        if next.time < best.time {
            best = next;
        }
    }
    Ok(best)
}

/// Prints the line of a run. What it takes to draw the samples, and to look whether they are samples, is timed by itself, and isn't
/// the engine's.
pub fn print_fed(rt: &(impl Print + Clock + AllocGlobal), run: Run<'_>) -> Result<(), Fault> {
    let drawn = time_best(rt, Task::Look, run)?.time.as_secs_f64();
    let timed = time_best(rt, Task::Feed, run)?;
    let seconds = timed.time.as_secs_f64();
    let name = run.name;
    let vars = timed.engine.vars().len();
    let taken = timed.taken;
    let slots = timed.engine.counts().slots;
    let fed = seconds - drawn;
    let micros = fed * 1e6 / f64::from(run.count);
    println!(rt;
        "{name:<10} {vars:>8} {taken:>8} {slots:>8} {seconds:>8.2} {drawn:>8.2} {fed:>8.2} {micros:>8.2}"
    )?;
    Ok(())
}
