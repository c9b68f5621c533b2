//! A benchmark: what samples cost an engine, in memory and without reading.
#![tactic(auto)]

mod declared;
mod drawing;
mod faults;
mod fed;
mod noise;
mod plain;
mod quiet;

use declared::{MIXED, numbers};
use drawing::Samples;
use faults::Fault;
use fed::{Run, print_fed};
use plain::plain_nanos;
use quiet::print_quiet;
use std::env;
use std::time::Clock;

const USAGE: &str = "usage: dk_bench engine
  engine     nanoseconds for each slot, of a sample that changes none; seconds for many samples, without reading
";

fn print_numbers(
    rt: &(impl Print + Clock + AllocGlobal),
    name: &str,
    vars: u32,
    samples: Samples,
    count: u32,
) -> Result<(), Fault> {
    let point = numbers(rt.alloc(), vars)?;
    print_fed(
        rt,
        Run {
            name,
            point: point.as_slice(),
            samples,
            count,
        },
    )
}

fn print_tables(rt: &(impl Print + Clock + AllocGlobal)) -> Result<(), Fault> {
    let plain = plain_nanos(rt)?;
    println!(rt; "a pair of numbers in a plain loop: {plain:.2}")?;
    println!(rt; "    vars    slots    sample      slot")?;
    print_quiet(rt, 10)?;
    print_quiet(rt, 20)?;
    println!(rt; "samples        vars  samples    slots  seconds    drawn      fed   micros")?;
    print_numbers(rt, "ten", 10, Samples::Ten, 1_000_000)?;
    print_numbers(rt, "random", 100, Samples::Random, 1000)?;
    print_numbers(rt, "random", 200, Samples::Random, 300)?;
    print_fed(
        rt,
        Run {
            name: "sequences",
            point: MIXED,
            samples: Samples::Sequences,
            count: 100_000,
        },
    )
}

fn main(rt: HostRuntime) -> Result<(), Fault> {
    let mut words = env::args(&rt)?;
    match words.nth(1) {
        Some(word) if word.as_str() == "engine" => print_tables(&rt),
        _ => Ok(print!(rt; "{USAGE}")?),
    }
}
