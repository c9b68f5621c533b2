//! A replay: random small samples over variables of every kind are fed to an engine, and after each sample all that it answers and
//! keeps is compared with the definitions, worked out over the whole list of samples.
#![tactic(auto)]

mod asking;
mod both;
mod habits;
mod keeping;
mod leading;
mod listed;
mod noise;
mod replaying;
mod sampling;
mod slots;
mod tally;
mod texts;
mod tuples;
mod variables;

use replaying::replay;
use std::alloc::AllocError;
use std::env::Env;
use std::process::ExitCode;
use std::{env, io};
use tally::Tally;

const USAGE: &str = "usage: dk_replay SEED SETS SAMPLES
  for each of SETS seeds, from SEED on: draws variables and SAMPLES samples of them, feeds these to an engine one by one, and compares
  it after each with the definitions over all samples so far; ends with status 1 if something differs
";

// The number that a word writes.
fn number(word: Option<String>) -> Option<u64> {
    match word {
        Some(word) => word.as_str().parse::<u64>().ok(),
        None => None,
    }
}

// One line for a tally.
fn print_tally(rt: &impl Print, tally: &Tally) -> io::Result<()> {
    println!(rt;
        "{} samples, {} answers, {} counts, {} agreements, {} parts, {} slots, {} differ",
        tally.samples,
        tally.answers,
        tally.counts,
        tally.agreements,
        tally.parts,
        tally.slots,
        tally.differ
    )
}

// A line for each set of variables, and one for all; what was compared of all.
fn replay_all(
    rt: &(impl Print + AllocGlobal),
    first: u64,
    sets: u64,
    samples: u64,
) -> io::Result<Tally> {
    let mut all = Tally::new();
    for set in 0..sets {
        let seed = first.wrapping_add(set);
        let Ok(tally) = replay(rt.alloc(), seed, samples) else {
            return Err(AllocError.into());
        };
        print!(rt; "seed {seed}: ")?;
        print_tally(rt, &tally)?;
        all.add(&tally);
    }
    print!(rt; "all: ")?;
    print_tally(rt, &all)?;
    Ok(all)
}

// Replays what the words ask for; the status to end with.
fn run(rt: &(impl Print + Env + AllocGlobal)) -> io::Result<u8> {
    let mut words = env::args(rt)?;
    let seed = number(words.nth(1));
    let sets = number(words.next());
    let samples = number(words.next());
    let (Some(seed), Some(sets), Some(samples)) = (seed, sets, samples) else {
        print!(rt; "{USAGE}")?;
        return Ok(2);
    };
    let all = replay_all(rt, seed, sets, samples)?;
    Ok(if all.differ == 0 { 0 } else { 1 })
}

fn main(rt: HostRuntime) -> ExitCode {
    match run(&rt) {
        Ok(status) => ExitCode::from(status),
        Err(_) => ExitCode::from(2),
    }
}
