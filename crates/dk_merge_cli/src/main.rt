//! The command `dk_merge`: it merges states of several runs into one, or reads the traces of several recorders in turns, and reports what
//! holds in all their samples.
#![tactic(auto)]

use dk_events::Ended;
use dk_io::{Inputs, Sinks};
use dk_main::{Main, run_main};
use dk_merge::{run_merge, tell_usage};
use std::alloc::Global;
use std::process::ExitCode;

struct Merge;

impl Main for Merge {
    fn run<I: Inputs, S: Sinks>(
        alloc: Global,
        words: &[String],
        inputs: &mut I,
        sinks: &mut S,
    ) -> Ended {
        run_merge(alloc, words, inputs, sinks)
    }

    fn refuse<S: Sinks>(sinks: &mut S) -> Ended {
        tell_usage(sinks)
    }
}

fn main(rt: HostRuntime) -> ExitCode {
    run_main::<Merge, _, _, _>(&rt, rt.stdout(), rt.stderr())
}
