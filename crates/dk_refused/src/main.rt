//! The command `daikon` once more, as its own stored run has a report: the one here ends with a refusal, its message and its status.
#![tactic(auto)]

use dk_events::Ended;
use dk_io::{Inputs, Sinks};
use dk_main::{Main, run_main};
use dk_run::{run, tell_usage};
use std::alloc::Global;
use std::process::ExitCode;

struct Daikon;

impl Main for Daikon {
    fn run<I: Inputs, S: Sinks>(
        alloc: Global,
        words: &[String],
        inputs: &mut I,
        sinks: &mut S,
    ) -> Ended {
        run(alloc, words, inputs, sinks)
    }

    fn refuse<S: Sinks>(sinks: &mut S) -> Ended {
        tell_usage(sinks)
    }
}

fn main(rt: HostRuntime) -> ExitCode {
    run_main::<Daikon, _, _, _>(&rt, rt.stdout(), rt.stderr())
}
