//! The command `dk_split`: it reads files of declarations and records, and reports what holds of the variables of a point where a Bool is
//! true, or where it is false, and not in all samples.
#![tactic(auto)]

use dk_events::Ended;
use dk_io::{Inputs, Sinks};
use dk_main::{Main, run_main};
use dk_split::{run_split, tell_usage};
use std::alloc::Global;
use std::process::ExitCode;

struct Split;

impl Main for Split {
    fn run<I: Inputs, S: Sinks>(
        alloc: Global,
        words: &[String],
        inputs: &mut I,
        sinks: &mut S,
    ) -> Ended {
        run_split(alloc, words, inputs, sinks)
    }

    fn refuse<S: Sinks>(sinks: &mut S) -> Ended {
        tell_usage(sinks)
    }
}

fn main(rt: HostRuntime) -> ExitCode {
    run_main::<Split, _, _, _>(&rt, rt.stdout(), rt.stderr())
}
