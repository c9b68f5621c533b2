//! The command `dk_check`: it reads a report, or lines like its lines, and files of declarations and records, and reports for each text
//! whether it holds in all samples of its point.
#![tactic(auto)]

use dk_check::{run_check, tell_usage};
use dk_events::Ended;
use dk_io::{Inputs, Sinks};
use dk_main::{Main, run_main};
use std::alloc::Global;
use std::process::ExitCode;

struct Check;

impl Main for Check {
    fn run<I: Inputs, S: Sinks>(
        alloc: Global,
        words: &[String],
        inputs: &mut I,
        sinks: &mut S,
    ) -> Ended {
        run_check(alloc, words, inputs, sinks)
    }

    fn refuse<S: Sinks>(sinks: &mut S) -> Ended {
        tell_usage(sinks)
    }
}

fn main(rt: HostRuntime) -> ExitCode {
    run_main::<Check, _, _, _>(&rt, rt.stdout(), rt.stderr())
}
