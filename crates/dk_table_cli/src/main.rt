//! The command `dk_table`: it writes tables of comma-separated values as traces.
#![tactic(auto)]

use dk_events::Ended;
use dk_io::{Inputs, Sinks};
use dk_main::{Main, run_main};
use dk_table::{run_table, tell_usage};
use std::alloc::Global;
use std::process::ExitCode;

struct Table;

impl Main for Table {
    fn run<I: Inputs, S: Sinks>(
        alloc: Global,
        words: &[String],
        inputs: &mut I,
        sinks: &mut S,
    ) -> Ended {
        run_table(alloc, words, inputs, sinks)
    }

    fn refuse<S: Sinks>(sinks: &mut S) -> Ended {
        tell_usage(sinks)
    }
}

fn main(rt: HostRuntime) -> ExitCode {
    run_main::<Table, _, _, _>(&rt, rt.stdout(), rt.stderr())
}
