//! The command `dk_tell`: it reads a report, and files of declarations, and tells the report's lines as objects of JSON, as functions of
//! Python, C or SMT-LIB, or as a page.
#![tactic(auto)]

use dk_events::Ended;
use dk_io::{Inputs, Sinks};
use dk_main::{Main, run_main};
use dk_tell::{run_tell, tell_usage};
use std::alloc::Global;
use std::process::ExitCode;

struct Tell;

impl Main for Tell {
    fn run<I: Inputs, S: Sinks>(
        alloc: Global,
        words: &[String],
        inputs: &mut I,
        sinks: &mut S,
    ) -> Ended {
        run_tell(alloc, words, inputs, sinks)
    }

    fn refuse<S: Sinks>(sinks: &mut S) -> Ended {
        tell_usage(sinks)
    }
}

fn main(rt: HostRuntime) -> ExitCode {
    run_main::<Tell, _, _, _>(&rt, rt.stdout(), rt.stderr())
}
