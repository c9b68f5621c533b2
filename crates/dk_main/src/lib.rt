//! The `main` of programs: the words of the process, real files and streams, and the status at the end.
#![tactic(auto)]

use dk_events::Ended;
use dk_host::{FileInputs, HostSinks};
use dk_io::{Inputs, Sinks};
use std::alloc::Global;
use std::io::{ErrorKind, Write};
use std::process::ExitCode;
use std::rt::{Env, Files};
use std::{env, io};

/// A program, over any inputs and sinks.
pub trait Main {
    /// Does what the words behind the program's name say.
    fn run<I: Inputs, S: Sinks>(
        alloc: Global,
        words: &[String],
        inputs: &mut I,
        sinks: &mut S,
    ) -> Ended;

    /// Tells that the words are refused.
    fn refuse<S: Sinks>(sinks: &mut S) -> Ended;
}

// The words behind the program's name. The error is `InvalidData` where one is not UTF-8, and else memory ran out.
fn words_of<R: Env + AllocGlobal>(rt: &R) -> io::Result<Vec<String>> {
    let mut words = Vec::new(rt.alloc());
    for word in env::args(rt)?.skip(1) {
        words.push(word)?;
    }
    Ok(words)
}

/// Runs the program on the words of the process and real files, with the report and the messages on these writers. Words that are not UTF-8
/// are refused. The status is that of the process.
pub fn run_main<M: Main, R: Files + Env + AllocGlobal, O: Write + Drop, E: Write + Drop>(
    rt: &R,
    output: O,
    errors: E,
) -> ExitCode {
    let mut inputs = FileInputs::new(rt);
    let mut sinks = HostSinks::new(rt, output, errors);
    let ended = match words_of(rt) {
        Ok(words) => M::run(rt.alloc(), words.as_slice(), &mut inputs, &mut sinks),
        Err(error) if error.kind() == ErrorKind::InvalidData => M::refuse(&mut sinks),
        Err(_) => Ended::NoMemory,
    };
    ExitCode::from(sinks.finish(ended.code()))
}
