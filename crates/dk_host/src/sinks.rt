// The real streams. They count each error, tell no bytes, and say at the end what went wrong.
ghost use Rattle.std.specs.Prelude.{◌≡◌, ◌≢◌, ◌≤◌, ◌<◌, ◌==◌, length, IfOk, is_ok, if◌then◌else◌};
ghost use Rattle.dk_io.specs.Calls.{one_more};
ghost use Rattle.dk_io.specs.Outside.{Rose, HasCause};
ghost use Rattle.dk_io.specs.Streams.{untold};

use crate::replacement::Replacement;
use dk_io::{Failed, Sinks, Stream};
use std::fmt::InlineText;
use std::io;
use std::io::{ErrorKind, Write};
use std::marker::Model;
use std::rt::Files;

/// The name of the file that takes the state.
const STATE_NAME: &str = "daikon.state";

/// The number of a program's status where all is done.
const DONE: u8 = 0;

/// The number where a stream could not be written to.
const UNWRITTEN: u8 = 4;

/// The number where memory could not be had.
const NO_MEMORY: u8 = 5;

/// The room for what is said of a failed write. The system's words of an error have at most 256 bytes.
const LINE_ROOM: usize = 320;

/// A write that failed.
#[derive(Clone, Copy)]
struct Fault {
    stream: Stream,
    error: io::Error,
}

/// A writer of reports, one of messages, and the file `daikon.state` of the current folder for the state, which is replaced at the end of a
/// run that is done. Each error of the system is a fault, and so is a write that takes nothing. Contracts see the count of faults.
#[derive(Drop)]
pub struct HostSinks<R: Files + Alloc, O: Write, E: Write> {
    rt: R,
    output: O,
    errors: E,
    state: Option<Replacement<R>>,
    first: Option<Fault>,
    faults: u64,
}

impl<R: Files + Alloc, O: Write, E: Write> Model for HostSinks<R, O, E> {
    ghost use Rattle.std.specs.Prelude.{ℕ};

    ghost Value = { ℕ };

    ghost view = { λ s. s.faults };
}

impl<R: Files + Alloc, O: Write, E: Write> HostSinks<R, O, E> {
    /// Nothing is written, and no fault was met.
    pub fn new(rt: R, output: O, errors: E) -> HostSinks<R, O, E>
        ensures { result ≡ 0 }
    {
        HostSinks {
            rt,
            output,
            errors,
            state: None,
            first: None,
            faults: 0,
        }
    }

    // The status at the end. Where all else is done, the new state is put in its place.
    fn put_state(&mut self, status: u8) -> u8
        ensures becomes { result ≢ status → (status ≡ 0) × (result ≡ 4) }
        ensures rose { result ≢ status → Rose self.old self.new }
    {
        let Some(state) = &self.state else {
            return status;
        };
        if status != DONE {
            return status;
        }
        match state.put(&self.rt) {
            Ok(()) => status,
            Err(error) => {
                self.count(Stream::State, error);
                UNWRITTEN
            }
        }
    }

    fn discard_state(&self) {
        if let Some(state) = &self.state {
            state.discard(&self.rt);
        }
    }

    // Counts a fault, and remembers the first.
    fn count(&mut self, stream: Stream, error: io::Error)
        ensures counted { self.new ≡ one_more self.old }
        ensures later { self.old ≤ self.new }
        ensures rose { Rose self.old self.new }
    {
        self.faults = self.faults.saturating_add(1);
        if self.first.is_none() {
            self.first = Some(Fault { stream, error });
        }
    }

    // Says what the run doesn't say.
    fn tell(&mut self, status: u8) {
        if status == NO_MEMORY {
            self.say("daikon: out of memory\n");
        }
        let first = self.first;
        if let Some(fault) = first {
            if status == UNWRITTEN && fault.error.kind() != ErrorKind::BrokenPipe {
                self.tell_fault(fault);
            }
        }
    }

    fn tell_fault(&mut self, fault: Fault) {
        let line = fault_line(fault);
        self.say(line.as_str());
    }

    // There is no other place to say that this fails.
    fn say(&mut self, line: &str) {
        let _ = self.errors.write_all(line.as_bytes());
    }

    fn write_state(&mut self, bytes: &[u8]) -> io::Result<usize>
        requires { 0 < length bytes.now }
        ensures bound { IfOk result (λ n. n ≤ length bytes.now) }
        ensures faults { self.new ≡ self.old }
    {
        if self.state.is_none() {
            self.state = Some(Replacement::begin(&self.rt, STATE_NAME)?);
        }
        match &mut self.state {
            Some(state) => state.write(bytes),
            None => Ok(0),
        }
    }
}

impl<R: Files + Alloc + Drop, O: Write + Drop, E: Write + Drop> HostSinks<R, O, E> {
    /// Ends a run of this status: the state that it wrote, if any, replaces the file where all is done, and else is taken away; a failed
    /// write or want of memory is told on the stream of messages, but for a reader that has closed its pipe. The status is another one
    /// only where all else was done and the state could not be put in its place.
    pub fn finish(mut self, status: u8) -> u8
        ensures { result ≢ status → (status ≡ 0) × (result ≡ 4) }
    {
        let status = self.put_state(status);
        if status != DONE {
            self.discard_state();
        }
        self.tell(status);
        status
    }
}

impl<R: Files + Alloc, O: Write, E: Write> Sinks for HostSinks<R, O, E> {
    ghost written = { λ _. untold };

    ghost faults = { λ faults. faults };

    fn write(&mut self, stream: Stream, bytes: &[u8]) -> Result<usize, Failed>
        requires { 0 < length bytes.now }
        ensures some { IfOk result (λ n. 0 < n) }
        ensures bound { IfOk result (λ n. n ≤ length bytes.now) }
        ensures cause { HasCause self.old self.new result }
        ensures counted { self.new ≡ (if is_ok result then self.old else one_more self.old) }
    {
        let answer = match stream {
            Stream::Report => self.output.write(bytes),
            Stream::Messages => self.errors.write(bytes),
            Stream::State => self.write_state(bytes),
        };
        match taken(answer) {
            Ok(count) => Ok(count),
            Err(error) => {
                self.count(stream, error);
                Err(Failed)
            }
        }
    }
}

// A write that takes nothing is an error.
fn taken(answer: io::Result<usize>) -> io::Result<usize>
    ensures { IfOk result (λ n. (answer ≡ Ok n) × (0 < n)) }
{
    match answer {
        Ok(0) => Err(io::Error::from(ErrorKind::WriteZero)),
        answer => answer,
    }
}

fn noun_of(stream: Stream) -> &'static str {
    match stream {
        Stream::Report => "report",
        Stream::Messages => "messages",
        Stream::State => "state",
    }
}

// What is said of a failed write. It takes no memory, since there may be none left.
fn fault_line(fault: Fault) -> InlineText<LINE_ROOM> {
    let words = InlineText::<LINE_ROOM>::of(fault.error);
    let noun = noun_of(fault.stream);
    let reason = without_number(words.as_str());
    InlineText::of(format_args!("daikon: cannot write the {noun}: {reason}\n"))
}

// The system's words of an error, without its number, which stands behind them.
fn without_number(words: &str) -> &str {
    match words.rsplit_once(" (os error ") {
        Some((reason, _)) => reason,
        None => words,
    }
}
