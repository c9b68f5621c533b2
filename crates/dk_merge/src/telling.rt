// Writing what a run comes to.
ghost use Rattle.std.specs.Prelude.{◌≡◌, ◌≤◌, IfSome};
ghost use Rattle.dk_merging.specs.Loading.{text_of};
ghost use Rattle.dk_turns.specs.Turns.{turns_of};
ghost use Rattle.dk_merge.specs.Gathering.{turns_by};
ghost use Rattle.dk_merge.specs.Running.{GatheredEnds, StateEnds, TurnsEnd};

use crate::gathered::Gathered;
use crate::running::{report_states, run_over};
use dk_base::{List, NoMemory, Text};
use dk_events::Ended;
use dk_io::{Sinks, Stream};
use dk_merging::JoinedStates;
use dk_program::end_with;
use dk_turns::in_turns;
use std::alloc::Global;

// Writes the last report of what states say together, and behind it their state file.
fn tell_states<S: Sinks>(alloc: Global, least: u64, states: JoinedStates, sinks: &mut S) -> Ended
    ensures { StateEnds least (text_of states) (S.written sinks.old) (S.written sinks.new) (S.faults sinks.old) (S.faults sinks.new) result }
{
    let text = match states.text(alloc) {
        Ok(text) => text,
        Err(NoMemory) => return Ended::NoMemory,
    };
    let state = text.as_slice();
    match report_states(alloc, least, states, sinks) {
        Ended::Done => end_with(sinks, Stream::State, state, Ended::Done),
        ended => ended,
    }
}

// Runs over the traces as one file, in which so many blocks of each come in turn.
fn tell_turns<S: Sinks>(
    alloc: Global,
    least: u64,
    n: u64,
    traces: &List<Text>,
    sinks: &mut S,
) -> Ended
    requires { 1 ≤ n }
    ensures { TurnsEnd least (turns_of n traces.now) (S.written sinks.old) (S.written sinks.new) (S.faults sinks.old) (S.faults sinks.new) result }
{
    match in_turns(alloc, n, traces) {
        Ok(text) => run_over(alloc, least, text, sinks),
        Err(NoMemory) => Ended::NoMemory,
    }
}

/// Writes what the files come to that were gathered. No files come to nothing.
pub(crate) fn tell_gathered<S: Sinks>(
    alloc: Global,
    least: u64,
    gathered: Gathered,
    sinks: &mut S,
) -> Ended
    requires { IfSome (turns_by gathered) (λ n. 1 ≤ n) }
    ensures { GatheredEnds least gathered (S.written sinks.old) (S.written sinks.new) (S.faults sinks.old) (S.faults sinks.new) result }
{
    match gathered {
        Gathered::State(None) => Ended::Done,
        Gathered::State(Some(states)) => tell_states(alloc, least, states, sinks),
        Gathered::Traces(n, traces) => tell_turns(alloc, least, n, &traces, sinks),
    }
}
