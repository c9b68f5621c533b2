// What is kept of files that were read: the state that they come to, or they themselves.
ghost use Rattle.std.specs.Prelude.{◌≡◌, [], None, Some};
ghost use Rattle.dk_merge.specs.Gathering.{HoldsAll, StatesGive, TakesFile, fault_of_merge, turns_by};

use crate::reading::refused_whole;
use dk_base::{List, NoMemory, Text, Why};
use dk_driver::FileFault;
use dk_merging::{JoinedStates, MergeFault};
use std::alloc::Global;

/// What is kept of files.
#[derive(Drop)]
pub(crate) enum Gathered {
    /// Of states what they say together, merged from the left; nothing of no files.
    State(Option<JoinedStates>),
    /// Of traces all, and how many blocks of each are taken in turn.
    Traces(u64, List<Text>),
}

fn fault_of_merge(fault: MergeFault) -> FileFault
    ensures { result ≡ fault_of_merge fault }
{
    match fault {
        MergeFault::BadFirst => refused_whole(Why::BadState),
        MergeFault::BadSecond => refused_whole(Why::BadState),
        MergeFault::Different => refused_whole(Why::DifferentState),
        MergeFault::Joined => refused_whole(Why::JoinedState),
        MergeFault::NoMemory => FileFault::NoMemory,
    }
}

// What the states in front and one more say together.
fn states_behind(
    alloc: Global,
    before: Option<JoinedStates>,
    file: &[u8],
) -> Result<JoinedStates, MergeFault>
    ensures { StatesGive before file.now result }
{
    match before {
        None => JoinedStates::of(alloc, file),
        Some(before) => before.with(alloc, file),
    }
}

// The same, with the fault of the file.
fn with_state(
    alloc: Global,
    before: Option<JoinedStates>,
    file: &[u8],
) -> Result<Gathered, FileFault>
    ensures { TakesFile (Gathered.State before) file.now result }
{
    match states_behind(alloc, before, file) {
        Ok(states) => Ok(Gathered::State(Some(states))),
        Err(fault) => Err(fault_of_merge(fault)),
    }
}

// The traces with one more.
fn with_trace(n: u64, files: List<Text>, file: Text) -> Result<Gathered, FileFault>
    ensures { TakesFile (Gathered.Traces n files) file result }
{
    let mut files = files;
    match files.push(file) {
        Ok(()) => Ok(Gathered::Traces(n, files)),
        Err(NoMemory) => Err(FileFault::NoMemory),
    }
}

impl Gathered {
    /// Of no files: of states, or of traces, so many blocks of each of which are taken in turn.
    pub(crate) fn nothing(alloc: Global, turns: Option<u64>) -> Gathered
        ensures turns { turns_by result ≡ turns }
        ensures nothing { HoldsAll [] result }
    {
        match turns {
            None => Gathered::State(None),
            Some(n) => Gathered::Traces(n, List::new(alloc)),
        }
    }

    /// With one more file.
    pub(crate) fn with(self, alloc: Global, file: Text) -> Result<Gathered, FileFault>
        ensures { TakesFile self file result }
    {
        match self {
            Gathered::State(before) => with_state(alloc, before, file.as_slice()),
            Gathered::Traces(n, files) => with_trace(n, files, file),
        }
    }
}
