// What the run of a case comes to.
ghost use Rattle.std.specs.Prelude.{◌<◌};

use crate::case::{Case, Program};
use dk_base::{List, NoMemory, Text};
use dk_check::run_check;
use dk_io::{MemoryInputs, MemorySinks, Stream};
use dk_merge::run_merge;
use dk_run::run;
use dk_split::run_split;
use dk_table::run_table;
use dk_tell::run_tell;
use dk_turns::turns;
use std::alloc::Global;

/// What a run comes to.
#[derive(Drop)]
pub struct Outcome {
    pub status: u8,
    pub report: Text,
    pub messages: Text,
    pub state: Text,
}

// How many bytes a stream takes at most.
const ROOM: usize = 1_048_576;

fn copy_of(alloc: Global, sinks: &MemorySinks, stream: Stream) -> Result<Text, NoMemory> {
    Text::from_slice(alloc, sinks.written(stream))
}

fn copied(alloc: Global, numbers: &List<u64>) -> Result<List<u64>, NoMemory> {
    List::from_slice(alloc, numbers.as_slice())
}

fn run_daikon(
    alloc: Global,
    words: &[String],
    inputs: &mut MemoryInputs,
    sinks: &mut MemorySinks,
) -> u8 {
    run(alloc, words, inputs, sinks).code()
}

fn run_dk_split(
    alloc: Global,
    words: &[String],
    inputs: &mut MemoryInputs,
    sinks: &mut MemorySinks,
) -> u8 {
    run_split(alloc, words, inputs, sinks).code()
}

fn run_dk_check(
    alloc: Global,
    words: &[String],
    inputs: &mut MemoryInputs,
    sinks: &mut MemorySinks,
) -> u8 {
    run_check(alloc, words, inputs, sinks).code()
}

fn run_dk_merge(
    alloc: Global,
    words: &[String],
    inputs: &mut MemoryInputs,
    sinks: &mut MemorySinks,
) -> u8 {
    run_merge(alloc, words, inputs, sinks).code()
}

fn run_dk_table(
    alloc: Global,
    words: &[String],
    inputs: &mut MemoryInputs,
    sinks: &mut MemorySinks,
) -> u8 {
    run_table(alloc, words, inputs, sinks).code()
}

fn run_dk_tell(
    alloc: Global,
    words: &[String],
    inputs: &mut MemoryInputs,
    sinks: &mut MemorySinks,
) -> u8 {
    run_tell(alloc, words, inputs, sinks).code()
}

// The number of blocks in a turn that the first word says.
fn blocks_in_turn(words: &[String]) -> u32
    ensures { 0 < result }
{
    match words {
        [word, ..] => word.as_str().parse::<u32>().unwrap_or(1).max(1),
        [] => 1,
    }
}

// The files as one, in turns.
fn turned(alloc: Global, case: &Case) -> Result<Outcome, NoMemory> {
    let files = case.texts(alloc)?;
    let report = turns(alloc, blocks_in_turn(case.words.as_slice()), &files)?;
    Ok(Outcome {
        status: 0,
        report,
        messages: Text::new(alloc),
        state: Text::new(alloc),
    })
}

/// What the run of a case comes to where its bytes come in pieces of this size.
pub fn outcome_of(alloc: Global, case: &Case, piece: usize) -> Result<Outcome, NoMemory>
    requires { 0 < piece }
{
    let words = case.words.as_slice();
    let failing_writes = copied(alloc, &case.failing_writes)?;
    let mut sinks = MemorySinks::new(alloc, failing_writes, piece, ROOM)?;
    let failing_reads = copied(alloc, &case.failing_reads)?;
    let mut inputs = MemoryInputs::new(case.copied_files(alloc)?, failing_reads, piece);
    let status = match case.program {
        Program::Daikon => run_daikon(alloc, words, &mut inputs, &mut sinks),
        Program::Split => run_dk_split(alloc, words, &mut inputs, &mut sinks),
        Program::Check => run_dk_check(alloc, words, &mut inputs, &mut sinks),
        Program::Merge => run_dk_merge(alloc, words, &mut inputs, &mut sinks),
        Program::Table => run_dk_table(alloc, words, &mut inputs, &mut sinks),
        Program::Tell => run_dk_tell(alloc, words, &mut inputs, &mut sinks),
        Program::Turns => return turned(alloc, case),
    };
    Ok(Outcome {
        status,
        report: copy_of(alloc, &sinks, Stream::Report)?,
        messages: copy_of(alloc, &sinks, Stream::Messages)?,
        state: copy_of(alloc, &sinks, Stream::State)?,
    })
}
