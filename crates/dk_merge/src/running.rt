// Reports of states that are joined, and runs of daikon over one text in memory.
ghost use Rattle.std.specs.Prelude.{◌≡◌, ◌∷◌, [], IfOk, true};
ghost use Rattle.dk_merging.specs.Loading.{text_of};
ghost use Rattle.dk_merge.specs.Outputs.{plain_command};
ghost use Rattle.dk_merge.specs.Running.{ReportEnds, TurnsEnd, holding};

use dk_arguments::Word;
use dk_base::{List, NoMemory, Text};
use dk_command_line::Command;
use dk_events::Ended;
use dk_io::{Sinks, SteadyInputs};
use dk_merging::JoinedStates;
use dk_run::{report_loaded, run_command};
use std::alloc::Global;

/// How many bytes a read moves.
const PIECE: usize = 65_536;

// Inputs that hold the text as a file of this name, and nothing else.
fn holding(alloc: Global, name: &str, text: Text) -> Result<SteadyInputs, NoMemory>
    ensures { IfOk result (λ inputs. inputs ≡ holding name.now text) }
{
    let name = Text::from_slice(alloc, name.as_bytes())?;
    let mut files = List::new(alloc);
    files.push((name, text))?;
    Ok(SteadyInputs::new(files, PIECE))
}

// The command with this least number that asks for this, and for nothing else.
fn command_with(least: u64, save: bool, files: List<Word>) -> Command
    ensures { result ≡ record (plain_command least) { save = save; files = files } }
{
    Command {
        least,
        every: None,
        select: None,
        keep_implied: false,
        keep_incomparable: false,
        keep_members: false,
        keep_constant: false,
        keep_parent: false,
        ignore_missing_entry: false,
        stats: false,
        save,
        resume: None,
        generate: None,
        files,
    }
}

// The command that reads no file and asks for the last report alone.
fn reporting(alloc: Global, least: u64) -> Command
    ensures { result ≡ plain_command least }
{
    command_with(least, false, List::new(alloc))
}

// The command that reads the file of this name and saves the state.
fn saving(alloc: Global, least: u64, name: &str) -> Result<Command, NoMemory>
    ensures { IfOk result (λ command. command ≡ record (plain_command least) { save = true; files = name.now ∷ [] }) }
{
    let mut files = List::new(alloc);
    files.push(Word::from_str(alloc, name)?)?;
    Ok(command_with(least, true, files))
}

/// Writes the last report of what states say together.
pub(crate) fn report_states<S: Sinks>(
    alloc: Global,
    least: u64,
    states: JoinedStates,
    sinks: &mut S,
) -> Ended
    ensures { ReportEnds least (text_of states) (S.written sinks.old) (S.written sinks.new) (S.faults sinks.old) (S.faults sinks.new) result }
{
    let command = reporting(alloc, least);
    report_loaded(alloc, &command, states.into_loaded(), sinks)
}

/// Runs over the text as the one file `turns`: writes its report and its state, or its first fault.
pub(crate) fn run_over<S: Sinks>(alloc: Global, least: u64, text: Text, sinks: &mut S) -> Ended
    ensures { TurnsEnd least text (S.written sinks.old) (S.written sinks.new) (S.faults sinks.old) (S.faults sinks.new) result }
{
    let command = match saving(alloc, least, "turns") {
        Ok(command) => command,
        Err(NoMemory) => return Ended::NoMemory,
    };
    let mut inputs = match holding(alloc, "turns", text) {
        Ok(inputs) => inputs,
        Err(NoMemory) => return Ended::NoMemory,
    };
    run_command(alloc, &command, &mut inputs, sinks)
}
