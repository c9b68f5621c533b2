// The top call.
ghost use Rattle.std.specs.Prelude.{◌≡◌, ◌≤◌, IfSome, Some, map, string_bytes};
ghost use Rattle.dk_io.specs.declared.outside.Stream.TheVariants as stream;
ghost use Rattle.dk_program.specs.Ending.{EndsWith};
ghost use Rattle.dk_program.specs.Moments.{Outside, outside};
ghost use Rattle.dk_program.specs.Statuses.{IsARun};
ghost use Rattle.dk_merge.specs.Histories.{MergesHistories};
ghost use Rattle.dk_merge.specs.Recorders.{WritesAsWithoutTurns};
ghost use Rattle.dk_merge.specs.Statuses.{CompletesCalmly, Says};
ghost use Rattle.dk_merge_command_line.specs.Requests.{request_of};
ghost use Rattle.dk_merge_command_line.specs.Texts.{usage_line as usage_text};
ghost use Rattle.dk_arguments.specs.declared.request.Request.TheVariants as request;

use crate::gathering::{Untaken, gather, name_at};
use crate::telling::tell_gathered;
use dk_events::Ended;
use dk_io::{Inputs, Sinks};
use dk_merge_command_line::Command;
use dk_program::{asked_run, tell_file_fault};
use std::alloc::Global;

/// Tells that the words are refused.
pub fn tell_usage<S: Sinks>(sinks: &mut S) -> Ended
    ensures { EndsWith Ended.Usage stream.Messages usage_text (S.written sinks.old) (S.written sinks.new) (S.faults sinks.old) (S.faults sinks.new) result }
{
    dk_program::tell_usage::<Command, S>(sinks)
}

// Does what a command says.
fn run_command<I: Inputs, S: Sinks>(
    alloc: Global,
    command: &Command,
    inputs: &mut I,
    sinks: &mut S,
) -> Ended
    requires { IfSome command.now.turns (λ n. 1 ≤ n) }
    ensures says { let before : Outside = outside (I.file inputs.old) (I.rest inputs.old) (I.faults inputs.old) (S.written sinks.old) (S.faults sinks.old) in
        let after : Outside = outside (I.file inputs.new) (I.rest inputs.new) (I.faults inputs.new) (S.written sinks.new) (S.faults sinks.new) in
        Says result (Some (request.Run command.now)) before after }
    ensures files { I.file inputs.new ≡ I.file inputs.old }
{
    match gather(alloc, command, inputs) {
        Ok(gathering) => tell_gathered(alloc, command.least, gathering.gathered, sinks),
        Err(Untaken { place, fault }) => {
            let name = name_at(command.files.as_slice(), place);
            tell_file_fault(alloc, name, fault, sinks)
        }
    }
}

/// Does what the words of the command say: reads the files that they name whole, one after another, and writes the state that they come to
/// and its last report, or, where they are taken in turns, what daikon writes of them as one file, or a message. Words that the command
/// doesn't accept are answered by the usage line; those that ask for help or the version, by a text on Report.
pub fn run_merge<I: Inputs, S: Sinks>(
    alloc: Global,
    words: &[String],
    inputs: &mut I,
    sinks: &mut S,
) -> Ended
    // What the status says.
    ensures says { let before : Outside = outside (I.file inputs.old) (I.rest inputs.old) (I.faults inputs.old) (S.written sinks.old) (S.faults sinks.old) in
        let after : Outside = outside (I.file inputs.new) (I.rest inputs.new) (I.faults inputs.new) (S.written sinks.new) (S.faults sinks.new) in
        Says result (request_of (map string_bytes words.now)) before after }
    // Where the words ask for no run nothing is read.
    ensures unread { (IsARun (request_of (map string_bytes words.now)) → ⊥) → inputs.new ≡ inputs.old }
    // Where the files are held and no fault of the outside rises, the run comes to its end.
    ensures complete { let before : Outside = outside (I.file inputs.old) (I.rest inputs.old) (I.faults inputs.old) (S.written sinks.old) (S.faults sinks.old) in
        let after : Outside = outside (I.file inputs.new) (I.rest inputs.new) (I.faults inputs.new) (S.written sinks.new) (S.faults sinks.new) in
        CompletesCalmly (request_of (map string_bytes words.now)) before after result }
    // State files of histories, in any order, come to that of the history with all their samples.
    ensures histories { let before : Outside = outside (I.file inputs.old) (I.rest inputs.old) (I.faults inputs.old) (S.written sinks.old) (S.faults sinks.old) in
        let after : Outside = outside (I.file inputs.new) (I.rest inputs.new) (I.faults inputs.new) (S.written sinks.new) (S.faults sinks.new) in
        MergesHistories (request_of (map string_bytes words.now)) before after result }
    // The traces of recorders in turns come to what they come to without turns.
    ensures recorders { let before : Outside = outside (I.file inputs.old) (I.rest inputs.old) (I.faults inputs.old) (S.written sinks.old) (S.faults sinks.old) in
        let after : Outside = outside (I.file inputs.new) (I.rest inputs.new) (I.faults inputs.new) (S.written sinks.new) (S.faults sinks.new) in
        WritesAsWithoutTurns (request_of (map string_bytes words.now)) before after result }
    ensures files { I.file inputs.new ≡ I.file inputs.old }
{
    match asked_run::<Command, S>(alloc, words, sinks) {
        Ok(command) => run_command(alloc, &command, inputs, sinks),
        Err(ended) => ended,
    }
}
