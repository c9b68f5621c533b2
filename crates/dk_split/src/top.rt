// The top call.
ghost use Rattle.std.specs.Prelude.{◌≡◌, map, string_bytes};
ghost use Rattle.dk_io.specs.declared.outside.Stream.TheVariants as stream;
ghost use Rattle.dk_program.specs.Ending.{EndsWith};
ghost use Rattle.dk_program.specs.Moments.{Outside, outside};
ghost use Rattle.dk_split.specs.Requests.{request_of};
ghost use Rattle.dk_split.specs.Statuses.{CompletesCalmly, IsARun, Says};
ghost use Rattle.dk_split.specs.Texts.{usage_line as usage_text};

use crate::Command;
use dk_events::Ended;
use dk_io::{Inputs, Sinks};
use dk_program::run_program;
use std::alloc::Global;

/// Tells that the words are refused.
pub fn tell_usage<S: Sinks>(sinks: &mut S) -> Ended
    ensures { EndsWith Ended.Usage stream.Messages usage_text (S.written sinks.old) (S.written sinks.new) (S.faults sinks.old) (S.faults sinks.new) result }
{
    dk_program::tell_usage::<Command, S>(sinks)
}

/// Does what the words of the command say: reads the files that they name, one after another, and writes the implications of the points
/// with own samples, or a message. Words that the command doesn't accept are answered by the usage line; those that ask for help or the
/// version, by a text on Report.
pub fn run_split<I: Inputs, S: Sinks>(
    alloc: Global,
    words: &[String],
    inputs: &mut I,
    sinks: &mut S,
) -> Ended
    // What the status says.
    ensures says { let before : Outside = outside (I.file inputs.old) (I.rest inputs.old) (I.faults inputs.old) (S.written sinks.old) (S.faults sinks.old) in
        let after : Outside = outside (I.file inputs.new) (I.rest inputs.new) (I.faults inputs.new) (S.written sinks.new) (S.faults sinks.new) in
        Says result (request_of (map string_bytes words.now)) before after }
    // Where the words ask for no run nothing is read.
    ensures unread { (IsARun (request_of (map string_bytes words.now)) → ⊥) → inputs.new ≡ inputs.old }
    // Where the files are held and no fault of the outside rises, the run comes to its end.
    ensures complete { let before : Outside = outside (I.file inputs.old) (I.rest inputs.old) (I.faults inputs.old) (S.written sinks.old) (S.faults sinks.old) in
        let after : Outside = outside (I.file inputs.new) (I.rest inputs.new) (I.faults inputs.new) (S.written sinks.new) (S.faults sinks.new) in
        CompletesCalmly (request_of (map string_bytes words.now)) before after result }
    ensures files { I.file inputs.new ≡ I.file inputs.old }
{
    run_program::<Command, I, S>(alloc, words, inputs, sinks)
}
