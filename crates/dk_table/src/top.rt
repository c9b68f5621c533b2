// The top call.
ghost use Rattle.std.specs.Prelude.{◌≡◌, map, string_bytes};
ghost use Rattle.dk_arguments.specs.Requests.{request_of};
ghost use Rattle.dk_io.specs.declared.outside.Stream.TheVariants as stream;
ghost use Rattle.dk_program.specs.Ending.{EndsWith};
ghost use Rattle.dk_program.specs.Moments.{Outside, outside};
ghost use Rattle.dk_program.specs.Statuses.{IsARun};
ghost use Rattle.dk_table.specs.Asked.{meant, table_command};
ghost use Rattle.dk_table.specs.Statuses.{Completes, Says};

use crate::run::run_over;
use crate::words::TableArguments;
use crate::words::texts::{HELP_TEXT, VERSION_TEXT};
use dk_arguments::{ArgumentsFault, Request, read_arguments};
use dk_events::Ended;
use dk_io::{Inputs, Sinks, Stream};
use dk_program::end_with;
use std::alloc::Global;

/// Tells that the words are refused.
pub fn tell_usage<S: Sinks>(sinks: &mut S) -> Ended
    ensures { EndsWith Ended.Usage stream.Messages table_command.usage (S.written sinks.old) (S.written sinks.new) (S.faults sinks.old) (S.faults sinks.new) result }
{
    dk_program::tell_usage::<TableArguments, S>(sinks)
}

/// Does what the words of the command say: writes the trace of the tables in the files that they name, or a message. Words that the command
/// doesn't accept are answered by the usage line; those that ask for help or the version, by a text on Report.
pub fn run_table<I: Inputs, S: Sinks>(
    alloc: Global,
    words: &[String],
    inputs: &mut I,
    sinks: &mut S,
) -> Ended
    // What the status says.
    ensures says { let before : Outside = outside (I.file inputs.old) (I.rest inputs.old) (I.faults inputs.old) (S.written sinks.old) (S.faults sinks.old) in
        let after : Outside = outside (I.file inputs.new) (I.rest inputs.new) (I.faults inputs.new) (S.written sinks.new) (S.faults sinks.new) in
        Says result (request_of table_command meant (map string_bytes words.now)) before after }
    // Where the words ask for no run nothing is read.
    ensures unread { (IsARun (request_of table_command meant (map string_bytes words.now)) → ⊥) → inputs.new ≡ inputs.old }
    // Where the files are held and no fault of the outside rises, the run comes to its end.
    ensures complete { let before : Outside = outside (I.file inputs.old) (I.rest inputs.old) (I.faults inputs.old) (S.written sinks.old) (S.faults sinks.old) in
        let after : Outside = outside (I.file inputs.new) (I.rest inputs.new) (I.faults inputs.new) (S.written sinks.new) (S.faults sinks.new) in
        Completes (request_of table_command meant (map string_bytes words.now)) before after result }
    ensures files { I.file inputs.new ≡ I.file inputs.old }
{
    match read_arguments::<TableArguments>(alloc, words) {
        Ok(Request::Run(arguments)) => run_over(alloc, &arguments, inputs, sinks),
        Ok(Request::Help) => end_with(sinks, Stream::Report, HELP_TEXT.as_bytes(), Ended::Done),
        Ok(Request::Version) => end_with(
            sinks,
            Stream::Report,
            VERSION_TEXT.as_bytes(),
            Ended::Done,
        ),
        Err(ArgumentsFault::Refused) => tell_usage(sinks),
        Err(ArgumentsFault::NoMemory) => Ended::NoMemory,
    }
}
