// What a command chooses.
ghost use Rattle.std.specs.Prelude.{◌≡◌, ◌<◌, length};
ghost use Rattle.dk_driver.specs.Files.{file_name_at};
ghost use Rattle.dk_run.specs.Beginning.{state_name};
ghost use Rattle.dk_run.specs.Commands.{file_names, generated_count, is_selected, report_options};

use dk_command_line::Command;
use dk_generate::generated_name;
use dk_report::Options;

/// What reports leave out.
pub(crate) fn options_of(command: &Command) -> Options
    ensures { result ≡ report_options command.now }
{
    Options {
        least: command.least,
        keep_implied: command.keep_implied,
        keep_incomparable: command.keep_incomparable,
        keep_members: command.keep_members,
        keep_constant: command.keep_constant,
        keep_parent: command.keep_parent,
        ignore_missing_entry: command.ignore_missing_entry,
    }
}

/// Whether a point of this name is reported.
pub(crate) fn is_selected(command: &Command, name: &[u8]) -> bool
    ensures { result ≡ is_selected command.now name.now }
{
    match &command.select {
        Some(prefix) => name.starts_with(prefix.as_str().as_bytes()),
        None => true,
    }
}

/// How many files of the run are generated.
pub(crate) fn generated_count(command: &Command) -> usize
    ensures { result ≡ generated_count command.now }
{
    match command.generate {
        Some(_) => 1,
        None => 0,
    }
}

/// The name of the state file, and an empty one where the run names none.
pub(crate) fn state_name(command: &Command) -> &str
    ensures { result.now ≡ state_name command.now }
{
    match &command.resume {
        Some(name) => name.as_str(),
        None => "",
    }
}

/// The name of the file at a place.
pub(crate) fn name_at(command: &Command, place: usize) -> &str
    requires { place < length (file_names command.now) }
    ensures { result.now ≡ file_name_at (file_names command.now) place }
{
    match command.generate {
        Some(_) if place == 0 => generated_name(),
        Some(_) => command.files.as_slice()[place - 1].as_str(),
        None => command.files.as_slice()[place].as_str(),
    }
}
