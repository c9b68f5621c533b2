// The texts that tell of the words.
ghost use Rattle.std.specs.Prelude.{◌≡◌};
ghost use Rattle.dk_merge_command_line.specs.Texts.{help_text, usage_line, version_text};

pub(crate) const USAGE_LINE: &str = "usage: dk_merge [--min-samples N] [--turns N] FILE...\n";

pub(crate) const VERSION_TEXT: &str = "dk_merge 0.1.0\n";

pub(crate) const HELP_TEXT: &str = "\
usage: dk_merge [--min-samples N] [--turns N] FILE...

Merges the FILEs, states that daikon --save wrote of runs with the same
declarations, into one state, which it writes to the file daikon.state, and
prints the last report of all their samples.

With --turns the FILEs are traces of several recorders instead. They are read as
one file named turns: first what the FILEs declare, then N records of each FILE
in turn until none is left. The report and the state are those of that file.

  FILE             a file to read, one at least: a state, or with --turns a
                   trace; one that is named twice counts twice
  --min-samples N  print invariants that N samples or more bear out: 1 to
                   1000000000, default 5
  --turns N        take N records of each FILE in turn: 1 to 1000000000, default
                   none, the FILEs are states
  -h, --help       print this text and read nothing
  -V, --version    print the name and the version and read nothing
  --               take all arguments after it as FILEs

A value may stand after = in the same argument, as in --turns=1. Only FILE may
be given more than once.

Status: 0 done, 1 a line or a state is refused, 2 the arguments are refused, 3 a
file can't be read, 4 the output can't be written, 5 out of memory.

Examples: dk_merge --min-samples 1 monday.state tuesday.state
          dk_merge --turns 1 client.dtrace server.dtrace
";

/// The line on Messages where the words are refused.
#[tactic(auto, unfolding(crate::specs::Texts::usage_line))]
pub fn usage_line() -> &'static str
    ensures { result.now ≡ usage_line }
{
    USAGE_LINE
}

/// The text on Report where the words ask for help: at most 40 lines of at most 80 columns.
#[tactic(auto, unfolding(crate::specs::Texts::help_text))]
pub fn help_text() -> &'static str
    ensures { result.now ≡ help_text }
{
    HELP_TEXT
}

/// The text on Report where the words ask for the version.
#[tactic(auto, unfolding(crate::specs::Texts::version_text))]
pub fn version_text() -> &'static str
    ensures { result.now ≡ version_text }
{
    VERSION_TEXT
}
