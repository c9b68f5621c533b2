// The texts that tell of the words.
ghost use Rattle.std.specs.Prelude.{◌≡◌};
ghost use Rattle.dk_split.specs.Texts.{help_text, usage_line, version_text};

pub(crate) const USAGE_LINE: &str =
    "usage: dk_split [--min-samples N] [--ignore-missing-entry] [FILE]...\n";

pub(crate) const VERSION_TEXT: &str = "dk_split 0.1.0\n";

pub(crate) const HELP_TEXT: &str = "\
usage: dk_split [--min-samples N] [--ignore-missing-entry] [FILE]...

Reads declarations of program points and records of their samples from the
FILEs, in order, and reports for each point what holds in the samples in which
a Boolean is true, or false, and not in all of them.

  FILE                    a file to read; one that is named twice is read twice
  --min-samples N         print what N samples of a half or more bear out: 1 to
                          1000000000, default 5
  --ignore-missing-entry  leave out exits without an entry, default refuse them
  -h, --help              print this text and read nothing
  -V, --version           print the name and the version and read nothing
  --                      take all arguments after it as FILEs

A value may stand after = in the same argument, as in --min-samples=1. Only FILE
may be given more than once.

Status: 0 done, 1 a line is refused, 2 the arguments are refused, 3 a file can't
be read, 4 the output can't be written, 5 out of memory.

Example: dk_split --min-samples 1 stack.dtrace
";

/// The line on Messages where the words are refused.
#[tactic(auto, unfolding(crate::specs::Texts::usage_line))]
pub fn usage_line() -> &'static str
    ensures { result.now ≡ usage_line }
{
    USAGE_LINE
}

/// The text on Report where the words ask for help: at most 40 lines of at most 80 columns.
#[tactic(auto, unfolding(crate::specs::Texts::help_text))]
pub fn help_text() -> &'static str
    ensures { result.now ≡ help_text }
{
    HELP_TEXT
}

/// The text on Report where the words ask for the version.
#[tactic(auto, unfolding(crate::specs::Texts::version_text))]
pub fn version_text() -> &'static str
    ensures { result.now ≡ version_text }
{
    VERSION_TEXT
}
