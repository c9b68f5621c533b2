// The texts that tell of the words.
ghost use Rattle.std.specs.Prelude.{◌≡◌};
ghost use Rattle.dk_check.specs.Texts.{help_text, usage_line, version_text};

pub(crate) const USAGE_LINE: &str =
    "usage: dk_check [--ignore-missing-entry] ASSERTIONS [FILE]...\n";

pub(crate) const VERSION_TEXT: &str = "dk_check 0.1.0\n";

pub(crate) const HELP_TEXT: &str = "\
usage: dk_check [--ignore-missing-entry] ASSERTIONS [FILE]...

Reads ASSERTIONS, and then declarations of program points and records of their
samples from the FILEs, in order, and reports for each text of ASSERTIONS
whether it holds in all samples of its point.

  ASSERTIONS              a report, or lines like its lines: one of =, the name
                          of a point, and the texts that are claimed of it
  FILE                    a file to read; one that is named twice is read twice
  --ignore-missing-entry  leave out exits without an entry, default refuse them
  -h, --help              print this text and read nothing
  -V, --version           print the name and the version and read nothing
  --                      take all arguments after it as names of files

Only FILE may be given more than once.

After the point's name and the text the report says one of these:

  ok [N]                  it holds in all samples, and N of them have all of its
                          variables
  violated at FILE:LINE   the record that begins there is the first to violate
                          it
  unknown                 there is no such point, or no such text of its
                          variables

Status: 0 done, also where a text is violated, 1 a line is refused, 2 the
arguments are refused, 3 a file can't be read, 4 the output can't be written, 5
out of memory.

Example: dk_check report.txt new.dtrace | grep \": violated at \"
";

/// The line on Messages where the words are refused.
#[tactic(auto, unfolding(crate::specs::Texts::usage_line))]
pub fn usage_line() -> &'static str
    ensures { result.now ≡ usage_line }
{
    USAGE_LINE
}

/// The text on Report where the words ask for help: at most 40 lines of at most 80 columns.
#[tactic(auto, unfolding(crate::specs::Texts::help_text))]
pub fn help_text() -> &'static str
    ensures { result.now ≡ help_text }
{
    HELP_TEXT
}

/// The text on Report where the words ask for the version.
#[tactic(auto, unfolding(crate::specs::Texts::version_text))]
pub fn version_text() -> &'static str
    ensures { result.now ≡ version_text }
{
    VERSION_TEXT
}
