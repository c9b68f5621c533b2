// The texts that tell of the words.
ghost use Rattle.std.specs.Prelude.{◌≡◌};
ghost use Rattle.dk_tell.specs.Texts.{help_text, usage_line, version_text};

pub(crate) const USAGE_LINE: &str =
    "usage: dk_tell [--format json|python|c|smtlib|html] [--ignore-missing-entry] REPORT [FILE]...\n";

pub(crate) const VERSION_TEXT: &str = "dk_tell 0.1.0\n";

pub(crate) const HELP_TEXT: &str = "\
usage: dk_tell [--format json|python|c|smtlib|html] [--ignore-missing-entry]
               REPORT [FILE]...

Reads REPORT, and then declarations of program points, and maybe records of
their samples, from the FILEs, in order, and tells the lines of REPORT in
another language.

  REPORT                  a report, or lines like its lines: one of =, the name
                          of a point, and the texts that are claimed of it
  FILE                    a file to read; one that is named twice is read twice
  --format FORMAT         tell the lines as json, an object a line (default);
                          python, a function of asserts a point; c, a macro a
                          point; smtlib, a function a point; or html, a page
  --ignore-missing-entry  leave out exits without an entry, default refuse them
  -h, --help              print this text and read nothing
  -V, --version           print the name and the version and read nothing
  --                      take all arguments after it as names of files

A value may stand after = in the same argument, as in --format=c. Only FILE may
be given more than once. A line that the language can't say, or that is no
invariant over its point's variables, is a comment; in json its row is null, and
in html it stands among other lines.

Status: 0 done, 1 a line is refused, 2 the arguments are refused, 3 a file can't
be read, 4 the output can't be written, 5 out of memory.

Example: dk_tell --format python report.txt ring.dtrace > ring_holds.py
";

/// The line on Messages where the words are refused.
#[tactic(auto, unfolding(crate::specs::Texts::usage_line))]
pub fn usage_line() -> &'static str
    ensures { result.now ≡ usage_line }
{
    USAGE_LINE
}

/// The text on Report where the words ask for help: at most 40 lines of at most 80 columns.
#[tactic(auto, unfolding(crate::specs::Texts::help_text))]
pub fn help_text() -> &'static str
    ensures { result.now ≡ help_text }
{
    HELP_TEXT
}

/// The text on Report where the words ask for the version.
#[tactic(auto, unfolding(crate::specs::Texts::version_text))]
pub fn version_text() -> &'static str
    ensures { result.now ≡ version_text }
{
    VERSION_TEXT
}
