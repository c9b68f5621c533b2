// The texts that tell of the words.
ghost use Rattle.std.specs.Prelude.{◌≡◌};
ghost use Rattle.dk_command_line.specs.Texts.{help_text, usage_line, version_text};

pub(crate) const USAGE_LINE: &str =
    "usage: daikon [--min-samples N] [--every N] [--select PREFIX] [--keep-implied] [--keep-incomparable] [--keep-members] [--keep-constant] [--keep-parent] [--ignore-missing-entry] [--stats] [--save] [--resume NAME] [--generate N] [FILE]...\n";

pub(crate) const VERSION_TEXT: &str = "daikon 0.1.0\n";

pub(crate) const HELP_TEXT: &str = "\
usage: daikon [--min-samples N] [--every N] [--select PREFIX] [--keep-implied]
              [--keep-incomparable] [--keep-members] [--keep-constant]
              [--keep-parent] [--ignore-missing-entry] [--stats] [--save]
              [--resume NAME] [--generate N] [FILE]...

Reads declarations of program points and records of their samples from the
FILEs, in order, and reports for each point the invariants no sample breaks.

  FILE                    a file to read; one that is named twice is read twice
  --min-samples N         print invariants that N samples or more bear out: 1 to
                          1000000000, default 5
  --every N               report also each time N more blocks are read: 1 to
                          1000000000, default never
  --select PREFIX         report points whose names begin with PREFIX, default
                          all points
  --keep-implied          print also invariants that others imply
  --keep-incomparable     print also those of variables that aren't comparable
  --keep-members          print also those of variables equal to earlier ones
  --keep-constant         print also those of constants with other variables
  --keep-parent           print also those that a parent point has
  --ignore-missing-entry  leave out exits without an entry, default refuse them
  --stats                 print after each report the size of what is kept
  --save                  write the state after the last report, to the file
                          daikon.state, default write none
  --resume NAME           begin with the state in the file NAME, as --save wrote
                          it, default with no samples
  --generate N            first read 20000 records of a stack, made from N: 0 to
                          18446744073709551615, default none
  -h, --help              print this text and read nothing
  -V, --version           print the name and the version and read nothing
  --                      take all arguments after it as FILEs

A value may stand after = in the same argument, as in --every=100. Only FILE may
be given more than once.

Status: 0 done, 1 a line or a state is refused, 2 the arguments are refused, 3 a
file can't be read, 4 the output can't be written, 5 out of memory.

Examples: daikon --min-samples 1 --select Stack.push stack.dtrace
          daikon --every 1000 --stats stack.decls stack.dtrace
";

/// The line on Messages where the words are refused.
#[tactic(auto, unfolding(crate::specs::Texts::usage_line))]
pub fn usage_line() -> &'static str
    ensures { result.now ≡ usage_line }
{
    USAGE_LINE
}

/// The text on Report where the words ask for help: at most 40 lines of at most 80 columns.
#[tactic(auto, unfolding(crate::specs::Texts::help_text))]
pub fn help_text() -> &'static str
    ensures { result.now ≡ help_text }
{
    HELP_TEXT
}

/// The text on Report where the words ask for the version.
#[tactic(auto, unfolding(crate::specs::Texts::version_text))]
pub fn version_text() -> &'static str
    ensures { result.now ≡ version_text }
{
    VERSION_TEXT
}
