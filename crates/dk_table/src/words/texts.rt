// The texts that tell of the words.

pub(crate) const USAGE_LINE: &str =
    "usage: dk_table [--point NAME] [--separator C] [--types ROWS] [--no-header] FILE...\n";

pub(crate) const HELP_TEXT: &str = "\
usage: dk_table [--point NAME] [--separator C] [--types ROWS] [--no-header]
                FILE...

Reads tables with commas between their cells from the FILEs, and writes their
trace: one point, with a variable for each column and a record for each row.

  FILE             a table; all have the same header, and without --types each
                   is read whole
  --point NAME     the point's name, default the name of the first FILE
  --separator C    what stands between cells, one byte, default a comma
  --types ROWS     find what columns have by the first ROWS rows: 1 to
                   1099511627776, default all; the others are written as they
                   come, up to a cell of another kind, which is refused
  --no-header      the first row of a FILE is a row as the others, and columns
                   are named column1 and so on
  -h, --help       print this text and read nothing
  -V, --version    print the name and the version and read nothing
  --               take all arguments after it as FILEs

A column has what all its cells write: whole numbers (64 bits, no leading zero
or plus); true and false, or True and False, or TRUE and FALSE; decimals with
as many places, which are taken times 10, 100 .. and named so, as in
price * 100; or else texts, other decimals too. An empty cell is missing.

Status: 0 done, 1 a table is refused, 2 the arguments are refused, 3 a file
can't be read, 4 the output can't be written, 5 out of memory.

Example: dk_table t.csv | daikon /dev/stdin
";

pub(crate) const VERSION_TEXT: &str = "dk_table 0.1.0\n";
