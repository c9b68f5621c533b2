// The words of the command.
ghost use Rattle.dk_table.specs.Asked.{SeparatorIs};

pub(crate) mod command;
pub(crate) mod texts;

use crate::words::command::Command;
use crate::words::texts::{HELP_TEXT, USAGE_LINE, VERSION_TEXT};
use dk_arguments::{Argument, Arguments, ArgumentsFault, Description, Form, Matches, Word};
use dk_base::List;
use std::alloc::Global;

/// What the command is asked to do.
#[derive(Debug, Drop)]
pub struct TableArguments {
    /// What the trace is to be.
    pub command: Command,
    /// The names of the files.
    pub files: List<Word>,
}

const DESCRIPTION: Description = Description {
    name: "dk_table",
    arguments: &[
        Argument {
            name: "point",
            form: Form::Text,
        },
        Argument {
            name: "separator",
            form: Form::Text,
        },
        Argument {
            name: "types",
            form: Form::Number {
                least: 1,
                most: 1_099_511_627_776,
            },
        },
        Argument {
            name: "no-header",
            form: Form::Flag,
        },
        Argument {
            name: "file",
            form: Form::Positionals { required: true },
        },
    ],
    usage: USAGE_LINE,
    help: HELP_TEXT,
    version: VERSION_TEXT,
};

// The separator that is asked for: a comma, where none is. It has to be one byte, and neither a quote nor one that ends a line.
fn separator_of(word: Option<Word>) -> Result<u8, ArgumentsFault>
    ensures { SeparatorIs word result }
{
    let Some(word) = word else {
        return Ok(b',');
    };
    match word.as_str().as_bytes() {
        [b'"' | b'\n' | b'\r'] => Err(ArgumentsFault::Refused),
        [byte] => Ok(*byte),
        _ => Err(ArgumentsFault::Refused),
    }
}

impl Arguments for TableArguments {
    ghost use Rattle.std.specs.Prelude.{refl};
    ghost use Rattle.dk_table.specs.Asked.{meant as meant_by, table_command};

    ghost command = { table_command };

    ghost meant = { meant_by };

    ghost is_defined = { refl };

    fn description() -> Description {
        DESCRIPTION
    }

    fn from_matches(alloc: Global, matches: &Matches<'_>) -> Result<Self, ArgumentsFault> {
        let separator = separator_of(matches.text(alloc, "separator")?)?;
        let point = matches.text(alloc, "point")?;
        let files = matches.texts(alloc, "file")?;
        Ok(TableArguments {
            command: Command {
                point,
                separator,
                types: matches.number("types"),
                has_header: !matches.is_given("no-header"),
            },
            files,
        })
    }
}
