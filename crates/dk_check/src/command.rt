// What the arguments of the command ask for.
use crate::texts::{HELP_TEXT, USAGE_LINE, VERSION_TEXT};
use dk_arguments::{Argument, Arguments, ArgumentsFault, Description, Form, Matches, Word};
use dk_driver::Traces;
use std::alloc::Global;

/// What a run is to do.
#[derive(Debug, Drop)]
pub struct Command {
    /// The name of the assertion file.
    pub assertions: Word,
    /// The files, in order. One that stands twice is read twice.
    pub traces: Traces,
}

const DESCRIPTION: Description = Description {
    name: "dk_check",
    arguments: &[
        Argument {
            name: "ignore-missing-entry",
            form: Form::Flag,
        },
        Argument {
            name: "assertions",
            form: Form::Positional,
        },
        Argument {
            name: "file",
            form: Form::Positionals { required: false },
        },
    ],
    usage: USAGE_LINE,
    help: HELP_TEXT,
    version: VERSION_TEXT,
};

impl Arguments for Command {
    ghost use Rattle.std.specs.Prelude.{Some, refl};
    ghost use Rattle.dk_check.specs.Requests.{command_of, dk_check};

    ghost command = { dk_check };

    ghost meant = { λ rows. Some (command_of rows) };

    ghost is_defined = { refl };

    fn description() -> Description {
        DESCRIPTION
    }

    fn from_matches(alloc: Global, matches: &Matches<'_>) -> Result<Self, ArgumentsFault> {
        // The command does not accept words without a name of the assertion file.
        let assertions = Word::from_str(alloc, matches.str("assertions").unwrap_or(""))?;
        let names = matches.texts(alloc, "file")?;
        Ok(Command {
            assertions,
            traces: Traces {
                names,
                ignore_missing_entry: matches.is_given("ignore-missing-entry"),
            },
        })
    }
}
