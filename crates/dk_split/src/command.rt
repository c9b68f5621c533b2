// What the arguments of the command ask for.
use crate::texts::{HELP_TEXT, USAGE_LINE, VERSION_TEXT};
use dk_arguments::{Argument, Arguments, ArgumentsFault, COUNT, Description, Form, Matches};
use dk_driver::Traces;
use std::alloc::Global;

/// What a run is to do.
#[derive(Debug, Drop)]
pub struct Command {
    /// The least number of samples of a half that a printed instance has, from 1 to 1,000,000,000.
    pub least: u64,
    /// The files, in order. One that stands twice is read twice.
    pub traces: Traces,
}

const DESCRIPTION: Description = Description {
    name: "dk_split",
    arguments: &[
        Argument {
            name: "min-samples",
            form: COUNT,
        },
        Argument {
            name: "ignore-missing-entry",
            form: Form::Flag,
        },
        Argument {
            name: "file",
            form: Form::Positionals { required: false },
        },
    ],
    usage: USAGE_LINE,
    help: HELP_TEXT,
    version: VERSION_TEXT,
};

impl Arguments for Command {
    ghost use Rattle.std.specs.Prelude.{Some, refl};
    ghost use Rattle.dk_split.specs.Requests.{command_of, dk_split};

    ghost command = { dk_split };

    ghost meant = { λ rows. Some (command_of rows) };

    ghost is_defined = { refl };

    fn description() -> Description {
        DESCRIPTION
    }

    fn from_matches(alloc: Global, matches: &Matches<'_>) -> Result<Self, ArgumentsFault> {
        let names = matches.texts(alloc, "file")?;
        Ok(Command {
            least: matches.number("min-samples").unwrap_or(5),
            traces: Traces {
                names,
                ignore_missing_entry: matches.is_given("ignore-missing-entry"),
            },
        })
    }
}
