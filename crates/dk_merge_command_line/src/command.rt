// What a run is to do.
use crate::texts::{HELP_TEXT, USAGE_LINE, VERSION_TEXT};
use dk_arguments::{Argument, Arguments, ArgumentsFault, COUNT, Description, Form, Matches, Word};
use dk_base::List;
use std::alloc::Global;

/// What a run is to do.
#[derive(Debug, Drop)]
pub struct Command {
    /// The least number of samples that a printed instance has, from 1 to 1,000,000,000.
    pub least: u64,
    /// How many records of each file are taken in turn, from 1 to 1,000,000,000, of files that are traces; without it the files are states.
    pub turns: Option<u64>,
    /// The names of the files, in order, one at least. One that stands twice counts twice.
    pub files: List<Word>,
}

const DESCRIPTION: Description = Description {
    name: "dk_merge",
    arguments: &[
        Argument {
            name: "min-samples",
            form: COUNT,
        },
        Argument {
            name: "turns",
            form: COUNT,
        },
        Argument {
            name: "file",
            form: Form::Positionals { required: true },
        },
    ],
    usage: USAGE_LINE,
    help: HELP_TEXT,
    version: VERSION_TEXT,
};

impl Arguments for Command {
    ghost use Rattle.std.specs.Prelude.{Some, refl};
    ghost use Rattle.dk_merge_command_line.specs.Requests.{command_of, dk_merge};

    ghost command = { dk_merge };

    ghost meant = { λ rows. Some (command_of rows) };

    ghost is_defined = { refl };

    #[tactic(auto, unfolding(crate::specs::Texts::usage_line, crate::specs::Texts::help_text, crate::specs::Texts::version_text))]
    fn description() -> Description {
        DESCRIPTION
    }

    fn from_matches(alloc: Global, matches: &Matches<'_>) -> Result<Self, ArgumentsFault> {
        let files = matches.texts(alloc, "file")?;
        Ok(Command {
            least: matches.number("min-samples").unwrap_or(5),
            turns: matches.number("turns"),
            files,
        })
    }
}
