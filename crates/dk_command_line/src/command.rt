// What a run is to do.
use crate::texts::{HELP_TEXT, USAGE_LINE, VERSION_TEXT};
use dk_arguments::{Argument, Arguments, ArgumentsFault, COUNT, Description, Form, Matches, Word};
use dk_base::List;
use std::alloc::Global;

/// What a run is to do.
#[derive(Debug, Drop)]
pub struct Command {
    /// The least number of samples that a printed instance has, from 1 to 1,000,000,000.
    pub least: u64,
    /// After how many blocks each a report is due, from 1 to 1,000,000,000; without it there is one report.
    pub every: Option<u64>,
    /// What the names of the reported points begin with; without it all are reported.
    pub select: Option<Word>,
    /// Whether instances that others imply are printed.
    pub keep_implied: bool,
    /// Whether instances over variables that aren't comparable are printed.
    pub keep_incomparable: bool,
    /// Whether instances over variables that aren't the first of their equals are printed.
    pub keep_members: bool,
    /// Whether instances over constants and other variables are printed.
    pub keep_constant: bool,
    /// Whether instances that a parent prints are printed.
    pub keep_parent: bool,
    /// Whether an exit record without an entry is left out, instead of refused.
    pub ignore_missing_entry: bool,
    /// Whether each report is followed by sizes.
    pub stats: bool,
    /// Whether the state is written behind the last report.
    pub save: bool,
    /// The name of the file with the state that the run begins with; without it the run begins with no samples.
    pub resume: Option<Word>,
    /// The number that the generated input is made from; without it none is made.
    pub generate: Option<u64>,
    /// The names of the files, in order. One that stands twice is read twice.
    pub files: List<Word>,
}

const DESCRIPTION: Description = Description {
    name: "daikon",
    arguments: &[
        Argument {
            name: "min-samples",
            form: COUNT,
        },
        Argument {
            name: "every",
            form: COUNT,
        },
        Argument {
            name: "select",
            form: Form::Text,
        },
        Argument {
            name: "keep-implied",
            form: Form::Flag,
        },
        Argument {
            name: "keep-incomparable",
            form: Form::Flag,
        },
        Argument {
            name: "keep-members",
            form: Form::Flag,
        },
        Argument {
            name: "keep-constant",
            form: Form::Flag,
        },
        Argument {
            name: "keep-parent",
            form: Form::Flag,
        },
        Argument {
            name: "ignore-missing-entry",
            form: Form::Flag,
        },
        Argument {
            name: "stats",
            form: Form::Flag,
        },
        Argument {
            name: "save",
            form: Form::Flag,
        },
        Argument {
            name: "resume",
            form: Form::Text,
        },
        Argument {
            name: "generate",
            form: Form::Number {
                least: 0,
                most: u64::MAX,
            },
        },
        Argument {
            name: "file",
            form: Form::Positionals { required: false },
        },
    ],
    usage: USAGE_LINE,
    help: HELP_TEXT,
    version: VERSION_TEXT,
};

impl Arguments for Command {
    ghost use Rattle.std.specs.Prelude.{Some, refl};
    ghost use Rattle.dk_command_line.specs.Requests.{command_of, daikon};

    ghost command = { daikon };

    ghost meant = { λ rows. Some (command_of rows) };

    ghost is_defined = { refl };

    #[tactic(auto, unfolding(crate::specs::Texts::usage_line, crate::specs::Texts::help_text, crate::specs::Texts::version_text))]
    fn description() -> Description {
        DESCRIPTION
    }

    fn from_matches(alloc: Global, matches: &Matches<'_>) -> Result<Self, ArgumentsFault> {
        let select = matches.text(alloc, "select")?;
        let resume = matches.text(alloc, "resume")?;
        let files = matches.texts(alloc, "file")?;
        Ok(Command {
            least: matches.number("min-samples").unwrap_or(5),
            every: matches.number("every"),
            select,
            keep_implied: matches.is_given("keep-implied"),
            keep_incomparable: matches.is_given("keep-incomparable"),
            keep_members: matches.is_given("keep-members"),
            keep_constant: matches.is_given("keep-constant"),
            keep_parent: matches.is_given("keep-parent"),
            ignore_missing_entry: matches.is_given("ignore-missing-entry"),
            stats: matches.is_given("stats"),
            save: matches.is_given("save"),
            resume,
            generate: matches.number("generate"),
            files,
        })
    }
}
