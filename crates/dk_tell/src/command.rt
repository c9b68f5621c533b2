// What the arguments of the command ask for.
ghost use Rattle.std.specs.Prelude.{◌≡◌, option_map};
ghost use Rattle.std.specs.Option.{option_map_or};
ghost use Rattle.dk_tell.specs.Requests.{format_named};

use crate::texts::{HELP_TEXT, USAGE_LINE, VERSION_TEXT};
use dk_arguments::{Argument, Arguments, ArgumentsFault, Description, Form, Matches, Word};
use dk_driver::Traces;
use dk_formats::Format;
use dk_languages::Language;
use std::alloc::Global;

/// What a run is to do.
#[derive(Debug, Drop)]
pub struct Command {
    /// The format in which the report is told.
    pub format: Format,
    /// The name of the report.
    pub report: Word,
    /// The files of the points, in order. One that stands twice is read twice.
    pub traces: Traces,
}

const DESCRIPTION: Description = Description {
    name: "dk_tell",
    arguments: &[
        Argument {
            name: "format",
            form: Form::OneOf(&["json", "python", "c", "smtlib", "html"]),
        },
        Argument {
            name: "ignore-missing-entry",
            form: Form::Flag,
        },
        Argument {
            name: "report",
            form: Form::Positional,
        },
        Argument {
            name: "file",
            form: Form::Positionals { required: false },
        },
    ],
    usage: USAGE_LINE,
    help: HELP_TEXT,
    version: VERSION_TEXT,
};

fn format_named(name: &str) -> Format
    ensures { result ≡ format_named name.now }
{
    if name == "python" {
        Format::In(Language::Python)
    } else if name == "c" {
        Format::In(Language::C)
    } else if name == "smtlib" {
        Format::In(Language::Smtlib)
    } else if name == "html" {
        Format::Html
    } else {
        Format::Json
    }
}

// The format of the name that was given, or JSON.
fn format_of(name: Option<&str>) -> Format
    ensures { result ≡ option_map_or format_named (option_map (λ n. n.now) name.entry) Format.Json }
{
    match name {
        Some(name) => format_named(name),
        None => Format::Json,
    }
}

impl Arguments for Command {
    ghost use Rattle.std.specs.Prelude.{Some, refl};
    ghost use Rattle.dk_tell.specs.Requests.{command_of, dk_tell};

    ghost command = { dk_tell };

    ghost meant = { λ rows. Some (command_of rows) };

    ghost is_defined = { refl };

    fn description() -> Description {
        DESCRIPTION
    }

    fn from_matches(alloc: Global, matches: &Matches<'_>) -> Result<Self, ArgumentsFault> {
        // The command does not accept words without a name of the report.
        let report = Word::from_str(alloc, matches.str("report").unwrap_or(""))?;
        let names = matches.texts(alloc, "file")?;
        Ok(Command {
            format: format_of(matches.str("format")),
            report,
            traces: Traces {
                names,
                ignore_missing_entry: matches.is_given("ignore-missing-entry"),
            },
        })
    }
}
