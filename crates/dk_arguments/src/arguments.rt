// What a program brings to have its arguments read.
ghost use Rattle.std.specs.Prelude.{◌≡◌, List, Option, true};
ghost use Rattle.clap.specs.Words.{Row};
ghost use Rattle.dk_arguments.specs.Commands.{is_simple};
ghost use Rattle.dk_arguments.specs.Descriptions.{Command, described};
ghost use Rattle.dk_arguments.specs.Requests.{Answers};

use crate::{ArgumentsFault, Description, Matches};
use std::alloc::Global;

/// What a run is to do, as the arguments of a program say it.
pub trait Arguments: Drop + Sized {
    /// The program's command.
    ghost command: { Command };

    /// What accepted arguments mean, by what was given for each; none where they are refused all the same.
    ghost meant: { List Row → Option Self };

    /// The program's command.
    fn description() -> Description
        ensures { described result ≡ command };

    /// What the accepted arguments mean.
    fn from_matches(alloc: Global, matches: &Matches<'_>) -> Result<Self, ArgumentsFault>
        ensures { Answers (meant matches.now) result };

    /// `clap` defines which arguments the command accepts: only the last positional takes several words.
    ghost is_defined: { is_simple command ≡ true };
}
