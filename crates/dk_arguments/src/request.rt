// What arguments ask for.
ghost use Rattle.std.specs.Prelude.{◌≡◌, option_map};
ghost use Rattle.dk_arguments.specs.Requests.{text_of};

use crate::Arguments;

/// What arguments ask for.
#[derive(Debug, Drop)]
pub enum Request<A> {
    /// A run, of which these say what it is to do.
    Run(A),
    /// The help text is asked for.
    Help,
    /// The version text is asked for.
    Version,
}

impl<A: Arguments> Request<A> {
    /// The text that answers the request on Report; none for a run.
    pub fn text(&self) -> Option<&'static str>
        ensures { option_map (λ text. text.now) result ≡ text_of A.command self.now }
    {
        match self {
            Request::Run(_) => None,
            Request::Help => Some(A::description().help),
            Request::Version => Some(A::description().version),
        }
    }
}

/// The line on Messages where the arguments are refused.
pub fn usage<A: Arguments>() -> &'static str
    ensures { result.now ≡ A.command.usage }
{
    A::description().usage
}
