// Why arguments ask for nothing.
use dk_base::NoMemory;
use thiserror::Error;

/// Why arguments ask for nothing.
#[derive(Clone, Copy, Debug, PartialEq, Eq, Error)]
pub enum ArgumentsFault {
    /// The command does not accept them.
    #[error("the arguments are not accepted")]
    Refused,
    /// Memory could not be had.
    #[error("out of memory")]
    NoMemory,
}

impl From<NoMemory> for ArgumentsFault {
    ghost use Rattle.std.specs.Prelude.{◌≡◌};
    ghost use Rattle.dk_arguments.specs.declared.fault.ArgumentsFault.TheVariants as fault;

    ghost from_gives = { λ _ e. e ≡ fault.NoMemory };

    fn from(_: NoMemory) -> Self {
        ArgumentsFault::NoMemory
    }
}
