// Faults of lines.
ghost use Rattle.std.specs.Prelude.{◌≡◌, MatchResult, Ok, Err};
ghost use Rattle.dk_decl.specs.Outcomes.{AnswerAgrees, or_refused};

use dk_base::{BlockFault, NoMemory, Why};

/// The point is not declared as the format says.
pub(crate) fn bad_point(line: u64) -> BlockFault
    ensures { result ≡ BlockFault.Refused line Why.BadPoint }
{
    BlockFault::Refused {
        line,
        why: Why::BadPoint,
    }
}

/// The variable is not declared as the format says.
pub(crate) fn bad_variable(line: u64) -> BlockFault
    ensures { result ≡ BlockFault.Refused line Why.BadVariable }
{
    BlockFault::Refused {
        line,
        why: Why::BadVariable,
    }
}

/// What is there, or a fault of the variable at this line.
pub(crate) fn or_bad_variable<T>(found: Option<T>, line: u64) -> Result<T, BlockFault>
    ensures { AnswerAgrees result (or_refused Why.BadVariable line found) }
{
    match found {
        Some(found) => Ok(found),
        None => Err(bad_variable(line)),
    }
}

/// What was made, or want of memory as a fault of the block.
pub(crate) fn in_memory<T>(made: Result<T, NoMemory>) -> Result<T, BlockFault>
    ensures { MatchResult made (λ x. result ≡ Ok x) (λ _. result ≡ Err BlockFault.NoMemory) }
{
    match made {
        Ok(made) => Ok(made),
        Err(NoMemory) => Err(BlockFault::NoMemory),
    }
}
