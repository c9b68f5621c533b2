// Reading the words.
ghost use Rattle.std.specs.Prelude.{◌≡◌, IfOk, IsErrOf, None, Some, map, string_bytes};
ghost use Rattle.dk_command_line.specs.Requests.{request_of};

use crate::Command;
use dk_arguments::{ArgumentsFault, Request, read_arguments};
use std::alloc::Global;

/// What the words behind the program's name ask for. They are refused exactly where `clap` finds a fault at the command `daikon`, and they
/// ask for help or the version exactly where its only fault is that they ask for it.
#[tactic(auto, unfolding(crate::specs::Requests::request_of))]
pub fn read_words(alloc: Global, words: &[String]) -> Result<Request<Command>, ArgumentsFault>
    ensures asked { IfOk result (λ request. request_of (map string_bytes words.now) ≡ Some request) }
    ensures refused { IsErrOf result ArgumentsFault.Refused → request_of (map string_bytes words.now) ≡ None }
{
    read_arguments(alloc, words)
}
