// Reading arguments.
ghost use Rattle.std.specs.Prelude.{◌≡◌, ◌∷◌, IfOk, IsErrOf, None, Some, map, string_bytes, true};
ghost use Rattle.clap.specs.Words.{fault_of, kind_of, matches_of};
ghost use Rattle.dk_arguments.specs.Commands.{app_of_command, is_simple};
ghost use Rattle.dk_arguments.specs.Descriptions.{described};
ghost use Rattle.dk_arguments.specs.Requests.{Answers, AnswersFault, request_by, request_of, run_by};

use crate::among::are_among;
use crate::clap_command::clap_command;
use crate::{Arguments, ArgumentsFault, Description, Matches, Request};
use clap::Error;
use clap::error::ErrorKind;
use dk_base::NoMemory;
use std::alloc::Global;

// The words with the program's name in front.
fn with_name<'a>(
    alloc: Global,
    description: &Description,
    words: &'a [String],
) -> Result<Vec<&'a str>, NoMemory>
    ensures { IfOk result (λ texts. map (λ text. text.now) texts.items ≡ description.now.name.now ∷ map string_bytes words.entry.now) }
{
    let mut texts: Vec<&'a str> = Vec::new(alloc);
    texts.push(description.name)?;
    for word in words {
        texts.push(word.as_str())?;
    }
    Ok(texts)
}

// What an error of `clap` answers.
fn request_from<A>(error: &Error) -> Result<Request<A>, ArgumentsFault>
    ensures { AnswersFault (kind_of error.now) result }
{
    match error.kind() {
        ErrorKind::DisplayHelp => Ok(Request::Help),
        ErrorKind::DisplayVersion => Ok(Request::Version),
        ErrorKind::OutOfMemory => Err(ArgumentsFault::NoMemory),
        _ => Err(ArgumentsFault::Refused),
    }
}

// The run that matched words ask for.
fn run_from<A: Arguments>(
    alloc: Global,
    description: &Description,
    matches: &Matches<'_>,
) -> Result<Request<A>, ArgumentsFault>
    ensures { Answers (run_by (described description.now) A.meant matches.now) result }
{
    if !are_among(description, matches) {
        return Err(ArgumentsFault::Refused);
    }
    Ok(Request::Run(A::from_matches(alloc, matches)?))
}

// What the words ask for, the first of which is the program's name.
fn read_texts<'a, A: Arguments>(
    alloc: Global,
    description: &Description,
    texts: &'a [&'a str],
) -> Result<Request<A>, ArgumentsFault>
    requires { is_simple (described description.now) ≡ true }
    ensures { let app = app_of_command (described description.now) in let words = map (λ text. text.now) texts.entry.now in
        Answers (request_by (described description.now) A.meant (fault_of app words) (matches_of app words)) result }
{
    let command = clap_command(alloc, description)?;
    match command.try_get_matches_from(texts) {
        Ok(matched) => {
            let matches = Matches::new(matched);
            run_from(alloc, description, &matches)
        }
        Err(error) => request_from(&error),
    }
}

/// What the given arguments, those behind the program's name, ask for. They are refused exactly where `clap` finds a fault in them at the
/// program's command, where a word is not one of those that its argument takes, and where they mean nothing to the program; they ask for help
/// or the version exactly where the only fault is that they ask for it.
pub fn read_arguments<A: Arguments>(
    alloc: Global,
    given: &[String],
) -> Result<Request<A>, ArgumentsFault>
    ensures asked { IfOk result (λ request. request_of A.command A.meant (map string_bytes given.now) ≡ Some request) }
    ensures refused { IsErrOf result ArgumentsFault.Refused → request_of A.command A.meant (map string_bytes given.now) ≡ None }
{
    let description = A::description();
    let texts = with_name(alloc, &description, given)?;
    read_texts(alloc, &description, texts.as_slice())
}
