// Words that have to be one of several.
ghost use Rattle.std.specs.Prelude.{◌≡◌, map};
ghost use Rattle.dk_arguments.specs.Descriptions.{argument_of, described};
ghost use Rattle.dk_arguments.specs.Requests.{are_among, is_among, is_one_of};

use crate::{Argument, Description, Form, Matches};

fn is_one_of(words: &[&str], text: &str) -> bool
    ensures { result ≡ is_one_of (map (λ word. word.now) words.now) text.now }
{
    for word in words {
        if *word == text {
            return true;
        }
    }
    false
}

fn is_among(matches: &Matches<'_>, argument: &Argument) -> bool
    ensures { result ≡ is_among matches.now (argument_of argument.now) }
{
    match (argument.form, matches.str(argument.name)) {
        (Form::OneOf(words), Some(text)) => is_one_of(words, text),
        _ => true,
    }
}

/// Whether each argument that takes one of several words was given one of them.
pub(crate) fn are_among(description: &Description, matches: &Matches<'_>) -> bool
    ensures { result ≡ are_among (described description.now) matches.now }
{
    for argument in description.arguments {
        if !is_among(matches, argument) {
            return false;
        }
    }
    true
}
