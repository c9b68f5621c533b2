// What was given for each argument.
ghost use Rattle.std.specs.Prelude.{◌≡◌, IfOk, map, option_map};
ghost use Rattle.clap.specs.Words.{found_of, rows_of};
ghost use Rattle.dk_arguments.specs.Given.{is_given, number_at, text_at, texts_at};

use crate::Word;
use clap::ArgMatches;
use dk_base::{List, NoMemory};
use std::alloc::Global;
use std::marker::Model;

/// What was given for each argument of a command that accepts it, by the arguments' names. Contracts see `clap`'s rows.
#[derive(Drop)]
pub struct Matches<'a> {
    kept: ArgMatches<'a>,
}

impl<'a> Model for Matches<'a> {
    ghost use Rattle.std.specs.Prelude.{List};
    ghost use Rattle.clap.specs.Words.{Row, found_of, rows_of};

    ghost Value = { List Row };

    ghost view = { λ m. rows_of (found_of m.kept) };
}

fn words_of(alloc: Global, texts: &[&str]) -> Result<List<Word>, NoMemory>
    ensures { IfOk result (λ words. words ≡ map (λ text. text.now) texts.now) }
{
    let mut words = List::new(alloc);
    for text in texts {
        words.push(Word::from_str(alloc, text)?)?;
    }
    Ok(words)
}

impl<'a> Matches<'a> {
    pub(crate) fn new(kept: ArgMatches<'a>) -> Matches<'a>
        ensures { result ≡ rows_of (found_of kept.entry) }
    {
        Matches { kept }
    }

    /// Whether the flag is given.
    pub fn is_given(&self, name: &str) -> bool
        ensures { result ≡ is_given name.now self.now }
    {
        match self.str(name) {
            Some(text) => text == "true",
            None => false,
        }
    }

    /// The number that is given under the name.
    pub fn number(&self, name: &str) -> Option<u64>
        ensures { result ≡ number_at name.now self.now }
    {
        self.kept.get_one::<u64>(name)
    }

    /// The text that is given under the name, where it lies; the first where there are several.
    pub fn str(&self, name: &str) -> Option<&str>
        ensures { option_map (λ text. text.now) result ≡ text_at name.now self.now }
    {
        self.kept.get_str(name)
    }

    /// The text that is given under the name; the first where there are several.
    pub fn text(&self, alloc: Global, name: &str) -> Result<Option<Word>, NoMemory>
        ensures { IfOk result (λ text. text ≡ text_at name.now self.now) }
    {
        match self.str(name) {
            Some(text) => Ok(Some(Word::from_str(alloc, text)?)),
            None => Ok(None),
        }
    }

    /// All texts that are given under the name, in order.
    pub fn texts(&self, alloc: Global, name: &str) -> Result<List<Word>, NoMemory>
        ensures { IfOk result (λ texts. texts ≡ texts_at name.now self.now) }
    {
        match self.kept.get_raw(name) {
            Some(texts) => words_of(alloc, texts),
            None => Ok(List::new(alloc)),
        }
    }
}
