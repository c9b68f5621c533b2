//! What given arguments come to, in the words of a reader.
ghost use Rattle.dk_arguments.specs.Laws.{NumbersAreWithinBounds, RequiredAreGiven, RunsAreMeant};

use crate::Arguments;

/// A number that is given for an argument is within the argument's bounds.
pub fn numbers_are_within_bounds()
    ensures { NumbersAreWithinBounds }
{}

/// A text is given for each argument that has to be given.
pub fn required_are_given()
    ensures { RequiredAreGiven }
{}

/// A run that words ask for is what they mean: the command finds no fault in them, and each word that has to be one of several is.
pub fn runs_are_meant<A: Arguments>()
    ensures { RunsAreMeant A.command A.meant }
{}
