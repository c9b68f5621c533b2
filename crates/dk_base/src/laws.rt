//! What the definitions come to, in the words of the format.
ghost use Rattle.dk_base.specs.Words.WordLaws.{WordsArePartsBetweenBlanks};

/// The words of a line are the parts between its blanks and tabs that are not empty.
pub fn words_are_parts_between_blanks()
    ensures { WordsArePartsBetweenBlanks }
{}
