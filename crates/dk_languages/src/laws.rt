//! What the tables of all rows come to.
ghost use Rattle.dk_languages.specs.Laws.{EachRowHasALine, EachRowIsTold};

/// Each row of the grammar has a line in the table of each language.
pub fn each_row_has_a_line()
    ensures { EachRowHasALine }
{}

/// Each row is told over variables that the language can say, with a state that it can say: none is left out for its number.
pub fn each_row_is_told()
    ensures { EachRowIsTold }
{}
