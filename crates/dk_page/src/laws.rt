//! What the table of groups comes to.
ghost use Rattle.dk_page.specs.Laws.{EachRowHasAGroup};

/// Each row of the grammar has a group of its own kind.
pub fn each_row_has_a_group()
    ensures { EachRowHasAGroup }
{}
