//! What the definitions of the rows come to.
ghost use Rattle.dk_meanings.specs.Laws.{PlainRowsStateTheirRelation, RowsKeepTheirLaws};

/// Each row of the table keeps the laws of a row: the state of no tuples is Empty, that of two lists together is the join of theirs,
/// it depends on the set of the tuples alone, and that of tuples of the row's kinds is proper.
pub fn rows_keep_their_laws()
    ensures { RowsKeepTheirLaws }
{}

/// The state of a row with a relation is Empty for no tuples, Holds where each tuple satisfies the relation, and else Broken.
pub fn plain_rows_state_their_relation()
    ensures { PlainRowsStateTheirRelation }
{}
