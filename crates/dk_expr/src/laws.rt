//! What reading comes to.
ghost use Rattle.dk_expr.specs.Laws.{ReadStatesAreProper, TextsReadBack};

/// The text of an instance is read as the instance with its state, where no earlier instance has the text. Only of a hash code that isn't
/// null the text tells nothing but that there is one, and the state is Empty.
pub fn texts_read_back()
    ensures { TextsReadBack }
{}

/// What is read can be tested: its row is one of the table, and its state is proper for it.
pub fn read_states_are_proper()
    ensures { ReadStatesAreProper }
{}
