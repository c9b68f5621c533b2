//! What the table of texts comes to.
ghost use Rattle.dk_print.specs.Laws.{RowsAlikeTakeOtherKinds, TextsTellInstances};

/// Two rows whose texts are put together alike take variables of other kinds, so over the same variables two rows print differently
/// by the table.
pub fn rows_alike_take_other_kinds()
    ensures { RowsAlikeTakeOtherKinds }
{}

/// At a point whose variables have plain names (`is_plain_name`) that differ, the text of an instance tells its row and its variables:
/// two different instances print differently, whatever states they have.
pub fn texts_tell_instances()
    ensures { TextsTellInstances }
{}
