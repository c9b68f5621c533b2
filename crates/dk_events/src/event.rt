// What blocks do.
use dk_base::{PointId, View};

/// What a block does.
#[derive(Clone, Copy, Debug)]
pub enum Event<'a> {
    /// It adds nothing: it has header lines alone, lists implementors, repeats a declaration, or is of an exit without an entry, where those
    /// are left out.
    Nothing,
    /// It declares a new point, which is the last of the table.
    Declared,
    /// It is of a record, which begins at this line: the point has a sample more, with these values of its variables, derived ones included.
    Sample {
        point: PointId,
        line: u64,
        values: &'a [View<'a>],
    },
}
