// What a declaration was.
use dk_base::PointId;

/// What a declaration was to the table.
#[derive(Clone, Copy, Debug, PartialEq, Eq)]
pub enum Declared {
    /// A new point: the declared one, also where it made an implicit exit.
    New(PointId),
    /// The declaration that this point has already, which changes nothing.
    Same(PointId),
}
