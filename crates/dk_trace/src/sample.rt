// Samples of points.
use dk_base::{PointId, View};

/// What a record says: a sample of a point.
#[derive(Clone, Copy, Debug)]
pub struct BaseSample<'a> {
    /// The point.
    pub point: PointId,
    /// The line at which the record begins.
    pub line: u64,
    /// The number that tells the calls of one method apart, if the record has one.
    pub nonce: Option<i64>,
    /// The values of the declared variables that are not opaque, in order, constants filled in.
    pub values: &'a [View<'a>],
}
