// The points that had a record last.
use dk_base::PointId;
use dk_points::Points;

/// The point of the record before, and the other point that had a record last. A call often alternates between two.
#[derive(Clone, Copy, Debug)]
pub struct Recent {
    last: PointId,
    other: PointId,
}

// Whether a point of the table has a name of this length with this last byte.
fn seems_named(points: &Points, point: PointId, name: &[u8]) -> bool {
    if point.0 >= points.len() {
        return false;
    }
    let own = points.name(point);
    own.len() == name.len() && own.last() == name.last()
}

impl Recent {
    /// No record was read.
    pub fn new() -> Recent {
        Recent {
            last: PointId(0),
            other: PointId(0),
        }
    }

    /// A record of this point was read.
    pub fn with_record_of(self, point: PointId) -> Recent {
        if point.0 == self.last.0 {
            return self;
        }
        Recent {
            last: point,
            other: self.last,
        }
    }

    /// The one of these points that is likely to have this name. It need be none of the table's.
    pub(crate) fn likely(self, points: &Points, name: &[u8]) -> PointId {
        if seems_named(points, self.last, name) {
            self.last
        } else {
            self.other
        }
    }
}
