//! The rows of three numbers: that one is the result of an operation on the two others, and the plane through all points.
#![tactic(auto)]

mod exact;
mod operation;
mod planar;
mod rows;

pub use operation::Operation;
pub use planar::LinearTernary;
pub use rows::{join, point, stays};
