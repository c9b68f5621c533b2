//! The rows of two variables that aren't sequences: relations of two numbers, equality, and the line through all points.
#![tactic(auto)]

mod compare;
mod equality;
mod linear;
mod rows;
mod texts;

pub use compare::Compare;
pub use equality::{Equality, Scalar};
pub use linear::Linear;
pub use rows::{join, point, stays};
