//! Scans of sequences of whole numbers, eight numbers at a step.
#![tactic(auto)]

mod blocks;
mod extremes;
mod offsets;
mod relation;
mod scans;

pub use extremes::bounds;
pub use offsets::{Shift, offset};
pub use relation::Rel;
pub use scans::{all, member, pairwise, sorted};
