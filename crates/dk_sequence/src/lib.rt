//! The rows over sequences, 35 to 66 and 68: those over the elements of one, and those of a value and a sequence or of two sequences.
#![tactic(auto)]

pub mod elements;
pub mod pairs;
mod rows;

pub use dk_lanes::Rel;
pub use elements::{Bound, Compare, NonNull, OneOf, Sorted};
pub use pairs::{EqualSequences, Member, PairOffset, Partners, Subset};
pub use rows::{join, point, stays};
