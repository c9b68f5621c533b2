//! The rows of two variables of which the second is a sequence: membership, and equality, relations element by element, subsets and
//! offsets of two sequences.

mod equality;
mod membership;
mod offsets;
mod partners;
mod rows;
mod subsets;

pub use equality::EqualSequences;
pub use membership::Member;
pub use offsets::PairOffset;
pub use partners::Partners;
pub use rows::{join, point, stays};
pub use subsets::Subset;
