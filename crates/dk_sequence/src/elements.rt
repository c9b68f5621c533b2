//! The rows over the elements of a sequence: the elements where they are few, bounds, that none of them is 0 or `null`, and a relation
//! of each element with the next or with a number.

mod bound;
mod compare;
mod non_null;
mod one_of;
mod rows;
mod sorted;

pub use bound::Bound;
pub use compare::Compare;
pub use non_null::NonNull;
pub use one_of::OneOf;
pub use rows::{join, point, stays};
pub use sorted::Sorted;
