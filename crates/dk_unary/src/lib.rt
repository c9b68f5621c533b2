//! The rows of one variable: the values where they are few, bounds, a modulus, and that no value is 0 or `null`.
#![tactic(auto)]

mod bound;
mod modulus;
mod non_null;
mod one_of;
mod rows;

pub use bound::Bound;
pub use modulus::Modulus;
pub use non_null::NonNull;
pub use one_of::OneOf;
pub use rows::{join, point, stays};
