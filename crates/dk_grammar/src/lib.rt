//! All rows of the grammar at one door: a row's state of one tuple, whether a tuple breaks its relation or leaves a state as it is,
//! and the state of two lists together, by the row's number; and the first of a run of slots of one row that a sample changes.
#![tactic(auto)]

mod rows;
mod runs;
mod slot;
mod sweep;

pub use rows::{breaks, join, point, stays};
pub use runs::first_changed;
pub use slot::Slot;
