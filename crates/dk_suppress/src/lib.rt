//! The rules of suppression: an instance that follows from simpler ones which hold needs no state of its own.
#![tactic(auto)]

mod freeing;
pub mod laws;
mod rules;
mod suppressing;

pub use freeing::freed_by;
pub use rules::{Rule, asked_of, table};
pub use suppressing::suppressed;
