//! Assertions: a line of a report read back as an instance with its state, and tested with tuples.
#![tactic(auto)]

mod assertions;
mod found;
pub mod laws;
mod names;
mod numbers;
mod reading;
mod states;
mod steps;
mod values;
mod walking;

pub use assertions::Assertion;
pub use names::VarNames;
pub use reading::{read, read_by};
