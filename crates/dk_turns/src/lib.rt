//! The files of several recorders as one text: what they declare comes first, and then their sample records in turns.
#![tactic(auto)]

mod files;
mod fronts;
pub mod laws;
mod lines;
mod rounds;
mod writing;

pub use rounds::{in_turns, turns};
