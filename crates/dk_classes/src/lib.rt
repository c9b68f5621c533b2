//! Classes of variables that have had the same values in all samples, and in how many samples which of their leaders are present.
#![tactic(auto)]

mod class;
pub mod laws;
mod steps;

pub use class::Classes;
pub use dk_presence::{Held, Presence, present_leaders};
