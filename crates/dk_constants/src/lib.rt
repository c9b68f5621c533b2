//! Constant leaders: those that have had one value in all samples, with that value.
#![tactic(auto)]

mod constants;
mod kept;
pub mod laws;
mod places;
mod steps;

pub use constants::Constants;
