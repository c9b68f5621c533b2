//! The join of two engines: what is kept of both lists of samples, from what each keeps of its own.
#![tactic(auto)]

mod beside;
mod both;
mod constants;
mod joining;
pub mod laws;
mod leaders;
mod noted;
mod numbers;
mod patterns;
mod sweeps;
mod tally;
mod threes;
mod watching;

pub use joining::{JoinFault, join};
