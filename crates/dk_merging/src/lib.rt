//! States as one: the state file of all histories, from the state file of each.
#![tactic(auto)]

mod engines;
mod fronts;
pub mod laws;
mod merging;
mod numbers;

pub use merging::{JoinedStates, MergeFault, merge_two};
