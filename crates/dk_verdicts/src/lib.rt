//! The checker: claims, and which of them the samples of records violate.
#![tactic(auto)]

mod checker;
mod checks;
mod findings;
pub mod laws;
mod reading;
mod testing;
mod verdicts;

pub use checker::Checker;
pub use verdicts::{Verdict, push_verdict};
