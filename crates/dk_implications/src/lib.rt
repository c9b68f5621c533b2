//! Implications: what holds in the samples of a point in which a Bool is true, or in those in which it is false. Their definitions, the
//! engines that stand for these samples, and the section that they write.
#![tactic(auto)]

mod halves;
pub mod laws;
mod splits;
mod telling;

pub use halves::Halves;
pub use splits::Split;
