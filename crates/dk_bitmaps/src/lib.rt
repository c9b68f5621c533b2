//! A bitmap index of patterns: in how many samples some leaders are present together, found for 64 patterns at a step.
#![tactic(auto)]

mod counting;
mod index;
mod maps;
mod marks;

pub use index::PatternIndex;
