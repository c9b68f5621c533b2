//! Sample records: what a block that gives one sample of a point says, line by line.
//!
//! A record begins with the name of a declared point. A nonce may follow, and then stand three lines for each declared variable
//! without a constant: its name, its value and its mark. Lines are handed in without the blanks and tabs at their ends, and without
//! blank lines.
#![tactic(auto)]

mod bodies;
pub mod laws;
mod marks;
mod reader;
mod recent;
mod sample;
mod values;
mod whole;

pub use reader::RecordReader;
pub use recent::Recent;
pub use sample::BaseSample;
pub use whole::{Whole, read_whole};
