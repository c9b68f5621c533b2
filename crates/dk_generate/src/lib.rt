//! The generated input: declarations and 20,000 records of a stack, made from a number.
#![tactic(auto)]

mod calls;
mod draws;
mod input;
mod records;
mod texts;

pub use input::generate;
pub use texts::{generated_line, generated_name};
