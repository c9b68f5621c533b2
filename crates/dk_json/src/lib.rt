//! Lines of a report as lines of JSON, one object each.
#![tactic(auto)]

mod fields;
mod lines;
mod rows;
mod states;
mod texts;

pub use lines::{Claimed, Instance, line};
