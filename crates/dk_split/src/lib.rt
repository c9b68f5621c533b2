//! The program `dk_split`: what holds of the variables of a point where a Bool is true, or where it is false, and not in all samples.
#![tactic(auto)]

mod command;
mod reporting;
mod splits;
mod texts;
mod top;

pub use command::Command;
pub use splits::Splits;
pub use texts::{help_text, usage_line, version_text};
pub use top::{run_split, tell_usage};
