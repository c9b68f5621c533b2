//! The program `dk_check`: whether the lines of a report hold in other traces.
#![tactic(auto)]

mod checking;
mod command;
mod opening;
mod reporting;
mod texts;
mod top;

pub use checking::Checking;
pub use command::Command;
pub use texts::{help_text, usage_line, version_text};
pub use top::{run_check, tell_usage};
