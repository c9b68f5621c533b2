//! The program `dk_tell`: a report in the reader's own language.
#![tactic(auto)]

mod command;
mod opening;
mod reported;
mod telling;
mod texts;
mod top;

pub use command::Command;
pub use reported::Reported;
pub use texts::{help_text, usage_line, version_text};
pub use top::{run_tell, tell_usage};
