//! The command line of `daikon`: what its words ask for, as `clap` reads them, and the texts that tell of them.
#![tactic(auto)]

mod command;
pub mod laws;
mod reading;
mod texts;

pub use command::Command;
pub use reading::read_words;
pub use texts::{help_text, usage_line, version_text};
