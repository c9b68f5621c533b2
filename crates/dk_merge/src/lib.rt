//! The program `dk_merge`: states of several runs as one, or the traces of several recorders as one file.
#![tactic(auto)]

mod gathered;
mod gathering;
pub mod laws;
mod reading;
mod running;
mod telling;
mod top;

pub use dk_join::{JoinFault, join};
pub use dk_merge_command_line::{Command, help_text, usage_line, version_text};
pub use dk_merging::{MergeFault, merge_two};
pub use dk_turns::turns;
pub use top::{run_merge, tell_usage};
