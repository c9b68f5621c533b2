//! The run behind the command `daikon`: it reads files of declarations and records, and reports what holds of the variables of their
//! points.
#![tactic(auto)]

mod choosing;
pub mod laws;
mod loaded;
mod messages;
mod reading;
mod reporting;
mod starting;
mod top;

pub use dk_events::Ended as Status;
pub use loaded::report_loaded;
pub use top::{run, run_command, tell_usage};
