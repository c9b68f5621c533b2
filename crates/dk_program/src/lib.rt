//! Programs that read files of declarations and records, and then write a report.
//!
//! A program implements `Arguments` and `Consumer`, `Program` for its report, which may be in parts, and `Begins`, or `Opens` where it reads
//! another file in front; `run_program` or `run_opening` does the rest: words, help and version, files, messages, and the status. A program
//! of another kind begins with `asked_run`, and may end by `end_with`, `tell_usage` and `tell_fault`.
#![tactic(auto)]

mod asking;
mod first_file;
mod program;
mod reporting;
mod running;
mod telling;

pub use asking::asked_run;
pub use first_file::fault_of_lines;
pub use program::{Begins, Opens, Program};
pub use reporting::{Halt, InParts, tell_parts, write};
pub use running::{run_opening, run_program};
pub use telling::{end_with, tell_fault, tell_file_fault, tell_help, tell_usage, tell_version};
