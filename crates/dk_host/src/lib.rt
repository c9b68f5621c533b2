//! What a program reads from and writes to, for real: files by name, standard output and standard error, and the file of the state.
#![tactic(auto)]

mod inputs;
mod replacement;
mod sinks;

pub use inputs::FileInputs;
pub use sinks::HostSinks;
