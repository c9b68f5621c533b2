//! Records of several recorders: in which order they stand in a file doesn't matter.
#![tactic(auto)]

pub mod laws;
