//! A theorem alone: the end of files by dk_driver is the end of their course by dk_run, so what is said of runs by either is the same.
#![tactic(auto)]

pub mod laws;
