//! The lines of a point as one function of Python, a macro of C, or a function of SMT-LIB.
#![tactic(auto)]

mod functions;
mod parameters;
mod quoting;

pub use functions::{preamble, push_assertion, push_closing, push_comment, push_opening};
