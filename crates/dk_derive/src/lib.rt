//! Derived variables: the sizes of sequences, their elements and slices; their names and values, and their partners in children.
#![tactic(auto)]

mod derived;
mod forms;
pub mod laws;
mod names;
mod partners;
mod values;

pub use derived::derive;
pub use partners::partner;
pub use values::extend;
