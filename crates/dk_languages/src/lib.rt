//! Lines of a report as expressions of Python, C and SMT-LIB.
#![tactic(auto)]

mod fillings;
mod languages;
pub mod laws;
mod literals;
mod rows;
mod speaking;
mod tellings;
mod variables;

pub use languages::Language;
pub use literals::push_octal;
pub use tellings::telling;
pub use variables::paths::{is_symbol_byte, push_words};
pub use variables::{Base, Parameter, bases, parameters};
