//! The arguments of a program: what it accepts, as data, and what given arguments ask for, as `clap` reads them.
//!
//! A program describes its command by a `Description`, and implements `Arguments` for what it is asked to do; `read_arguments` does the rest.
#![tactic(auto)]

mod among;
mod arguments;
mod clap_command;
mod description;
mod fault;
pub mod laws;
mod matches;
mod reading;
mod request;
mod word;

pub use arguments::Arguments;
pub use description::{Argument, COUNT, Description, Form};
pub use fault::ArgumentsFault;
pub use matches::Matches;
pub use reading::read_arguments;
pub use request::{Request, usage};
pub use word::Word;
