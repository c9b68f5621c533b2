//! Reports in a format: their lines as objects of JSON, as a function of their point, or as a page.
#![tactic(auto)]

mod formats;
mod functions;
mod json;
pub mod laws;
mod pages;
mod reports;
mod sections;

pub use formats::Format;
pub use reports::report;
