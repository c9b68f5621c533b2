//! A report as a page of HTML: one file, with the points as a list and each point's lines grouped by kind of property.
#![tactic(auto)]

mod groups;
mod headings;
mod ids;
pub mod laws;
mod numbers;
mod pages;
mod parts;
mod showing;

pub use groups::{Group, group_of};
pub use headings::Headings;
pub use pages::{PageLine, PageSection, page};
