//! Assertion files: lines of a report, or lines like them, which say what is claimed of points.
#![tactic(auto)]

mod claims;
mod counts;
pub mod laws;
mod marks;
mod reading;
mod sections;

pub use claims::Claim;
pub use reading::{read_claims, read_sections};
pub use sections::{ReportLine, Section, Sections};
