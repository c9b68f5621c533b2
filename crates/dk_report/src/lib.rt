//! The section of a point, from what the engines of a table's points keep.
#![tactic(auto)]

mod asking;
mod counting;
mod keeping;
pub mod laws;
mod narrowing;
mod options;
mod parents;
mod sections;
mod separate;
mod stats;
mod sweeping;
mod viewing;

pub use options::Options;
pub use sections::{kept_instances, push_section, push_section_by};
pub use separate::kept_alone;
pub use stats::push_stats;
