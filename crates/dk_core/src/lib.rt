//! The session behind a run: it reads blocks one after another, and reports what held in their samples.
#![tactic(auto)]

mod kept;
pub mod laws;
mod session;

pub use dk_hierarchy::Shortcut;
pub use dk_report::Options;
pub use dk_state::LoadFault;
pub use session::Session;
