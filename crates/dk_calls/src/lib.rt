//! Calls: exits matched with their entries, within a file.
#![tactic(auto)]

mod calls;
pub mod laws;
mod nonces;
mod origs;
mod stack;

pub use calls::{Calls, is_entry};
