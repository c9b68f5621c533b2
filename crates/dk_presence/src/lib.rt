//! Presence: in how many samples which leaders are present.
#![tactic(auto)]

mod held;
pub mod laws;
mod matching;
mod places;
mod presence;
mod steps;

pub use held::Held;
pub use presence::{Presence, present_leaders};
pub use steps::contains;
