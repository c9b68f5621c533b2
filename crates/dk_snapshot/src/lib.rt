//! What an engine keeps, part by part, in the order in which it is saved: the members of each class, patterns with a truth value for
//! each leader, and constants.
#![tactic(auto)]

mod classes;
mod entries;
mod known;
mod members;
mod pattern;
mod presence;

pub use classes::classes_in_order;
pub use entries::constants_from;
pub use known::{Known, known_in_order};
pub use members::classes_from;
pub use pattern::{Pattern, pattern_of, patterns_in_order};
pub use presence::{held_in_order, presence_from};
