//! The samples of a point: its own and, mapped through the edges into it, those of its children; and what answers for all of them.
#![tactic(auto)]

mod composing;
mod descent;
mod engines;
mod having;
pub mod laws;
mod levels;
mod merged;
mod shortcut;
mod way;

pub use composing::partners_of;
pub use engines::engine_of;
pub use having::have_samples;
pub use merged::{Merged, merge, merge_by};
pub use shortcut::{Shortcut, shortcuts};
pub use way::{Way, partners_at};
