//! The state file: the text of a history's declarations, its comparability word, and what is kept of each point's own samples.
#![tactic(auto)]

mod declarations;
mod entries;
mod fields;
mod front;
mod given;
mod kept;
pub mod laws;
mod loading;
mod matching;
mod reading;
mod reading_kept;
mod reading_states;
mod saving;
mod states;

pub use loading::{LoadFault, Loaded, load};
pub use saving::{push_saved, save};
