//! Events: what the blocks of files do, one after another, with the values of derived variables.
//!
//! `Events` reads blocks as a session does, and keeps no samples: each is its caller's, who may look at it, pass it on or drop it.
#![tactic(auto)]

mod ended;
mod event;
mod events;

pub use ended::Ended;
pub use event::Event;
pub use events::Events;
