//! The engine of a point: what it keeps of the point's samples, and what it answers from that alone.
#![tactic(auto)]

mod counts;
mod engine;
mod feed;
mod idle;
mod kept;
pub mod laws;
mod over;
mod saved;
mod slots;
pub mod step_laws;
mod sweeps;

pub use counts::Counts;
pub use dk_snapshot::{Known, Pattern};
pub use engine::Engine;
pub use feed::now::Now;
pub use kept::Kept;
pub use over::points::point;
pub use saved::PartsFault;
pub use saved::parts::Parts;
pub use slots::Slots;
pub use slots::slot::Slot;
pub use sweeps::suited::suited_vars;
