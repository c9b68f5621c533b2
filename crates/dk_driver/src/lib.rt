//! The driver of programs that read traces: it reads files one after another and hands what their blocks do to a consumer.
//!
//! A program implements `Consumer` for what it makes of points and samples, and calls `read_files`. Reading writes nothing: it has no sinks.
#![tactic(auto)]

mod consumer;
mod fault;
mod feed;
pub mod laws;
mod reading;
mod traces;

pub use consumer::Consumer;
pub use fault::{FileFault, FilesFault};
pub use feed::Feed;
pub use reading::read_files;
pub use traces::Traces;
