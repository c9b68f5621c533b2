//! Traces that are written: declarations and sample records, as they are read back.
//!
//! `push_declaration` and `push_record` write the lines of a block behind a text that begins with `header_text`, and `Writer` writes whole
//! blocks to a stream and keeps which points are declared. What the lines come to for a reader is said by the theorems in `laws`.
#![tactic(auto)]

mod declarations;
pub mod laws;
mod names;
mod records;
mod values;
mod writable;
mod writer;

pub use declarations::{push_declaration, rep_text};
pub use names::{has_none, is_line, is_word, push_escaped};
pub use records::push_record;
pub use writable::{can_declare, can_record};
pub use writer::{WriteFault, Writer, header_text};
