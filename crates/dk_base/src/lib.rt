//! What every layer stands on: values and the texts that write them, names and words of lines, lists and texts that contracts
//! see as lists, the reasons for which input is refused, and the one error of want of memory.
#![tactic(auto)]

mod faults;
mod kinds;
pub mod laws;
mod lists;
mod memory;
mod names;
mod numbers;
mod sameness;
mod splitting;
mod texts;
mod values;
mod why;

pub use faults::{BlockFault, Fault};
pub use kinds::{Compar, Form, Kind, PointId, VarId, VarInfo, comparable};
pub use lists::List;
pub use memory::NoMemory;
pub use names::{escape, is_plain, is_spelling, unescape};
pub use numbers::wide::{in_i64, in_u64, parse_wide};
pub use numbers::{parse_integer, parse_natural, short_number};
pub use sameness::{same, same_bytes, same_items, same_kept};
pub use splitting::blanks::{first_word, rest_of_line, trim_blanks, words};
pub use splitting::is_blank;
pub use texts::Text;
pub use values::items::is_text;
pub use values::parsing::{ValueFault, parse_value};
pub use values::spelling::spell;
pub use values::tuples::{
    bool_at, bools_at, hash_at, hashes_at, int_at, ints_at, text_at, texts_at,
};
pub use values::{Value, View};
pub use why::Why;

/// An arena: what lies in it goes all at once.
pub type Arena = bumpalo::Bump;
