//! Traces of tables: what holds in the rows of a table of cells is found by writing each row as a sample.
//!
//! A column has whole numbers, truth values, decimals with one number of places, or texts, by what its cells that aren't empty write;
//! an empty cell is a missing value. `run_table` is the run behind the program.
#![tactic(auto)]

mod columns;
mod faults;
mod file_bytes;
pub mod laws;
mod reading;
mod rows;
mod run;
mod streaming;
mod tables;
mod top;
mod words;
mod writing;

pub use columns::cells::TruthWords;
pub use columns::{CANDIDATES, ColumnKind};
pub use faults::{Refusal, TableFault, TableWhy};
pub use top::{run_table, tell_usage};
pub use words::TableArguments;
pub use words::command::Command;
