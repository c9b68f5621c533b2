//! The grammar: the table of its rows, which tuples of variables they take, which states are proper and which fit, and what a row and
//! what answers for rows promise.
#![tactic(auto)]

mod admitting;
mod answers;
mod asking;
mod dispatch;
mod exchange;
mod fitting;
mod grammar;
mod joining;
pub mod laws;
mod properness;
mod row;
pub mod rows;
mod templates;
mod tuple;

pub use admitting::{admits, is_written, suits};
pub use answers::{Answers, Premise};
pub use asking::{asked_row, suffices_for};
pub use dk_forms::{Few, State};
pub use exchange::{Exchange, exchange_state, turn_state, written_order};
pub use fitting::fits;
pub use grammar::{Grammar, RowId};
pub use joining::join_states;
pub use properness::proper;
pub use row::{Row, point_of};
pub use templates::{Role, RowInfo, StateForm, Symmetry, Takes, Template, info, template_at};
pub use tuple::Tuple;
