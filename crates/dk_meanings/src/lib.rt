//! What each row of the grammar says: its relation, or the values that its state tells of. Definitions alone, and the laws that
//! they keep.
#![tactic(auto)]

pub mod laws;
