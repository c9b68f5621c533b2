// Candidates for a section.
use crate::Facts;
use dk_template::{RowId, State, Tuple};

/// An instance that holds, with its state, its count and its facts.
#[derive(Debug, Drop)]
pub struct Candidate {
    pub row: RowId,
    pub vars: Tuple,
    pub state: State,
    pub count: u64,
    pub facts: Facts,
}
