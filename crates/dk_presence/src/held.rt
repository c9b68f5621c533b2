// A pattern and its count.
use dk_base::{List, VarId};

/// A pattern of present leaders, ascending, with the number of samples in which these are the present ones.
#[derive(Debug, Drop)]
pub struct Held {
    pub count: u64,
    pub leaders: List<VarId>,
}
