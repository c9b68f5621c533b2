// The sizes of what an engine keeps.

/// How many samples there were, and how many leaders, constants, patterns and slots are kept.
#[derive(Clone, Copy, Debug, PartialEq, Eq)]
pub struct Counts {
    pub samples: u64,
    pub leaders: u32,
    pub constants: u32,
    pub patterns: u64,
    pub slots: u64,
}
