// The options of a session.

/// Which instances a report leaves out, and whether exits without an entry are left out.
#[derive(Clone, Copy, Debug, PartialEq, Eq)]
pub struct Options {
    /// The least count of an instance.
    pub least: u64,
    pub keep_implied: bool,
    pub keep_incomparable: bool,
    pub keep_members: bool,
    pub keep_constant: bool,
    pub keep_parent: bool,
    pub ignore_missing_entry: bool,
}
