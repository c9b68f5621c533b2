//! What rows say of variables in samples: fits, counts and instances. Definitions alone, and the laws that they keep.
#![tactic(auto)]

pub mod laws;
