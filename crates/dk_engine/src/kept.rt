// What an engine keeps.
use crate::Slots;
use dk_classes::Classes;
use dk_constants::Constants;
use dk_presence::Presence;

/// What an engine keeps of samples: their number, at most 2^64 - 1, the leaders by variable, the constants with their values, the
/// patterns of present leaders with their counts, and the slots, ascending.
#[derive(Drop)]
pub struct Kept {
    pub samples: u64,
    pub leaders: Classes,
    pub known: Constants,
    pub held: Presence,
    pub slots: Slots,
}
