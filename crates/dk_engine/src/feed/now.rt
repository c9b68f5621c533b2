// What a sample makes of the other parts.
use dk_base::{List, Value, VarId};
use dk_classes::Classes;
use dk_constants::Constants;

/// What a sample makes of the parts beside patterns and slots: each variable's leader, the constants with their values, the new
/// leaders, each with its old one, and the constants that ended, each with the value that it had.
#[derive(Drop)]
pub struct Now {
    pub leaders: Classes,
    pub known: Constants,
    pub new: List<(VarId, VarId)>,
    pub ended: List<(VarId, Value)>,
}
