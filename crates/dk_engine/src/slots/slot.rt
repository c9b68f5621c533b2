// A slot.
ghost use Rattle.std.specs.Prelude.{◌≡◌};

use dk_base::VarId;
use dk_template::{RowId, State, Tuple};

/// A row over leaders, with its state.
#[derive(Debug, Drop)]
pub struct Slot {
    pub row: RowId,
    pub leaders: Tuple,
    pub state: State,
}

impl dk_grammar::Slot for Slot {
    ghost vars = { λ s. s.leaders };

    ghost state = { λ s. s.state };

    fn vars(&self) -> &[VarId] {
        self.leaders.as_slice()
    }

    fn state(&self) -> &State {
        &self.state
    }
}
