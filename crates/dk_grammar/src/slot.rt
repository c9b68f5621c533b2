// What a slot lends.
ghost use Rattle.std.specs.Prelude.{◌≡◌, List};
ghost use Rattle.dk_base.specs.declared.kinds.VarId.{VarId};
ghost use Rattle.dk_forms.specs.declared.states.State.{State};

use dk_base::VarId;
use dk_template::State;

/// A slot of a row: variables and the row's state over them.
pub trait Slot {
    /// The slot's variables, by the row's roles.
    ghost vars: { Self → List VarId };

    /// The slot's state.
    ghost state: { Self → State };

    /// Its variables, by the row's roles.
    fn vars(&self) -> &[VarId]
        ensures { result.now ≡ vars self.now };

    /// The slot's state.
    fn state(&self) -> &State
        ensures { result.now ≡ state self.now };
}
