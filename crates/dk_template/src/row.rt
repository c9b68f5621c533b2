// What a row promises.
ghost use Rattle.std.specs.Prelude.{◌≡◌, ◌↔◌, [], ◌∷◌, IfOk, IsTrue, List, OnErr};
ghost use Rattle.dk_base.specs.Values.{values_of};
ghost use Rattle.dk_base.specs.declared.kinds.Kind.{Kind};
ghost use Rattle.dk_base.specs.declared.values.Value.{Value};
ghost use Rattle.dk_forms.specs.declared.states.State.{State};
ghost use Rattle.dk_template.specs.Joins.{joined};
ghost use Rattle.dk_template.specs.Proper.{IsProper};
ghost use Rattle.dk_template.specs.Rows.{IsTuple, RowLaws};
ghost use Rattle.dk_template.specs.declared.templates.StateForm.{StateForm};

use crate::State;
use dk_base::{NoMemory, View};
use std::alloc::Global;

/// A row of the grammar: what it says of a list of tuples.
pub trait Row {
    /// The kinds of the values that it takes, by role.
    ghost kinds: { Self → List Kind };

    /// The form of its states.
    ghost form: { Self → StateForm };

    /// The state of a list of tuples.
    ghost state_of: { Self → List (List Value) → State };

    /// The state of no tuples.
    fn empty(&self) -> State
        ensures { result ≡ State.Empty }
    {
        State::Empty
    }

    /// The state of one tuple. Only texts want memory.
    fn point(&self, alloc: Global, tuple: &[View<'_>]) -> Result<State, NoMemory>
        requires { IsTuple (kinds self.now) (values_of tuple.now) }
        ensures state { IfOk result (λ state. state ≡ state_of self.now (values_of tuple.now ∷ [])) }
        ensures err { OnErr result (form self.now ≡ StateForm.Texts) };

    /// The state of two lists together. Only texts want memory.
    fn join(&self, alloc: Global, a: State, b: &State) -> Result<State, NoMemory>
        requires a { IsProper (form self.now) a }
        requires b { IsProper (form self.now) b.now }
        ensures state { IfOk result (λ state. state ≡ joined (form self.now) a b.now) }
        ensures err { OnErr result (form self.now ≡ StateForm.Texts) };

    /// Whether a tuple leaves a state as it is. It takes no memory.
    fn stays(&self, state: &State, tuple: &[View<'_>]) -> bool
        requires state { IsProper (form self.now) state.now }
        requires tuple { IsTuple (kinds self.now) (values_of tuple.now) }
        ensures { IsTrue result ↔ (joined (form self.now) state.now (state_of self.now (values_of tuple.now ∷ [])) ≡ state.now) };

    /// Whether nothing that the row could say is so of all tuples.
    fn broken(&self, state: &State) -> bool
        requires { IsProper (form self.now) state.now }
        ensures { IsTrue result ↔ (state.now ≡ State.Broken) }
    {
        matches!(state, State::Broken)
    }

    ghost laws: { (row : Self) → RowLaws (kinds row) (form row) (state_of row) };
}

/// The state of one tuple, which is proper. Only texts want memory.
pub fn point_of<R: Row>(row: &R, alloc: Global, tuple: &[View<'_>]) -> Result<State, NoMemory>
    requires { IsTuple (R.kinds row.now) (values_of tuple.now) }
    ensures state { IfOk result (λ state. state ≡ R.state_of row.now (values_of tuple.now ∷ [])) }
    ensures proper { IfOk result (λ state. IsProper (R.form row.now) state) }
    ensures err { OnErr result (R.form row.now ≡ StateForm.Texts) }
{
    row.point(alloc, tuple)
}
