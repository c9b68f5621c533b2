// Assertions, and their tests.
ghost use Rattle.std.specs.Prelude.{◌≡◌, ◌↔◌, IfOk, IsTrue, OnErr, OnOk, not};
ghost use Rattle.dk_base.specs.Values.{values_of};
ghost use Rattle.dk_template.specs.Proper.{IsProper};
ghost use Rattle.dk_template.specs.Rows.{IsTuple};
ghost use Rattle.dk_template.specs.Templates.{IsRow, form_of, role_kinds};
ghost use Rattle.dk_template.specs.declared.templates.StateForm.{StateForm};
ghost use Rattle.dk_expr.specs.Violations.{IsUpheld, IsViolated, kept_state, with_tuple};

use dk_base::{NoMemory, View};
use dk_grammar::{point, stays};
use dk_template::{RowId, State, Tuple};
use std::alloc::Global;

/// What a line of a report asserts: an instance, and the state of its tuples. Where the line doesn't tell the state, it is Empty.
#[derive(Debug, Drop)]
pub struct Assertion {
    /// The row of the grammar.
    pub row: RowId,
    /// The variables, by the row's roles.
    pub vars: Tuple,
    /// The state that is asserted.
    pub state: State,
}

// Whether nothing is known yet.
fn is_unknown(state: &State) -> bool
    ensures { IsTrue result ↔ (state.now ≡ State.Empty) }
{
    matches!(state, State::Empty)
}

// Whether nothing is left to say.
fn is_broken(state: &State) -> bool
    ensures { IsTrue result ↔ (state.now ≡ State.Broken) }
{
    matches!(state, State::Broken)
}

impl Assertion {
    // The first test of an assertion of which nothing is known yet.
    fn test_first(&mut self, alloc: Global, tuple: &[View<'_>]) -> Result<bool, NoMemory>
        requires row { IsRow self.old.row }
        requires state { self.old.state ≡ State.Empty }
        requires tuple { IsTuple (role_kinds self.old.row) (values_of tuple.now) }
        ensures violated { IfOk result (λ violated. IsTrue violated ↔ (with_tuple self.old.row State.Empty (values_of tuple.now) ≡ State.Broken)) }
        ensures row { self.new.row ≡ self.old.row }
        ensures vars { self.new.vars ≡ self.old.vars }
        ensures state { OnOk result (self.new.state ≡ kept_state State.Empty (with_tuple self.old.row State.Empty (values_of tuple.now))) }
        ensures unchanged { OnErr result (self.new ≡ self.old) }
        ensures err { OnErr result (form_of self.old.row ≡ StateForm.Texts) }
    {
        let next = point(alloc, self.row, tuple)?;
        if is_broken(&next) {
            return Ok(true);
        }
        self.state = next;
        Ok(false)
    }

    /// Whether the tuple violates the assertion: whether the state joined with the tuple is another one, or, where nothing is known yet
    /// (Empty), Broken. The assertion keeps its state; only where nothing was known yet and the tuple doesn't violate it, the joined state
    /// is asserted from then on. Only texts want memory, and only where nothing is known yet; the assertion is then as it was.
    pub fn test(&mut self, alloc: Global, tuple: &[View<'_>]) -> Result<bool, NoMemory>
        requires row { IsRow self.old.row }
        requires state { IsProper (form_of self.old.row) self.old.state }
        requires tuple { IsTuple (role_kinds self.old.row) (values_of tuple.now) }
        ensures violated { IfOk result (λ violated. IsTrue violated ↔ IsViolated self.old.state (with_tuple self.old.row self.old.state (values_of tuple.now))) }
        ensures upheld { IfOk result (λ violated. IsTrue (not violated) → IsUpheld self.old.state (with_tuple self.old.row self.old.state (values_of tuple.now))) }
        ensures row { self.new.row ≡ self.old.row }
        ensures vars { self.new.vars ≡ self.old.vars }
        ensures state { OnOk result (self.new.state ≡ kept_state self.old.state (with_tuple self.old.row self.old.state (values_of tuple.now))) }
        ensures proper { OnOk result (IsProper (form_of self.new.row) self.new.state) }
        ensures unchanged { OnErr result (self.new ≡ self.old) }
        ensures err { OnErr result (form_of self.old.row ≡ StateForm.Texts) }
    {
        if is_unknown(&self.state) {
            return self.test_first(alloc, tuple);
        }
        Ok(!stays(self.row, &self.state, tuple))
    }
}
