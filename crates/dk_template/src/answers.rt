// What answers for rows.
ghost use Rattle.std.specs.Prelude.{◌≡◌, ◌<◌, ◌≤◌, ℕ, Bool, IfOk, IsTrue, List, OnErr, length};
ghost use Rattle.dk_base.specs.declared.kinds.VarId.{VarId};
ghost use Rattle.dk_base.specs.declared.kinds.VarInfo.{VarInfo};
ghost use Rattle.dk_forms.specs.declared.states.State.{State};
ghost use Rattle.dk_template.specs.Admitted.{admits};
ghost use Rattle.dk_template.specs.Premises.{AreThere, IsUsable, MayWantMemory, premise_fits};
ghost use Rattle.dk_template.specs.Proper.{IsProper};
ghost use Rattle.dk_template.specs.Templates.{IsRowOf, form_of};
ghost use Rattle.dk_template.specs.declared.grammar.Grammar.{Grammar};
ghost use Rattle.dk_template.specs.declared.grammar.RowId.{RowId};

use crate::asking::{asked_count, asked_row, asked_vars, suffices_for};
use crate::{RowId, State};
use dk_base::{NoMemory, VarId};

/// A premise of a rule, over the roles of the rule's conclusion.
#[derive(Clone, Copy, Debug, PartialEq, Eq)]
pub enum Premise {
    /// The row's state fits. It has a relation, and its roles are the first of these.
    Holds { row: RowId, roles: [u8; 3] },
    /// The least value is at least `k`.
    LeastAtLeast { row: RowId, role: u8, k: i64 },
    /// The greatest value is at most `k`.
    GreatestAtMost { row: RowId, role: u8, k: i64 },
    /// The only value is `k`.
    Only { role: u8, k: i64 },
}

/// What answers for the rows of a grammar over some variables, however it keeps what it knows.
pub trait Answers {
    /// Its grammar.
    ghost grammar: { Self → Grammar };

    /// Its variables.
    ghost infos: { Self → List VarInfo };

    /// The state of a row over variables.
    ghost answered: { Self → RowId → List VarId → State };

    /// In how many samples none of the variables is missing, at most 2^64 - 1; of no variables, how many samples there are.
    ghost counted: { Self → List VarId → ℕ };

    /// Whether two variables agree: they are of one kind and have equal values in each sample.
    ghost agreeing: { Self → VarId → VarId → Bool };

    /// The state of a row over variables that it admits, in any order and with any repeats. It is proper for the row. Only rows over
    /// strings want memory, and never the row that two sequences of strings are the same.
    fn answer(&self, row: RowId, vars: &[VarId]) -> Result<State, NoMemory>
        requires row { IsRowOf (grammar self.now) row }
        requires vars { IsTrue (admits row (infos self.now) vars.now) }
        ensures state { IfOk result (λ state. state ≡ answered self.now row vars.now) }
        ensures proper { IfOk result (λ state. IsProper (form_of row) state) }
        ensures err { OnErr result (MayWantMemory row) };

    /// In how many samples none of the variables is missing, at most 2^64 - 1; of no variables, how many samples there are.
    fn count(&self, vars: &[VarId]) -> u64
        requires few { length vars.now ≤ 3 }
        requires there { AreThere (infos self.now) vars.now }
        ensures { result ≡ counted self.now vars.now };

    /// Whether the two variables are of one kind and have equal values in each sample, the missing value being equal to itself alone.
    fn agree(&self, v: VarId, w: VarId) -> bool
        requires v { v.0 < length (infos self.now) }
        requires w { w.0 < length (infos self.now) }
        ensures { result ≡ agreeing self.now v w };

    /// Whether a premise fits over the variables of its rule's conclusion. It takes no memory.
    fn premise(&self, premise: &Premise, vars: &[VarId]) -> bool
        requires { IsUsable (grammar self.now) (infos self.now) premise.now vars.now }
        ensures { result ≡ premise_fits (answered self.now) premise.now vars.now }
    {
        let asked = asked_vars(premise, vars);
        match self.answer(asked_row(premise), &asked[..asked_count(premise)]) {
            Ok(state) => suffices_for(premise, &state),
            Err(_) => unreachable!(),
        }
    }
}
