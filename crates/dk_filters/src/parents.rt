// What a parent shows of a point's instances.
ghost use Rattle.std.specs.Prelude.{◌≡◌, ◌≤◌, IfOk, IsTrue, OnErr, drop, length, map, take};
ghost use Rattle.dk_template.specs.Admitted.{admits};
ghost use Rattle.dk_template.specs.Premises.{MayWantMemory};
ghost use Rattle.dk_template.specs.Templates.{IsRowOf};
ghost use Rattle.dk_filters.specs.Choices.{all_from, some_from};
ghost use Rattle.dk_filters.specs.Facts.{stands_there};
ghost use Rattle.dk_filters.specs.Found.{listed_at};
ghost use Rattle.dk_filters.specs.Parents.{answers_by};

use crate::comparing::is_incomparable;
use crate::instances::are_distinct;
use dk_base::{List, NoMemory, VarId, VarInfo};
use dk_template::{Answers, RowId, State};

/// A parent of a point, as an edge to it shows it.
#[derive(Drop)]
pub struct ParentView<'p, P> {
    /// What answers for the parent.
    pub answers: &'p P,
    /// The parent's variables.
    pub vars: &'p [VarInfo],
    /// For each of them its partner at the point.
    pub partner: &'p [Option<VarId>],
}

// A row at a parent, with a state that it may have there.
#[derive(Drop)]
pub(crate) struct Sought<'a, P: Answers> {
    pub(crate) there: &'a P,
    pub(crate) vars: &'a [VarInfo],
    pub(crate) row: RowId,
    pub(crate) state: &'a State,
    ghost row_is: { IsRowOf (P.grammar there.now) row },
    ghost same: { P.infos there.now ≡ vars.now },
}

// What is listed for a variable.
fn listed_for(listed: &[List<VarId>], v: VarId) -> &[VarId]
    ensures { result.now ≡ listed_at listed.now v }
{
    match listed.get(v.0 as usize) {
        Some(vars) => vars.as_slice(),
        None => &[],
    }
}

impl<'a, P: Answers> Sought<'a, P> {
    // Whether the row has the state over these variables of the parent, which are distinct and not incomparable.
    fn stands(&self, choice: &[VarId]) -> Result<bool, NoMemory>
        requires { IsTrue (admits self.now.row self.now.vars.now choice.now) }
        ensures state { IfOk result (λ stands. stands ≡ stands_there (answers_by self.now.vars.now (P.answered self.now.there.now) (P.counted self.now.there.now) (P.agreeing self.now.there.now)) self.now.row self.now.state.now choice.now) }
        ensures err { OnErr result (MayWantMemory self.now.row) }
    {
        if !are_distinct(choice) || is_incomparable(self.vars, choice) {
            return Ok(false);
        }
        let state = self.there.answer(self.row, choice)?;
        Ok(*self.state == state)
    }

    // Whether it has the state over some variables of the parent: those chosen for the first roles, and for each later role one of
    // those that are listed for the tuple's variable.
    pub(crate) fn stands_somewhere(
        &self,
        listed: &[List<VarId>],
        tuple: &[VarId],
        chosen: [VarId; 3],
        role: usize,
    ) -> Result<bool, NoMemory>
        requires few { length tuple.now ≤ 3 }
        requires within { role ≤ length tuple.now }
        requires admitted { IsTrue (all_from (admits self.now.row self.now.vars.now) (take role chosen) (map (listed_at listed.now) (drop role tuple.now))) }
        ensures state { IfOk result (λ stands. stands ≡ some_from (stands_there (answers_by self.now.vars.now (P.answered self.now.there.now) (P.counted self.now.there.now) (P.agreeing self.now.there.now)) self.now.row self.now.state.now) (take role chosen) (map (listed_at listed.now) (drop role tuple.now))) }
        ensures err { OnErr result (MayWantMemory self.now.row) }
    {
        if role == tuple.len() {
            return self.stands(&chosen[..role]);
        }
        for w in listed_for(listed, tuple[role]) {
            let mut next = chosen;
            next[role] = *w;
            if self.stands_somewhere(listed, tuple, next, role + 1)? {
                return Ok(true);
            }
        }
        Ok(false)
    }
}
