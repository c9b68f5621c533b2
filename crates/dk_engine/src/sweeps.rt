// The slots that answers give, over all tuples of leaders.
ghost use Rattle.std.specs.Prelude.{◌≡◌, ◌<◌, ◌≤◌, ◌∷◌, [], ◌++◌, All, IfOk, IsSomeAnd, IsTrue, List, OnOk, length};
ghost use Rattle.dk_base.specs.declared.kinds.VarId.{VarId};
ghost use Rattle.dk_template.specs.Templates.{IsRowOf, template_of};
ghost use Rattle.dk_ternary.specs.Rows.{operation_row};
ghost use Rattle.dk_engine.specs.Feeding.{read_after, slots_of, slots_of_row};
ghost use Rattle.dk_engine.specs.Feeding.Narrow.{freed_by_all};
ghost use Rattle.dk_engine.specs.Sweeps.{behind, considered, firsts, freed_slots, pairs, seconds, thirds, threes_with_one, threes_with_two, touched_slots, triples, twos_with_one, with_both, with_ends, with_one, with_two};
ghost use Rattle.dk_engine.specs.Sweeps.Suited.{suited_vars};

pub(crate) mod counting;
pub(crate) mod reaching;
pub(crate) mod suited;
pub(crate) mod touching;

use crate::feed::after::After;
use crate::feed::operations::{breaks, descend};
use crate::over::constant::are_known;
use crate::sweeps::reaching::rows_reached;
use crate::sweeps::suited::{Suited, suited_one};
use crate::{Slot, Slots};
use dk_base::{NoMemory, VarId, VarInfo};
use dk_constants::Constants;
use dk_suppress::suppressed;
use dk_template::{Grammar, Role, RowId, State, Takes, Tuple, admits, is_written, template_at};
use dk_ternary::Operation;
use std::alloc::Global;

/// What a sweep goes by: the variables, the constants, and the engine with one sample more, which answers.
#[derive(Drop)]
pub(crate) struct Sweep<'a> {
    pub(crate) alloc: Global,
    pub(crate) infos: &'a [VarInfo],
    pub(crate) known: &'a Constants,
    pub(crate) answers: &'a After<'a>,
    ghost same: { answers.now.whole.infos ≡ infos.now },
}

impl<'a> Sweep<'a> {
    // Slots with that of the leaders, if they have one.
    fn consider(&self, row: RowId, vars: &[VarId], slots: &mut Slots) -> Result<(), NoMemory>
        requires row { IsRowOf self.now.answers.now.whole.grammar row }
        requires few { length vars.now ≤ 3 }
        ensures { OnOk result (slots.new ≡ slots.old ++ considered self.now.infos.now self.now.known.now (read_after self.now.answers.now.whole.kept self.now.answers.now.sample) row vars.now) }
    {
        if !admits(row, self.infos, vars) || !is_written(row, vars) {
            return Ok(());
        }
        if self.answers.breaks(row, vars) {
            return Ok(());
        }
        if are_known(self.known, vars) {
            return Ok(());
        }
        let state = self.answers.unbroken_state(row, vars)?;
        if matches!(state, State::Broken) || suppressed(row, vars, self.answers) {
            return Ok(());
        }
        slots.push(Slot {
            row,
            leaders: Tuple::of(vars),
            state,
        })?;
        Ok(())
    }

    // Whether it is seen at once that the leaders have no slot of an operation's row: they aren't in its written order, or the sample
    // breaks it.
    #[inline(always)]
    fn is_out(&self, operation: Option<Operation>, v: VarId, w: VarId, x: VarId) -> bool
        ensures { IsTrue result → IsSomeAnd operation (λ o. considered self.now.infos.now self.now.known.now (read_after self.now.answers.now.whole.kept self.now.answers.now.sample) (operation_row o) (v ∷ w ∷ x ∷ []) ≡ []) }
    {
        match operation {
            Some(operation) => {
                descend(operation, w, x) || breaks(operation, self.answers.sample(), v, w, x)
            }
            None => false,
        }
    }

    // Those of one leader each.
    fn firsts(&self, row: RowId, first: &[VarId], slots: &mut Slots) -> Result<(), NoMemory>
        requires { IsRowOf self.now.answers.now.whole.grammar row }
        ensures { OnOk result (slots.new ≡ slots.old ++ firsts self.now.infos.now self.now.known.now (read_after self.now.answers.now.whole.kept self.now.answers.now.sample) row first.now) }
    {
        for v in first {
            self.consider(row, &[*v], slots)?;
        }
        Ok(())
    }

    // Those of a leader and one of the list.
    fn seconds(
        &self,
        row: RowId,
        v: VarId,
        second: &[VarId],
        slots: &mut Slots,
    ) -> Result<(), NoMemory>
        requires { IsRowOf self.now.answers.now.whole.grammar row }
        ensures { OnOk result (slots.new ≡ slots.old ++ seconds self.now.infos.now self.now.known.now (read_after self.now.answers.now.whole.kept self.now.answers.now.sample) row v second.now) }
    {
        for w in second {
            self.consider(row, &[v, *w], slots)?;
        }
        Ok(())
    }

    // Those of two leaders and one of the list.
    fn thirds(
        &self,
        row: RowId,
        v: VarId,
        w: VarId,
        third: &[VarId],
        slots: &mut Slots,
    ) -> Result<(), NoMemory>
        requires { IsRowOf self.now.answers.now.whole.grammar row }
        ensures { OnOk result (slots.new ≡ slots.old ++ thirds self.now.infos.now self.now.known.now (read_after self.now.answers.now.whole.kept self.now.answers.now.sample) row v w third.now) }
    {
        let operation = Operation::of(row);
        for x in third {
            if !self.is_out(operation, v, w, *x) {
                self.consider(row, &[v, w, *x], slots)?;
            }
        }
        Ok(())
    }

    // Those of two leaders, one of each list.
    fn pairs(
        &self,
        row: RowId,
        first: &[VarId],
        second: &[VarId],
        slots: &mut Slots,
    ) -> Result<(), NoMemory>
        requires { IsRowOf self.now.answers.now.whole.grammar row }
        ensures { OnOk result (slots.new ≡ slots.old ++ pairs self.now.infos.now self.now.known.now (read_after self.now.answers.now.whole.kept self.now.answers.now.sample) row first.now second.now) }
    {
        for v in first {
            self.seconds(row, *v, second, slots)?;
        }
        Ok(())
    }

    // Those of a leader and two more, one of each list.
    fn behind(
        &self,
        row: RowId,
        v: VarId,
        second: &[VarId],
        third: &[VarId],
        slots: &mut Slots,
    ) -> Result<(), NoMemory>
        requires { IsRowOf self.now.answers.now.whole.grammar row }
        ensures { OnOk result (slots.new ≡ slots.old ++ behind self.now.infos.now self.now.known.now (read_after self.now.answers.now.whole.kept self.now.answers.now.sample) row v second.now third.now) }
    {
        for w in second {
            self.thirds(row, v, *w, third, slots)?;
        }
        Ok(())
    }

    // Those of three leaders, one of each list.
    fn triples(
        &self,
        row: RowId,
        first: &[VarId],
        second: &[VarId],
        third: &[VarId],
        slots: &mut Slots,
    ) -> Result<(), NoMemory>
        requires { IsRowOf self.now.answers.now.whole.grammar row }
        ensures { OnOk result (slots.new ≡ slots.old ++ triples self.now.infos.now self.now.known.now (read_after self.now.answers.now.whole.kept self.now.answers.now.sample) row first.now second.now third.now) }
    {
        for v in first {
            self.behind(row, *v, second, third, slots)?;
        }
        Ok(())
    }

    // The leader of a list of one, if it suits a role.
    fn one<'v>(&self, role: Role, one: &'v [VarId]) -> &'v [VarId]
        requires { length one.now ≡ 1 }
        ensures { result.now ≡ suited_vars role self.now.infos.now one.now }
    {
        suited_one(role, self.infos, one)
    }

    // Those of a row.
    fn of_row(&self, row: RowId, leaders: &Suited<'a>, slots: &mut Slots) -> Result<(), NoMemory>
        requires row { IsRowOf self.now.answers.now.whole.grammar row }
        requires infos { leaders.now.infos.now ≡ self.now.infos.now }
        ensures { OnOk result (slots.new ≡ slots.old ++ slots_of_row self.now.infos.now leaders.now.all self.now.known.now (read_after self.now.answers.now.whole.kept self.now.answers.now.sample) row) }
    {
        match template_at(row).takes {
            Takes::One(a) => self.firsts(row, leaders.at(a), slots),
            Takes::Two(a, b) => self.pairs(row, leaders.at(a), leaders.at(b), slots),
            Takes::Three(a, b, c) => {
                self.triples(row, leaders.at(a), leaders.at(b), leaders.at(c), slots)
            }
        }
    }

    /// All slots over these leaders, by row and then by leaders.
    pub(crate) fn all(&self, grammar: Grammar, leaders: &[VarId]) -> Result<Slots, NoMemory>
        requires { self.now.answers.now.whole.grammar ≡ grammar }
        ensures { IfOk result (λ slots. slots ≡ slots_of grammar self.now.infos.now leaders.now self.now.known.now (read_after self.now.answers.now.whole.kept self.now.answers.now.sample)) }
    {
        let suited = Suited::of(self.alloc, self.infos, leaders)?;
        let mut slots = Slots::new(self.alloc);
        for n in 0..grammar.rows() {
            self.of_row(RowId(n + 1), &suited, &mut slots)?;
        }
        Ok(slots)
    }

    // Those of two roles with a leader of one list: it stands at each role in turn, one of a second list before it, and any behind it.
    fn twos_with_one(
        &self,
        row: RowId,
        roles: (Role, Role),
        of: &Suited<'a>,
        before: &Suited<'a>,
        leaders: &Suited<'a>,
        slots: &mut Slots,
    ) -> Result<(), NoMemory>
        requires row { IsRowOf self.now.answers.now.whole.grammar row }
        requires takes { (template_of row).takes ≡ Takes.Two roles.0 roles.1 }
        requires of { of.now.infos.now ≡ self.now.infos.now }
        requires before { before.now.infos.now ≡ self.now.infos.now }
        requires leaders { leaders.now.infos.now ≡ self.now.infos.now }
        ensures { OnOk result (slots.new ≡ slots.old ++ twos_with_one self.now.infos.now self.now.known.now (read_after self.now.answers.now.whole.kept self.now.answers.now.sample) row of.now.all before.now.all leaders.now.all) }
    {
        let (a, b) = roles;
        self.pairs(row, of.at(a), leaders.at(b), slots)?;
        self.pairs(row, before.at(a), of.at(b), slots)
    }

    // The same of three roles.
    fn threes_with_one(
        &self,
        row: RowId,
        roles: (Role, Role, Role),
        of: &Suited<'a>,
        before: &Suited<'a>,
        leaders: &Suited<'a>,
        slots: &mut Slots,
    ) -> Result<(), NoMemory>
        requires row { IsRowOf self.now.answers.now.whole.grammar row }
        requires takes { (template_of row).takes ≡ Takes.Three roles.0 roles.1 roles.2 }
        requires of { of.now.infos.now ≡ self.now.infos.now }
        requires before { before.now.infos.now ≡ self.now.infos.now }
        requires leaders { leaders.now.infos.now ≡ self.now.infos.now }
        ensures { OnOk result (slots.new ≡ slots.old ++ threes_with_one self.now.infos.now self.now.known.now (read_after self.now.answers.now.whole.kept self.now.answers.now.sample) row of.now.all before.now.all leaders.now.all) }
    {
        let (a, b, c) = roles;
        self.triples(row, of.at(a), leaders.at(b), leaders.at(c), slots)?;
        self.triples(row, before.at(a), of.at(b), leaders.at(c), slots)?;
        self.triples(row, before.at(a), before.at(b), of.at(c), slots)
    }

    // The same of a row's roles.
    fn with_one(
        &self,
        row: RowId,
        of: &Suited<'a>,
        before: &Suited<'a>,
        leaders: &Suited<'a>,
        slots: &mut Slots,
    ) -> Result<(), NoMemory>
        requires row { IsRowOf self.now.answers.now.whole.grammar row }
        requires of { of.now.infos.now ≡ self.now.infos.now }
        requires before { before.now.infos.now ≡ self.now.infos.now }
        requires leaders { leaders.now.infos.now ≡ self.now.infos.now }
        ensures { OnOk result (slots.new ≡ slots.old ++ with_one self.now.infos.now self.now.known.now (read_after self.now.answers.now.whole.kept self.now.answers.now.sample) row of.now.all before.now.all leaders.now.all) }
    {
        match template_at(row).takes {
            Takes::One(a) => self.firsts(row, of.at(a), slots),
            Takes::Two(a, b) => self.twos_with_one(row, (a, b), of, before, leaders, slots),
            Takes::Three(a, b, c) => {
                self.threes_with_one(row, (a, b, c), of, before, leaders, slots)
            }
        }
    }

    // Those of three roles with two leaders, in this order, at any two of them.
    fn threes_with_two(
        &self,
        row: RowId,
        roles: (Role, Role, Role),
        v: VarId,
        w: VarId,
        leaders: &Suited<'a>,
        slots: &mut Slots,
    ) -> Result<(), NoMemory>
        requires row { IsRowOf self.now.answers.now.whole.grammar row }
        requires takes { (template_of row).takes ≡ Takes.Three roles.0 roles.1 roles.2 }
        requires leaders { leaders.now.infos.now ≡ self.now.infos.now }
        ensures { OnOk result (slots.new ≡ slots.old ++ threes_with_two self.now.infos.now self.now.known.now (read_after self.now.answers.now.whole.kept self.now.answers.now.sample) row v w leaders.now.all) }
    {
        let (a, b, c) = roles;
        let (v, w) = ([v], [w]);
        self.triples(row, self.one(a, &v), self.one(b, &w), leaders.at(c), slots)?;
        self.triples(row, self.one(a, &v), leaders.at(b), self.one(c, &w), slots)?;
        self.triples(row, leaders.at(a), self.one(b, &v), self.one(c, &w), slots)
    }

    // The same of a row's roles.
    fn with_two(
        &self,
        row: RowId,
        v: VarId,
        w: VarId,
        leaders: &Suited<'a>,
        slots: &mut Slots,
    ) -> Result<(), NoMemory>
        requires row { IsRowOf self.now.answers.now.whole.grammar row }
        requires leaders { leaders.now.infos.now ≡ self.now.infos.now }
        ensures { OnOk result (slots.new ≡ slots.old ++ with_two self.now.infos.now self.now.known.now (read_after self.now.answers.now.whole.kept self.now.answers.now.sample) row v w leaders.now.all) }
    {
        match template_at(row).takes {
            Takes::One(_) => Ok(()),
            Takes::Two(_, _) => self.pairs(row, &[v], &[w], slots),
            Takes::Three(a, b, c) => { self.threes_with_two(row, (a, b, c), v, w, leaders, slots) }
        }
    }

    // Those of a row with one of some leaders.
    fn with_any(
        &self,
        row: RowId,
        of: &[VarId],
        leaders: &Suited<'a>,
        slots: &mut Slots,
    ) -> Result<(), NoMemory>
        requires row { IsRowOf self.now.answers.now.whole.grammar row }
        requires leaders { leaders.now.infos.now ≡ self.now.infos.now }
        ensures { OnOk result (slots.new ≡ slots.old ++ with_one self.now.infos.now self.now.known.now (read_after self.now.answers.now.whole.kept self.now.answers.now.sample) row of.now leaders.now.all leaders.now.all) }
    {
        let of = Suited::of(self.alloc, self.infos, of)?;
        self.with_one(row, &of, leaders, leaders, slots)
    }

    // Those of a row with two leaders, which may be one.
    fn with_ends(
        &self,
        row: RowId,
        v: VarId,
        w: VarId,
        leaders: &Suited<'a>,
        slots: &mut Slots,
    ) -> Result<(), NoMemory>
        requires row { IsRowOf self.now.answers.now.whole.grammar row }
        requires leaders { leaders.now.infos.now ≡ self.now.infos.now }
        ensures { OnOk result (slots.new ≡ slots.old ++ with_ends self.now.infos.now self.now.known.now (read_after self.now.answers.now.whole.kept self.now.answers.now.sample) row v w leaders.now.all) }
    {
        if v.0 == w.0 {
            return self.with_any(row, &[v], leaders, slots);
        }
        self.with_two(row, v, w, leaders, slots)?;
        self.with_two(row, w, v, leaders, slots)
    }

    // Those of a row with the first and the last of some leaders.
    fn with_both(
        &self,
        row: RowId,
        lost: &[VarId],
        leaders: &Suited<'a>,
        slots: &mut Slots,
    ) -> Result<(), NoMemory>
        requires row { IsRowOf self.now.answers.now.whole.grammar row }
        requires some { 0 < length lost.now }
        requires infos { leaders.now.infos.now ≡ self.now.infos.now }
        ensures { OnOk result (slots.new ≡ slots.old ++ with_both self.now.infos.now self.now.known.now (read_after self.now.answers.now.whole.kept self.now.answers.now.sample) row lost.now leaders.now.all) }
    {
        self.with_ends(row, lost[0], lost[lost.len() - 1], leaders, slots)
    }

    /// Those of all rows with a leader that touches them, by the first one that does.
    pub(crate) fn touched_slots(
        &self,
        grammar: Grammar,
        touching: &[VarId],
        others: &[VarId],
        leaders: &Suited<'a>,
    ) -> Result<Slots, NoMemory>
        requires grammar { self.now.answers.now.whole.grammar ≡ grammar }
        requires infos { leaders.now.infos.now ≡ self.now.infos.now }
        ensures { IfOk result (λ slots. slots ≡ touched_slots grammar self.now.infos.now self.now.known.now (read_after self.now.answers.now.whole.kept self.now.answers.now.sample) touching.now others.now leaders.now.all) }
    {
        let mut slots = Slots::new(self.alloc);
        if touching.is_empty() {
            return Ok(slots);
        }
        let of = Suited::of(self.alloc, self.infos, touching)?;
        let before = Suited::of(self.alloc, self.infos, others)?;
        for n in 0..grammar.rows() {
            self.with_one(RowId(n + 1), &of, &before, leaders, &mut slots)?;
        }
        Ok(slots)
    }

    /// Those of the rows that a row frees, with the leaders of its lost slot.
    pub(crate) fn freed_slots(
        &self,
        row: RowId,
        lost: &[VarId],
        leaders: &Suited<'a>,
        slots: &mut Slots,
    ) -> Result<(), NoMemory>
        requires some { 0 < length lost.now }
        requires infos { leaders.now.infos.now ≡ self.now.infos.now }
        ensures { OnOk result (slots.new ≡ slots.old ++ freed_slots self.now.infos.now self.now.known.now (read_after self.now.answers.now.whole.kept self.now.answers.now.sample) leaders.now.all row lost.now) }
    {
        for freed in rows_reached(row) {
            self.with_both(*freed, lost, leaders, slots)?;
        }
        Ok(())
    }

    /// Those that the slots at these places free.
    pub(crate) fn freed_by_all(
        &self,
        kept: &[Slot],
        lost: &[usize],
        leaders: &Suited<'a>,
        slots: &mut Slots,
    ) -> Result<(), NoMemory>
        requires within { All (λ k. k < length kept.now) lost.now }
        requires some { All (λ s. 0 < length s.leaders) kept.now }
        requires infos { leaders.now.infos.now ≡ self.now.infos.now }
        ensures { OnOk result (slots.new ≡ slots.old ++ freed_by_all self.now.infos.now self.now.known.now (read_after self.now.answers.now.whole.kept self.now.answers.now.sample) leaders.now.all kept.now lost.now) }
    {
        for place in lost {
            let slot = &kept[*place];
            self.freed_slots(slot.row, slot.leaders.as_slice(), leaders, slots)?;
        }
        Ok(())
    }
}
