// What answers from the whole list of samples.
ghost use Rattle.std.specs.Prelude.{◌≡◌, ◌<◌, ◌^◌, ◌∷◌, [], true, if◌then◌else◌, All, IfOk, IsTrue, OnErr, length};
ghost use Rattle.std.specs.List.{list_all};
ghost use Rattle.dk_base.specs.Values.{values_of};
ghost use Rattle.dk_grammar.specs.Runs.{with_sample};
ghost use Rattle.dk_instances.specs.Fits.{is_whole, tuple_in};
ghost use Rattle.dk_instances.specs.Laws.{IsSample};
ghost use Rattle.dk_meanings.specs.Meanings.{state_of};
ghost use Rattle.dk_replay.specs.Samples.{are_of_one_kind, samples_of};
ghost use Rattle.dk_samples.specs.Samples.{is_present as is_value, value_in};
ghost use Rattle.dk_template.specs.Admitted.{admits};
ghost use Rattle.dk_template.specs.Joins.{joined};
ghost use Rattle.dk_template.specs.Premises.{MayWantMemory};
ghost use Rattle.dk_template.specs.Proper.{IsProper};
ghost use Rattle.dk_template.specs.Rows.{IsTuple};
ghost use Rattle.dk_template.specs.Templates.{IsRow, form_of, role_kinds};

use dk_base::{List, NoMemory, VarId, VarInfo, View, same};
use dk_grammar::{join, point};
use dk_samples::{is_present, value_at};
use dk_template::{Answers, Grammar, RowId, State};
use std::alloc::Global;
use std::marker::Model;

/// A grammar, variables, and all samples of them, in the order in which they were fed. It answers by going over the samples.
#[derive(Drop)]
pub struct Listed<'a, 'v> {
    alloc: Global,
    grammar: Grammar,
    infos: &'a [VarInfo],
    samples: &'a [List<View<'v>>],
}

impl<'a, 'v> Model for Listed<'a, 'v> {
    ghost use Rattle.std.specs.Prelude.{◌<◌, ◌^◌, All, length};
    ghost use Rattle.dk_instances.specs.Laws.{IsSample};
    ghost use Rattle.dk_replay.specs.Samples.{Fed, samples_of};

    ghost Value = { Fed };

    ghost view = { λ l. record { grammar = l.grammar; infos = l.infos.now; samples = samples_of l.samples.now } };

    ghost invariant = { λ l. (0 < length l.infos.now) × ((length l.infos.now < 2 ^ 32) × All (IsSample l.infos.now) (samples_of l.samples.now)) };
}

// Whether no value of the tuple is missing.
fn are_present(tuple: &[View<'_>]) -> bool
    ensures { result ≡ is_whole (values_of tuple.now) }
{
    for value in tuple {
        if !is_present(*value) {
            return false;
        }
    }
    true
}

// A state with a tuple more, which counts where none of its values is missing.
fn with_tuple(
    alloc: Global,
    row: RowId,
    before: State,
    tuple: &[View<'_>],
) -> Result<State, NoMemory>
    requires row { IsRow row }
    requires before { IsProper (form_of row) before }
    requires tuple { is_whole (values_of tuple.now) ≡ true → IsTuple (role_kinds row) (values_of tuple.now) }
    ensures state { IfOk result (λ s. s ≡ (if is_whole (values_of tuple.now) then joined (form_of row) before (state_of row (values_of tuple.now ∷ [])) else before)) }
    ensures proper { IfOk result (λ s. IsProper (form_of row) s) }
    ensures err { OnErr result (MayWantMemory row) }
{
    if !are_present(tuple) {
        return Ok(before);
    }
    let one = point(alloc, row, tuple)?;
    let state = join(alloc, row, before, &one)?;
    Ok(state)
}

// Whether all of the variables are present in a sample.
fn are_in(sample: &[View<'_>], vars: &[VarId]) -> bool
    ensures { result ≡ list_all (λ v. is_value (value_in (values_of sample.now) v)) vars.now }
{
    for v in vars {
        if !is_present(value_at(sample, *v)) {
            return false;
        }
    }
    true
}

// Whether two variables are of one kind.
fn are_of_one_kind(infos: &[VarInfo], v: VarId, w: VarId) -> bool
    requires v { v.0 < length infos.now }
    requires w { w.0 < length infos.now }
    ensures { result ≡ are_of_one_kind infos.now v w }
{
    infos[v.0 as usize].kind == infos[w.0 as usize].kind
}

impl<'a, 'v> Listed<'a, 'v> {
    /// These samples of some variables.
    pub fn new(
        alloc: Global,
        grammar: Grammar,
        infos: &'a [VarInfo],
        samples: &'a [List<View<'v>>],
    ) -> Listed<'a, 'v>
        requires some { 0 < length infos.now }
        requires few { length infos.now < 2 ^ 32 }
        requires samples { All (IsSample infos.now) (samples_of samples.now) }
        ensures { result ≡ record { grammar = grammar; infos = infos.now; samples = samples_of samples.now } }
    {
        Listed {
            alloc,
            grammar,
            infos,
            samples,
        }
    }

    /// Where memory is asked for.
    pub fn alloc(&self) -> Global {
        self.alloc
    }

    /// The grammar by which the samples are asked.
    pub fn grammar(&self) -> Grammar
        ensures { result ≡ self.now.grammar }
    {
        self.grammar
    }

    /// The variables of the point.
    pub fn vars(&self) -> &[VarInfo]
        ensures { result.now ≡ self.now.infos }
    {
        self.infos
    }

    /// How many variables there are: at least one.
    pub fn count_vars(&self) -> u32
        ensures count { result ≡ length self.now.infos }
        ensures some { 0 < result }
    {
        self.infos.len() as u32
    }

    /// The samples, as they came.
    pub fn samples(&self) -> &[List<View<'v>>]
        ensures samples { samples_of result.now ≡ self.now.samples }
        ensures each { All (IsSample self.now.infos) (samples_of result.now) }
    {
        self.samples
    }

    // The state of a row over variables with a tuple of them more.
    fn with_values(
        &self,
        row: RowId,
        vars: &[VarId],
        before: State,
        sample: &[View<'_>],
        tuple: &[View<'_>],
    ) -> Result<State, NoMemory>
        requires row { IsRow row }
        requires vars { IsTrue (admits row self.now.infos vars.now) }
        requires before { IsProper (form_of row) before }
        requires sample { IsSample self.now.infos (values_of sample.now) }
        requires tuple { values_of tuple.now ≡ tuple_in vars.now (values_of sample.now) }
        ensures state { IfOk result (λ s. s ≡ with_sample row vars.now (values_of sample.now) before) }
        ensures proper { IfOk result (λ s. IsProper (form_of row) s) }
        ensures err { OnErr result (MayWantMemory row) }
    {
        with_tuple(self.alloc, row, before, tuple)
    }

    // The state of a row over variables with a sample more.
    fn with_sample(
        &self,
        row: RowId,
        vars: &[VarId],
        before: State,
        sample: &[View<'_>],
    ) -> Result<State, NoMemory>
        requires row { IsRow row }
        requires vars { IsTrue (admits row self.now.infos vars.now) }
        requires before { IsProper (form_of row) before }
        requires sample { IsSample self.now.infos (values_of sample.now) }
        ensures state { IfOk result (λ s. s ≡ with_sample row vars.now (values_of sample.now) before) }
        ensures proper { IfOk result (λ s. IsProper (form_of row) s) }
        ensures err { OnErr result (MayWantMemory row) }
    {
        match vars {
            [v] => self.with_values(row, vars, before, sample, &[value_at(sample, *v)]),
            [v, w] => {
                let tuple = [value_at(sample, *v), value_at(sample, *w)];
                self.with_values(row, vars, before, sample, &tuple)
            }
            [v, w, x] => {
                let tuple = [
                    value_at(sample, *v),
                    value_at(sample, *w),
                    value_at(sample, *x),
                ];
                self.with_values(row, vars, before, sample, &tuple)
            }
            _ => unreachable!(),
        }
    }
}

impl<'a, 'v> Answers for Listed<'a, 'v> {
    ghost use Rattle.dk_instances.specs.Fits.{fit};
    ghost use Rattle.dk_presence.specs.Patterns.{count_of};
    ghost use Rattle.dk_replay.specs.Samples.{agree};

    ghost grammar = { λ l. l.grammar };

    ghost infos = { λ l. l.infos };

    ghost answered = { λ l row vars. fit row vars l.samples };

    ghost counted = { λ l vars. count_of vars l.samples };

    ghost agreeing = { agree };

    fn answer(&self, row: RowId, vars: &[VarId]) -> Result<State, NoMemory> {
        let mut state = State::Empty;
        let samples = self.samples();
        for sample in samples {
            state = self.with_sample(row, vars, state, sample.as_slice())?;
        }
        Ok(state)
    }

    fn count(&self, vars: &[VarId]) -> u64 {
        let mut count = 0u64;
        let samples = self.samples();
        for sample in samples {
            if are_in(sample.as_slice(), vars) {
                count = count.saturating_add(1);
            }
        }
        count
    }

    fn agree(&self, v: VarId, w: VarId) -> bool {
        if !are_of_one_kind(self.vars(), v, w) {
            return false;
        }
        let samples = self.samples();
        for sample in samples {
            let sample = sample.as_slice();
            if !same(value_at(sample, v), value_at(sample, w)) {
                return false;
            }
        }
        true
    }
}
