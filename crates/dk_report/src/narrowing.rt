// The candidates of a point whose samples come from one engine alone: rows of several variables are asked about only over the leaders of
// their slots, and where all of a tuple may be constant, over the variables of which the engine keeps something.
ghost use Rattle.std.specs.Prelude.{◌≡◌, ◌<◌, ◌^◌, ◌++◌, ◌||◌, ℕ, true, [], ◌∷◌, All, IfOk, IfSome, List, None, Some, filter, flat_map, length, map, slice_get, slice_index_or};
ghost use Rattle.std.specs.List.{AllZip, list_any};
ghost use Rattle.dk_base.specs.Shapes.{var};
ghost use Rattle.dk_base.specs.declared.values.Value.{Value as SampleValue};
ghost use Rattle.dk_instances.specs.Instances.{IsInstance, rows_of};
ghost use Rattle.dk_filters.specs.Answers.{Parent};
ghost use Rattle.dk_filters.specs.Candidates.{candidates_kept, candidates_of};
ghost use Rattle.dk_filters.specs.Laws.{ShowTheSame};
ghost use Rattle.dk_hierarchy.specs.Standing.{EnginesStandFor};
ghost use Rattle.dk_presence.specs.Patterns.{has};
ghost use Rattle.dk_report.specs.Asked.{AreStanding, CanBeAsked, here_of, listed_candidates_by, views_of};
ghost use Rattle.dk_report.specs.Keeping.{keeps};
ghost use Rattle.dk_report.specs.Narrowing.{CanNarrow, IsSole, all_lead, brings_samples, candidates_left, candidates_of_kept, candidates_of_slots, fixed_vars, is_fixed, is_left, is_narrow, is_of_row, lacks_role, suits_none};
ghost use Rattle.dk_template.specs.Admitted.{suits};
ghost use Rattle.dk_template.specs.Templates.{IsRow, IsRowOf};

use crate::asking::Asking;
use crate::sweeping::Standing;
use dk_base::{List, NoMemory, Value, VarId, VarInfo};
use dk_classes::Classes;
use dk_constants::Constants;
use dk_engine::{Engine, Slot};
use dk_filters::{Candidate, are_distinct, is_equality};
use dk_hierarchy::Way;
use dk_template::{Role, RowId, Takes, fits, info, suits, template_at};
use std::alloc::Global;

// Whether the variable is constant, and there.
fn is_fixed(known: &Constants, v: VarId) -> bool
    ensures { result ≡ is_fixed known.now v }
{
    match known.value(v) {
        Some(value) => !matches!(value, Value::Missing),
        None => false,
    }
}

// Whether it is a slot of the row that holds, over leaders of which none comes twice.
fn is_of_row(row: RowId, slot: &Slot) -> bool
    ensures { result ≡ is_of_row row slot.now }
{
    slot.row.0 == row.0 && fits(&slot.state) && are_distinct(slot.leaders.as_slice())
}

// The slots of one row, in order.
fn slots_of_row<'s>(alloc: Global, slots: &'s [Slot], row: RowId) -> Result<Vec<&'s Slot>, NoMemory>
    ensures { IfOk result (λ list. map (λ slot. slot.now) list.items ≡ filter (is_of_row row) slots.now) }
{
    let mut list = Vec::new(alloc);
    for slot in slots {
        if is_of_row(row, slot) {
            list.push(slot)?;
        }
    }
    Ok(list)
}

/// Whether the variable is one of them.
pub(crate) fn has(vars: &[VarId], v: VarId) -> bool
    ensures { result ≡ has vars.now v }
{
    vars.iter().any(|w| w.0 == v.0)
}

/// Whether the variable stands in one of the slots.
pub(crate) fn stands_in(slots: &[&Slot], v: VarId) -> bool
    ensures { result ≡ list_any (λ slot. has slot.now.leaders v) slots.now }
{
    slots.iter().any(|slot| has(slot.leaders.as_slice(), v))
}

// Whether the variable is constant and there, or stands in one of the slots.
fn is_left(known: &Constants, slots: &[&Slot], v: VarId) -> bool
    ensures { result ≡ (is_fixed known.now v || list_any (λ slot. has slot.now.leaders v) slots.now) }
{
    is_fixed(known, v) || stands_in(slots, v)
}

// Such variables of these.
fn left_of(
    alloc: Global,
    known: &Constants,
    slots: &[&Slot],
    of: &[VarId],
) -> Result<List<VarId>, NoMemory>
    ensures { IfOk result (λ list. list ≡ filter (λ v. is_fixed known.now v || list_any (λ slot. has slot.now.leaders v) slots.now) of.now) }
{
    let mut list = List::new(alloc);
    for v in of {
        if is_left(known, slots, *v) {
            list.push(*v)?;
        }
    }
    Ok(list)
}

// Those of the variables that are constant, and there.
fn fixed_of(alloc: Global, known: &Constants, of: &[VarId]) -> Result<List<VarId>, NoMemory>
    ensures { IfOk result (λ list. list ≡ filter (is_fixed known.now) of.now) }
{
    let mut list = List::new(alloc);
    for v in of {
        if is_fixed(known, *v) {
            list.push(*v)?;
        }
    }
    Ok(list)
}

// Whether one of the variables suits the role.
fn suits_some(role: Role, infos: &[VarInfo], of: &[VarId]) -> bool
    ensures { result ≡ list_any (λ v. suits role (slice_get infos.now v.0)) of.now }
{
    of.iter().any(|v| suits(role, infos, *v))
}

// Whether none of them does.
fn suits_none(role: Role, infos: &[VarInfo], of: &[VarId]) -> bool
    ensures { result ≡ suits_none infos.now of.now role }
{
    !suits_some(role, infos, of)
}

// Whether none of the variables suits one of the roles.
fn lacks_any(roles: &[Role], infos: &[VarInfo], of: &[VarId]) -> bool
    ensures { result ≡ list_any (suits_none infos.now of.now) roles.now }
{
    roles.iter().any(|role| suits_none(*role, infos, of))
}

// The same of the row's roles.
fn lacks_role(row: RowId, infos: &[VarInfo], of: &[VarId]) -> bool
    requires { IsRow row }
    ensures { result ≡ lacks_role row infos.now of.now }
{
    match template_at(row).takes {
        Takes::One(a) => lacks_any(&[a], infos, of),
        Takes::Two(a, b) => lacks_any(&[a, b], infos, of),
        Takes::Three(a, b, c) => lacks_any(&[a, b, c], infos, of),
    }
}

/// Whether the row takes several variables, and doesn't say that two are the same.
pub(crate) fn is_narrow(row: RowId) -> bool
    requires { IsRow row }
    ensures { result ≡ is_narrow row }
{
    !is_equality(row) && info(row).arity != 1
}

// Whether each of the variables leads its class.
fn all_lead(classes: &Classes, vars: &[VarId]) -> bool
    ensures { result ≡ all_lead classes.now vars.now }
{
    let own = classes.leaders();
    vars.iter().all(|v| has(own, *v))
}

// Whether the engine that a way leads to has samples.
fn brings_samples(engines: &[Engine], way: &Way) -> bool
    ensures { result ≡ brings_samples engines.now way.now }
{
    match engines.get(way.point.0 as usize) {
        Some(engine) => engine.counts().samples != 0,
        None => true,
    }
}

// The way that brings samples, if it is the only one.
fn sole_way<'w>(engines: &[Engine], ways: &'w [Way]) -> Option<&'w Way>
    ensures { IfSome result (λ way. filter (brings_samples engines.now) ways.now ≡ way.now ∷ []) }
{
    let mut sole = None;
    for way in ways {
        if brings_samples(engines, way) {
            if sole.is_some() {
                return None;
            }
            sole = Some(way);
        }
    }
    sole
}

// Whether it is the variable of this number.
fn is_var(partner: Option<VarId>, number: u32) -> bool
    ensures { result ≡ true → partner ≡ Some (var number) }
{
    match partner {
        Some(v) => v.0 == number,
        None => false,
    }
}

// Whether each variable has itself as its partner.
fn are_own(partners: &[Option<VarId>]) -> bool
    requires { length partners.now < 2 ^ 32 }
    ensures { result ≡ true → (v : ℕ) → v < length partners.now → slice_index_or partners.now v None ≡ Some (var v) }
{
    for number in 0..partners.len() as u32 {
        if !is_var(partners[number as usize], number) {
            return false;
        }
    }
    true
}

impl<'a, 'e> Asking<'a, 'e> {
    // The candidates with those over the leaders of the slots.
    fn over_slots(
        &self,
        row: RowId,
        slots: &[&Slot],
        list: List<Candidate>,
    ) -> Result<List<Candidate>, NoMemory>
        requires asked { CanBeAsked self.now }
        requires row { IsRowOf self.now.here.now.here.grammar row }
        ensures { IfOk result (λ more. more ≡ list ++ flat_map (λ slot. listed_candidates_by self.now row slot.now.leaders) slots.now) }
    {
        let mut list = list;
        for slot in slots {
            list = self.consider(row, slot.leaders.as_slice(), list)?;
        }
        Ok(list)
    }

    // The candidates with those of a row over the leaders of its slots.
    fn of_slots(
        &self,
        engine: &Engine,
        row: RowId,
        list: List<Candidate>,
    ) -> Result<List<Candidate>, NoMemory>
        requires asked { CanBeAsked self.now }
        requires row { IsRowOf self.now.here.now.here.grammar row }
        ensures { IfOk result (λ more. more ≡ list ++ candidates_of_slots engine.now.kept self.now row) }
    {
        let slots = slots_of_row(self.alloc, engine.slots(), row)?;
        self.over_slots(row, slots.as_slice(), list)
    }

    // Those of the variables over which the row may say something, by what the engine keeps.
    fn narrow_vars(
        &self,
        engine: &Engine,
        row: RowId,
        of: &[VarId],
    ) -> Result<List<VarId>, NoMemory>
        ensures { IfOk result (λ list. list ≡ filter (is_left engine.now.kept row) of.now) }
    {
        let slots = slots_of_row(self.alloc, engine.slots(), row)?;
        left_of(self.alloc, engine.constants(), slots.as_slice(), of)
    }

    // The candidates with those of a row of several variables, none an equality, where these are constant.
    fn of_narrow(
        &self,
        engine: &Engine,
        standing: &Standing,
        fixed: &[VarId],
        row: RowId,
        list: List<Candidate>,
    ) -> Result<List<Candidate>, NoMemory>
        requires asked { CanBeAsked self.now }
        requires row { IsRowOf self.now.here.now.here.grammar row }
        ensures { IfOk result (λ more. more ≡ list ++ candidates_of_kept engine.now.kept self.now standing.now fixed.now row) }
    {
        if lacks_role(row, self.here.vars(), fixed) {
            return self.of_slots(engine, row, list);
        }
        let of = standing.several.as_slice();
        let left = self.narrow_vars(engine, row, of)?;
        self.over(row, left.as_slice(), list)
    }

    // The candidates with those of a row, where these variables are constant.
    fn narrowed_row(
        &self,
        engine: &Engine,
        standing: &Standing,
        fixed: &[VarId],
        row: RowId,
        list: List<Candidate>,
    ) -> Result<List<Candidate>, NoMemory>
        requires asked { CanBeAsked self.now }
        requires row { IsRowOf self.now.here.now.here.grammar row }
        ensures { IfOk result (λ more. more ≡ list ++ candidates_left engine.now.kept self.now standing.now fixed.now row) }
    {
        if is_narrow(row) {
            self.of_narrow(engine, standing, fixed, row, list)
        } else {
            self.over_standing(row, standing, list)
        }
    }

    // The candidates of a point whose samples the engine alone has, where these variables are constant.
    fn narrow_by(
        &self,
        engine: &Engine,
        standing: &Standing,
        fixed: &[VarId],
    ) -> Result<List<Candidate>, NoMemory>
        requires { CanBeAsked self.now }
        ensures { IfOk result (λ list. list ≡ flat_map (candidates_left engine.now.kept self.now standing.now fixed.now) (rows_of self.now.here.now.here.grammar)) }
    {
        let mut list = List::new(self.alloc);
        for n in 0..self.grammar.rows() {
            list = self.narrowed_row(engine, standing, fixed, RowId(n + 1), list)?;
        }
        Ok(list)
    }

    // The same with the variables that are.
    fn narrow_to(&self, engine: &Engine, standing: &Standing) -> Result<List<Candidate>, NoMemory>
        requires { CanBeAsked self.now }
        ensures { IfOk result (λ list. list ≡ flat_map (candidates_left engine.now.kept self.now standing.now (fixed_vars engine.now.kept standing.now)) (rows_of self.now.here.now.here.grammar)) }
    {
        let fixed = fixed_of(self.alloc, engine.constants(), standing.several.as_slice())?;
        self.narrow_by(engine, standing, fixed.as_slice())
    }

    // The engine from whose own samples alone all samples of the point come, each variable being its own partner.
    fn sole_engine<'n>(&self, engines: &'n [Engine]) -> Option<&'n Engine>
        requires engines { self.now.here.now.engines ≡ engines.now }
        requires few { length self.now.here.now.here.infos < 2 ^ 32 }
        ensures { IfSome result (λ engine. IsSole self.now.here.now engine.now) }
    {
        let way = sole_way(engines, self.here.ways())?;
        let engine = engines.get(way.point.0 as usize)?;
        let is_straight = way.paths == 1
            && way.partners.len() == self.here.vars().len()
            && engine.vars().len() == self.here.vars().len()
            && are_own(way.partners.as_slice());
        if is_straight { Some(engine) } else { None }
    }

    // That engine, if what it keeps tells where the options can let something through.
    fn narrowing_engine<'n>(&self, engines: &'n [Engine], standing: &Standing) -> Option<&'n Engine>
        requires engines { self.now.here.now.engines ≡ engines.now }
        requires few { length self.now.here.now.here.infos < 2 ^ 32 }
        ensures { IfSome result (λ engine. CanNarrow self.now.options.now self.now.here.now standing.now engine.now) }
    {
        if self.options.keep_implied {
            return None;
        }
        let engine = self.sole_engine(engines)?;
        if all_lead(engine.classes(), standing.several.as_slice()) {
            Some(engine)
        } else {
            None
        }
    }

    // The candidates by what one view of the point tells, or else by all tuples.
    fn list_by_view(
        &self,
        engines: &[Engine],
        standing: &Standing,
    ) -> Result<List<Candidate>, NoMemory>
        requires engines { self.now.here.now.engines ≡ engines.now }
        requires asked { CanBeAsked self.now }
        requires standing { AreStanding self.now standing.now }
        ensures { IfOk result (λ list. list ≡ candidates_kept (keeps self.now.options.now) (candidates_of self.now.here.now.here.grammar self.now.options.now.least (here_of self.now) (views_of self.now))) }
    {
        let told = self.view_table(engines, standing)?;
        match told {
            Some(table) => self.list_in_view(table.as_slice(), standing),
            None => self.sweep_all(standing),
        }
    }

    /// The candidates that the options let through, by row and then by variables.
    pub(crate) fn list_candidates(&self, engines: &[Engine]) -> Result<List<Candidate>, NoMemory>
        requires engines { self.now.here.now.engines ≡ engines.now }
        requires few { length self.now.here.now.here.infos < 2 ^ 32 }
        requires paths { All (λ way. 0 < way.paths) self.now.here.now.ways }
        requires asked { CanBeAsked self.now }
        ensures instances { IfOk result (λ list. All (λ c. IsInstance self.now.here.now.here.grammar self.now.here.now.here.infos c.row c.vars) list) }
        ensures kept { IfOk result (λ list. (samples : ℕ → List (List SampleValue)) (parents : List Parent) → EnginesStandFor engines.now samples → AllZip (ShowTheSame self.now.here.now.here.grammar self.now.here.now.here.infos) (views_of self.now) parents → list ≡ candidates_kept (keeps self.now.options.now) (candidates_of self.now.here.now.here.grammar self.now.options.now.least (here_of self.now) (views_of self.now))) }
    {
        let standing = self.all_standing()?;
        match self.narrowing_engine(engines, &standing) {
            Some(engine) => self.narrow_to(engine, &standing),
            None => self.list_by_view(engines, &standing),
        }
    }
}
