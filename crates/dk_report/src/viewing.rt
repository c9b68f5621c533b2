// The candidates of a point to which several ways bring samples: rows of several variables are asked about only over those of which
// they may say something by what one way brings.
ghost use Rattle.std.specs.Prelude.{◌≡◌, ◌==◌, ◌&&◌, ◌++◌, ◌||◌, [], ◌∷◌, All, List, IfOk, IfSome, filter, flat_map, is_some, map, slice_index_or, take};
ghost use Rattle.std.specs.List.{list_any};
ghost use Rattle.dk_base.specs.declared.kinds.VarId.{VarId as Variable};
ghost use Rattle.dk_engine.specs.Reading.Levels.{Whole};
ghost use Rattle.dk_engine.specs.Reading.Parts.{leader_of};
ghost use Rattle.dk_engine.specs.Reading.{rank_bound};
ghost use Rattle.dk_constants.specs.Known.{known_at};
ghost use Rattle.dk_instances.specs.Instances.{rows_of};
ghost use Rattle.dk_hierarchy.specs.Edges.{partner_at};
ghost use Rattle.dk_hierarchy.specs.declared.way.Way.{Way as WholeWay};
ghost use Rattle.dk_report.specs.Asked.{CanBeAsked};
ghost use Rattle.dk_presence.specs.Patterns.{has};
ghost use Rattle.dk_report.specs.Viewing.{IsTold, IsView, all_may_fit, are_mapped, candidates_told, is_met, leader_through, leads_several, led_through, may_fit, may_follow, may_follow_by, reads, shown_level, shown_row, shown_rows, told_at, told_rows};
ghost use Rattle.dk_template.specs.Premises.{row_of};
ghost use Rattle.dk_template.specs.Templates.{IsRow, IsRowOf, arity_of};

use crate::asking::Asking;
use crate::narrowing::{has, is_narrow, stands_in};
use crate::sweeping::Standing;
use dk_base::{List, NoMemory, VarId};
use dk_constants::Constants;
use dk_engine::{Engine, Slot};
use dk_filters::{Candidate, are_distinct};
use dk_hierarchy::Way;
use dk_suppress::{Rule, table};
use dk_template::{Answers, Grammar, Premise, RowId, asked_row, info};
use std::alloc::Global;

// ---- variables with their leaders

// The partner of a variable, if it has one.
fn partner_at(way: &Way, v: VarId) -> Option<VarId>
    ensures { result ≡ partner_at way.now.partners v }
{
    match way.partners.as_slice().get(v.0 as usize) {
        None => None,
        Some(partner) => *partner,
    }
}

// The leader of a variable of an engine; none where it isn't found.
fn leader_of(engine: &Engine, v: VarId) -> Option<VarId>
    ensures { IfSome result (λ a. a ≡ leader_of engine.now.kept.leaders v) }
{
    let vars = engine.vars().len();
    if v.0 as usize >= vars {
        return None;
    }
    for a in engine.classes().leaders() {
        if (a.0 as usize) < vars && engine.agree(v, *a) {
            return Some(*a);
        }
    }
    None
}

// The leader of a variable's partner.
fn leader_through(engine: &Engine, way: &Way, v: VarId) -> Option<VarId>
    ensures { IfSome result (λ a. a ≡ leader_through engine.now.kept way.now v) }
{
    match partner_at(way, v) {
        None => None,
        Some(partner) => leader_of(engine, partner),
    }
}

// The variables, each with the leader of its partner.
fn led_through(
    alloc: Global,
    engine: &Engine,
    way: &Way,
    vars: &[VarId],
) -> Result<Option<List<(VarId, VarId)>>, NoMemory>
    ensures { IfOk result (λ o. IfSome o (λ led. led ≡ led_through engine.now.kept way.now vars.now)) }
{
    let mut led = List::new(alloc);
    for v in vars {
        match leader_through(engine, way, *v) {
            None => return Ok(None),
            Some(a) => led.push((*v, a))?,
        }
    }
    Ok(Some(led))
}

// Whether it is the leader of several of the variables.
fn leads_several(led: &[(VarId, VarId)], a: VarId) -> bool
    ensures { result ≡ leads_several led.now a }
{
    led.iter().filter(|pair| pair.1.0 == a.0).count() > 1
}

// Whether some of the leaders is that of several variables.
fn some_leads_several(led: &[(VarId, VarId)], leaders: &[VarId]) -> bool
    ensures { result ≡ list_any (leads_several led.now) leaders.now }
{
    leaders.iter().any(|a| leads_several(led, *a))
}

// ---- what may be told of a row

// Whether it is a slot of the row over leaders that can be those of different variables.
fn is_met(led: &[(VarId, VarId)], row: RowId, slot: &Slot) -> bool
    ensures { result ≡ is_met led.now row slot.now }
{
    let leaders = slot.leaders.as_slice();
    slot.row.0 == row.0 && (are_distinct(leaders) || some_leads_several(led, leaders))
}

// The slots whose leaders lead variables that are shown.
fn slots_met<'s>(
    alloc: Global,
    led: &[(VarId, VarId)],
    slots: &'s [Slot],
    row: RowId,
) -> Result<Vec<&'s Slot>, NoMemory>
    ensures { IfOk result (λ list. map (λ slot. slot.now) list.items ≡ filter (is_met led.now row) slots.now) }
{
    let mut list = Vec::new(alloc);
    for slot in slots {
        if is_met(led, row, slot) {
            list.push(slot)?;
        }
    }
    Ok(list)
}

// The variables that a table has for a row.
fn told_at(table: &[List<VarId>], row: RowId) -> &[VarId]
    ensures { result.now ≡ told_at table.now row }
{
    match table.get(row.0 as usize) {
        None => &[],
        Some(vars) => vars.as_slice(),
    }
}

// Whether the role is among the first so many of three.
fn is_among(roles: [u8; 3], count: u8, role: u8) -> bool
    ensures { result ≡ list_any (λ r. r == role) (take count roles) }
{
    (0 < count && roles[0] == role)
        || (1 < count && roles[1] == role)
        || (2 < count && roles[2] == role)
}

// Whether the premise reads the role.
fn reads(premise: &Premise, role: u8) -> bool
    requires { IsRow (row_of premise.now) }
    ensures { result ≡ reads premise.now role }
{
    match *premise {
        Premise::Holds { row, roles } => is_among(roles, info(row).arity, role),
        Premise::LeastAtLeast { role: read, .. } => read == role,
        Premise::GreatestAtMost { role: read, .. } => read == role,
        Premise::Only { role: read, .. } => read == role,
    }
}

// Whether the premise may fit where the variable stands at the role.
fn may_fit(below: &[List<VarId>], role: u8, v: VarId, premise: &Premise) -> bool
    requires { IsRow (row_of premise.now) }
    ensures { result ≡ may_fit below.now role v premise.now }
{
    let told = told_at(below, asked_row(premise));
    if reads(premise, role) {
        has(told, v)
    } else {
        !told.is_empty()
    }
}

// Whether all premises may.
fn all_may_fit(below: &[List<VarId>], role: u8, v: VarId, premises: &[Premise]) -> bool
    requires { All (λ p. IsRow (row_of p)) premises.now }
    ensures { result ≡ all_may_fit below.now role v premises.now }
{
    for premise in premises {
        if !may_fit(below, role, v, premise) {
            return false;
        }
    }
    true
}

// Whether all premises may fit where the variable stands at some role of so many.
fn may_follow_by(below: &[List<VarId>], arity: u8, v: VarId, premises: &[Premise]) -> bool
    requires { All (λ p. IsRow (row_of p)) premises.now }
    ensures { result ≡ may_follow_by below.now arity v premises.now }
{
    all_may_fit(below, 0, v, premises)
        || (1 < arity && all_may_fit(below, 1, v, premises))
        || (2 < arity && all_may_fit(below, 2, v, premises))
}

// Whether the rule is the row's, and all its premises may fit where the variable stands at some role.
fn follows_by(below: &[List<VarId>], row: RowId, v: VarId, rule: &Rule) -> bool
    requires row { IsRow row }
    requires premises { All (λ p. IsRow (row_of p)) rule.now.premises.now }
    ensures { result ≡ (rule.now.conclusion.0 == row.0 && may_follow_by below.now (arity_of row) v rule.now.premises.now) }
{
    rule.conclusion.0 == row.0 && may_follow_by(below, info(row).arity, v, rule.premises)
}

// Whether the row may follow by one of its rules.
fn may_follow(below: &[List<VarId>], row: RowId, v: VarId) -> bool
    requires { IsRow row }
    ensures { result ≡ may_follow below.now row v }
{
    for rule in table() {
        if follows_by(below, row, v, rule) {
            return true;
        }
    }
    false
}

// Whether the leader is constant or stands in one of the slots.
fn is_shown(known: &Constants, slots: &[&Slot], a: VarId) -> bool
    ensures { result ≡ (is_some (known_at known.now a) || list_any (λ slot. has slot.now.leaders a) slots.now) }
{
    known.value(a).is_some() || stands_in(slots, a)
}

// The variables, each with whether its leader is.
fn shown_by(
    alloc: Global,
    led: &[(VarId, VarId)],
    known: &Constants,
    slots: &[&Slot],
) -> Result<List<(VarId, bool)>, NoMemory>
    ensures { IfOk result (λ list. list ≡ map (λ pair. (pair.0, is_some (known_at known.now pair.1) || list_any (λ slot. has slot.now.leaders pair.1) slots.now)) led.now) }
{
    let mut list = List::new(alloc);
    for pair in led {
        list.push((pair.0, is_shown(known, slots, pair.1)))?;
    }
    Ok(list)
}

// The variables, each with whether what the engine keeps says something of it by the row.
fn shown_row(
    alloc: Global,
    engine: &Engine,
    led: &[(VarId, VarId)],
    row: RowId,
) -> Result<List<(VarId, bool)>, NoMemory>
    ensures { IfOk result (λ list. list ≡ shown_row engine.now.kept led.now row) }
{
    let slots = slots_met(alloc, led, engine.slots(), row)?;
    shown_by(alloc, led, engine.constants(), slots.as_slice())
}

// The same for each row.
fn shown_rows(
    alloc: Global,
    grammar: Grammar,
    engine: &Engine,
    led: &[(VarId, VarId)],
) -> Result<Vec<List<(VarId, bool)>>, NoMemory>
    ensures { IfOk result (λ rows. rows.items ≡ shown_rows grammar engine.now.kept led.now) }
{
    let mut rows = Vec::new(alloc);
    rows.push(List::new(alloc))?;
    for n in 0..grammar.rows() {
        let vars = shown_row(alloc, engine, led, RowId(n + 1))?;
        rows.push(vars)?;
    }
    Ok(rows)
}

// Those of a row.
fn shown_at(shown: &[List<(VarId, bool)>], row: RowId) -> &[(VarId, bool)]
    ensures { result.now ≡ slice_index_or shown.now row.0 [] }
{
    match shown.get(row.0 as usize) {
        None => &[],
        Some(vars) => vars.as_slice(),
    }
}

// Whether the row may say something of a variable of which what the engine keeps says something or not.
fn is_told(shown: bool, below: &[List<VarId>], row: RowId, v: VarId) -> bool
    requires { IsRow row }
    ensures { result ≡ (shown || may_follow below.now row v) }
{
    shown || may_follow(below, row, v)
}

// The variables that are shown and of which the row may say something.
fn told_row(
    alloc: Global,
    shown: &[(VarId, bool)],
    below: &[List<VarId>],
    row: RowId,
) -> Result<List<VarId>, NoMemory>
    requires { IsRow row }
    ensures { IfOk result (λ list. list ≡ map (λ pair. pair.0) (filter (λ pair. pair.1 || may_follow below.now row pair.0) shown.now)) }
{
    let mut list = List::new(alloc);
    for pair in shown {
        if is_told(pair.1, below, row, pair.0) {
            list.push(pair.0)?;
        }
    }
    Ok(list)
}

// For each row its variables.
fn told_level(
    alloc: Global,
    grammar: Grammar,
    shown: &[List<(VarId, bool)>],
    below: &[List<VarId>],
) -> Result<Vec<List<VarId>>, NoMemory>
    ensures { IfOk result (λ rows. rows.items ≡ shown_level grammar shown.now below.now) }
{
    let mut rows = Vec::new(alloc);
    rows.push(List::new(alloc))?;
    for n in 0..grammar.rows() {
        let row = RowId(n + 1);
        let vars = told_row(alloc, shown_at(shown, row), below, row)?;
        rows.push(vars)?;
    }
    Ok(rows)
}

// The same for the rows of all ranks, level by level.
#[tactic(auto, unfolding(crate::specs::Viewing::told_rows))]
fn told_rows(
    alloc: Global,
    grammar: Grammar,
    engine: &Engine,
    led: &[(VarId, VarId)],
) -> Result<Vec<List<VarId>>, NoMemory>
    ensures { IfOk result (λ rows. rows.items ≡ told_rows rank_bound grammar engine.now.kept led.now) }
{
    let shown = shown_rows(alloc, grammar, engine, led)?;
    let mut rows = Vec::new(alloc);
    for _ in 0..4u32 {
        rows = told_level(alloc, grammar, shown.as_slice(), rows.as_slice())?;
    }
    Ok(rows)
}

// ---- the way that is asked

// A way, and the engine that it leads to.
#[derive(Clone, Copy)]
struct View<'v> {
    way: &'v Way,
    engine: &'v Engine,
}

// Whether each of the variables has a partner.
fn are_mapped(way: &Way, vars: &[VarId]) -> bool
    ensures { result ≡ are_mapped way.now vars.now }
{
    vars.iter().all(|v| partner_at(way, *v).is_some())
}

// The view of a way whose engine has samples, if each of the variables has a partner there.
fn view_of<'v>(engines: &'v [Engine], way: &'v Way, vars: &[VarId]) -> Option<View<'v>>
    ensures { IfSome result (λ view. IsView engines.now (way.now ∷ []) vars.now view.way.now view.engine.now) }
{
    let engine = engines.get(way.point.0 as usize)?;
    if engine.counts().samples != 0 && are_mapped(way, vars) {
        Some(View { way, engine })
    } else {
        None
    }
}

// Whether the view has fewer slots than the other.
fn has_fewer(view: &View<'_>, other: &View<'_>) -> bool {
    view.engine.counts().slots < other.engine.counts().slots
}

// The one with fewer slots, where both are there.
fn fewer<'v>(best: Option<View<'v>>, view: Option<View<'v>>) -> Option<View<'v>>
    ensures { (engines : List Whole) (ways : List WholeWay) (vars : List Variable) → IfSome best.entry (λ b. IsView engines ways vars b.way.now b.engine.now) → IfSome view.entry (λ v. IsView engines ways vars v.way.now v.engine.now) → IfSome result (λ r. IsView engines ways vars r.way.now r.engine.now) }
{
    match (best, view) {
        (Some(best), Some(view)) => Some(if has_fewer(&view, &best) { view } else { best }),
        (best, None) => best,
        (None, view) => view,
    }
}

// The view with the fewest slots.
fn fewest<'v>(engines: &'v [Engine], ways: &'v [Way], vars: &[VarId]) -> Option<View<'v>>
    ensures { IfSome result (λ view. IsView engines.now ways.now vars.now view.way.now view.engine.now) }
{
    let mut best = None;
    for way in ways {
        best = fewer(best, view_of(engines, way, vars));
    }
    best
}

// What the view tells of the variables: for each row those of which it may say something.
fn told_through(
    alloc: Global,
    grammar: Grammar,
    view: &View<'_>,
    vars: &[VarId],
) -> Result<Option<Vec<List<VarId>>>, NoMemory>
    ensures { IfOk result (λ o. IfSome o (λ table. table.items ≡ told_rows rank_bound grammar view.now.engine.now.kept (led_through view.now.engine.now.kept view.now.way.now vars.now))) }
{
    match led_through(alloc, view.engine, view.way, vars)? {
        None => Ok(None),
        Some(led) => {
            let table = told_rows(alloc, grammar, view.engine, led.as_slice())?;
            Ok(Some(table))
        }
    }
}

impl<'a, 'e> Asking<'a, 'e> {
    /// For each row the variables of which it may say something, by the view with the fewest slots, if there is one.
    pub(crate) fn view_table(
        &self,
        engines: &[Engine],
        standing: &Standing,
    ) -> Result<Option<Vec<List<VarId>>>, NoMemory>
        requires engines { self.now.here.now.engines ≡ engines.now }
        requires asked { CanBeAsked self.now }
        ensures { IfOk result (λ o. IfSome o (λ table. IsTold self.now.here.now standing.now.several table.items)) }
    {
        let vars = standing.several.as_slice();
        match fewest(engines, self.here.ways(), vars) {
            None => Ok(None),
            Some(view) => told_through(self.alloc, self.grammar, &view, vars),
        }
    }

    // The candidates with those of a row.
    fn list_row_in_view(
        &self,
        table: &[List<VarId>],
        standing: &Standing,
        row: RowId,
        list: List<Candidate>,
    ) -> Result<List<Candidate>, NoMemory>
        requires asked { CanBeAsked self.now }
        requires row { IsRowOf self.now.here.now.here.grammar row }
        ensures { IfOk result (λ more. more ≡ list ++ candidates_told table.now self.now standing.now row) }
    {
        if is_narrow(row) {
            self.over(row, told_at(table, row), list)
        } else {
            self.over_standing(row, standing, list)
        }
    }

    /// The candidates over the variables of such a table.
    pub(crate) fn list_in_view(
        &self,
        table: &[List<VarId>],
        standing: &Standing,
    ) -> Result<List<Candidate>, NoMemory>
        requires { CanBeAsked self.now }
        ensures { IfOk result (λ list. list ≡ flat_map (candidates_told table.now self.now standing.now) (rows_of self.now.here.now.here.grammar)) }
    {
        let mut list = List::new(self.alloc);
        for n in 0..self.grammar.rows() {
            list = self.list_row_in_view(table, standing, RowId(n + 1), list)?;
        }
        Ok(list)
    }
}
