// In how many samples of a point variables are present: of each single variable found once, and of several by an index of the patterns.
ghost use Rattle.std.specs.Prelude.{◌≡◌, ◌<◌, ◌≤◌, ◌+◌, ◌*◌, ℕ, [], ◌∷◌, All, IfOk, IfSome, List, None, Some, length, replicate, slice_get, slice_index_or};
ghost use Rattle.dk_base.specs.declared.values.Value.{Value as SampleValue};
ghost use Rattle.dk_engine.specs.Exact.{AreOfPoint};
ghost use Rattle.dk_engine.specs.Reading.{count_read};
ghost use Rattle.dk_engine.specs.declared.kept.Kept.{Kept};
ghost use Rattle.dk_hierarchy.specs.Edges.{partners_at};
ghost use Rattle.dk_hierarchy.specs.Merging.{AreWays, IsWay, engine_at, merged_agree, merged_count, merged_state};
ghost use Rattle.dk_hierarchy.specs.Standing.{AreEnginesOf, EngineStandsFor, IsMergedAt, JointStandsFor};
ghost use Rattle.dk_presence.specs.Patterns.{capped, counted_by};
ghost use Rattle.dk_report.specs.Counting.{AreAt, AreFound, AreIndexes, IsIndexOf, added, brought, brought_together, partner_count, single_count};

use dk_base::{NoMemory, PointId, VarId, VarInfo};
use dk_bitmaps::PatternIndex;
use dk_engine::Engine;
use dk_hierarchy::{Merged, Way, merge};
use dk_points::Points;
use dk_template::{Answers, RowId, State, Tuple};
use std::alloc::Global;
use std::marker::Model;
use std::slice;

// So many samples more at each of the variables that has a place.
fn add_count(counts: &mut Vec<u64>, vars: &[VarId], more: u64)
    ensures { counts.new.items ≡ added vars.now more counts.old.items }
{
    for v in vars {
        let place = v.0 as usize;
        if place < counts.len() {
            counts[place] = counts[place].saturating_add(more);
        }
    }
}

// A list of so many zeros.
fn zeros(alloc: Global, count: usize) -> Result<Vec<u64>, NoMemory>
    ensures { IfOk result (λ zeros. zeros.items ≡ replicate count 0) }
{
    Ok(vec![in alloc; 0; count]?)
}

// In how many samples of an engine each variable is present that leads its class, by one walk over the patterns.
fn leader_counts(alloc: Global, engine: &Engine) -> Result<Vec<u64>, NoMemory>
    ensures { IfOk result (λ counts. AreAt (λ v. counted_by engine.now.kept.held (v ∷ [])) counts.items) }
{
    let mut counts = zeros(alloc, engine.vars().len())?;
    let held = engine.presence().held();
    for pattern in held {
        add_count(&mut counts, pattern.leaders.as_slice(), pattern.count);
    }
    Ok(counts)
}

// The count of a variable: that of the leader of its class.
fn leader_count(engine: &Engine, counts: &[u64], v: VarId) -> Option<u64>
    requires { AreAt (λ w. counted_by engine.now.kept.held (w ∷ [])) counts.now }
    ensures { IfSome result (λ n. n ≡ count_read engine.now.kept (v ∷ [])) }
{
    let kept = engine.kept();
    if engine.vars().len() <= v.0 as usize {
        return None;
    }
    match counts.get(kept.leaders.leader(v).0 as usize) {
        Some(count) => Some(*count),
        None => None,
    }
}

// The partner of the variable at a place, if it has one.
fn partner_at(way: &Way, place: usize) -> Option<VarId>
    ensures { result ≡ slice_index_or way.now.partners place None }
{
    match way.partners.as_slice().get(place) {
        None => None,
        Some(partner) => *partner,
    }
}

// The count of a partner.
fn partner_count(engine: &Engine, counts: &[u64], partner: Option<VarId>) -> Option<u64>
    requires { AreAt (λ w. counted_by engine.now.kept.held (w ∷ [])) counts.now }
    ensures { IfSome result (λ n. n ≡ partner_count engine.now.kept partner) }
{
    match partner {
        None => Some(0),
        Some(v) => leader_count(engine, counts, v),
    }
}

// So many times what is found.
fn times(once: Option<u64>, paths: u64) -> Option<u64>
    ensures { (n : ℕ) → IfSome once (λ x. x ≡ n) → IfSome result (λ z. z ≡ capped (n * paths)) }
{
    match once {
        None => None,
        Some(count) => Some(count.saturating_mul(paths)),
    }
}

// In how many of the samples that a way brings the variable at a place is present, if that is found.
fn count_through(engine: &Engine, counts: &[u64], way: &Way, place: usize) -> Option<u64>
    requires { AreAt (λ w. counted_by engine.now.kept.held (w ∷ [])) counts.now }
    ensures { IfSome result (λ n. n ≡ capped (brought engine.now.kept way.now place)) }
{
    let once = partner_count(engine, counts, partner_at(way, place));
    times(once, way.paths)
}

// The sum of both, if both are found.
fn sum(one: Option<u64>, other: Option<u64>) -> Option<u64>
    ensures { (n m : ℕ) → IfSome one (λ x. x ≡ capped n) → IfSome other (λ y. y ≡ capped m) → IfSome result (λ z. z ≡ capped (n + m)) }
{
    match (one, other) {
        (Some(count), Some(more)) => Some(count.saturating_add(more)),
        _ => None,
    }
}

// The samples more that a way brings.
fn add_way(found: &mut Vec<Option<u64>>, engine: &Engine, counts: &[u64], way: &Way)
    requires { AreAt (λ w. counted_by engine.now.kept.held (w ∷ [])) counts.now }
    ensures { (count : ℕ → ℕ) → AreFound (λ v. capped (count v)) found.old.items → AreFound (λ v. capped (count v + brought engine.now.kept way.now v)) found.new.items }
{
    for place in 0..found.len() {
        let more = count_through(engine, counts, way, place);
        found[place] = sum(found[place], more);
    }
}

// The engine that a way leads to.
fn engine_at<'n>(merged: &Merged<'_>, engines: &'n [Engine], way: &Way) -> &'n Engine
    requires engines { merged.now.engines ≡ engines.now }
    requires way { IsWay merged.now way.now }
    ensures { result.now ≡ engine_at merged.now way.now }
{
    &engines[way.point.0 as usize]
}

// So many counts of no samples.
fn none_counted(alloc: Global, count: usize) -> Result<Vec<Option<u64>>, NoMemory>
    ensures { IfOk result (λ found. found.items ≡ replicate count (Some 0)) }
{
    Ok(vec![in alloc; Some(0); count]?)
}

// In how many samples each single variable is present, where one walk over the patterns of each way tells it.
fn single_counts(
    alloc: Global,
    merged: &Merged<'_>,
    engines: &[Engine],
) -> Result<Vec<Option<u64>>, NoMemory>
    requires { merged.now.engines ≡ engines.now }
    ensures { IfOk result (λ found. AreFound (single_count merged.now) found.items) }
{
    let mut found = none_counted(alloc, merged.vars().len())?;
    let ways = merged.ways();
    for way in ways {
        let engine = engine_at(merged, engines, way);
        let counts = leader_counts(alloc, engine)?;
        add_way(&mut found, engine, counts.as_slice(), way);
    }
    Ok(found)
}

// What is found of a variable.
fn found_at(found: &[Option<u64>], v: VarId) -> Option<u64>
    ensures { result ≡ slice_index_or found.now v.0 None }
{
    match found.get(v.0 as usize) {
        None => None,
        Some(count) => *count,
    }
}

// ---- several variables

// With fewer patterns a walk over them is about as fast.
const MANY_PATTERNS: u64 = 256;

// Whether an index of what the engine keeps saves more than it takes: where there are many patterns, and slots for as many questions as
// there are leaders.
fn is_index_worth(engine: &Engine) -> bool {
    let counts = engine.counts();
    MANY_PATTERNS <= counts.patterns && u64::from(counts.leaders) <= counts.slots
}

// Whether it is, for one of the engines that the ways lead to.
fn is_some_index_worth(merged: &Merged<'_>, engines: &[Engine]) -> bool
    requires { merged.now.engines ≡ engines.now }
{
    let ways = merged.ways();
    for way in ways {
        if is_index_worth(engine_at(merged, engines, way)) {
            return true;
        }
    }
    false
}

// The index of what an engine keeps.
fn index_of<'n>(alloc: Global, engine: &'n Engine) -> Result<PatternIndex<'n>, NoMemory>
    ensures { IfOk result (λ index. IsIndexOf engine.now.kept index) }
{
    PatternIndex::of(alloc, engine.presence(), engine.classes().leaders())
}

// For each way the index of its engine.
fn all_indexes<'n>(
    alloc: Global,
    merged: &Merged<'_>,
    engines: &'n [Engine],
) -> Result<Vec<PatternIndex<'n>>, NoMemory>
    requires { merged.now.engines ≡ engines.now }
    ensures { IfOk result (λ indexes. AreIndexes merged.now indexes.items) }
{
    let mut indexes = Vec::new(alloc);
    let ways = merged.ways();
    for way in ways {
        let engine = engine_at(merged, engines, way);
        let index = index_of(alloc, engine)?;
        indexes.push(index)?;
    }
    Ok(indexes)
}

// The same where some index is worth its making, and else none.
fn indexes_of<'n>(
    alloc: Global,
    merged: &Merged<'_>,
    engines: &'n [Engine],
) -> Result<Vec<PatternIndex<'n>>, NoMemory>
    requires { merged.now.engines ≡ engines.now }
    ensures { IfOk result (λ indexes. AreIndexes merged.now indexes.items) }
{
    if is_some_index_worth(merged, engines) {
        all_indexes(alloc, merged, engines)
    } else {
        Ok(Vec::new(alloc))
    }
}

// The partners of at most three variables, if each has one.
fn partners_at(way: &Way, vars: &[VarId]) -> Option<Tuple>
    requires { length vars.now ≤ 3 }
    ensures { result ≡ partners_at way.now.partners vars.now }
{
    let partner = |v: VarId| partner_at(way, v.0 as usize);
    match vars {
        [] => Some(Tuple::of(&[])),
        [v] => Some(Tuple::of(&[partner(*v)?])),
        [v, w] => Some(Tuple::of(&[partner(*v)?, partner(*w)?])),
        [v, w, x] => Some(Tuple::of(&[partner(*v)?, partner(*w)?, partner(*x)?])),
        _ => unreachable!(),
    }
}

// In how many of the samples that a way brings all of the variables are present, if the index tells.
fn indexed_through(index: &PatternIndex<'_>, way: &Way, vars: &[VarId]) -> Option<u64>
    requires { length vars.now ≤ 3 }
    ensures { (kept : Kept) → IsIndexOf kept index.now → IfSome result (λ count. count ≡ capped (brought_together kept way.now vars.now)) }
{
    match partners_at(way, vars) {
        None => Some(0),
        Some(there) => times(index.count(there.as_slice()), way.paths),
    }
}

// ---- both

/// What answers for all samples of a point, with the counts of single variables found once, and those of several by an index where
/// that is worth its making.
#[derive(Drop)]
pub(crate) struct Counted<'e> {
    merged: Merged<'e>,
    found: Vec<Option<u64>>,
    indexes: Vec<PatternIndex<'e>>,
}

impl<'e> Model for Counted<'e> {
    ghost use Rattle.dk_hierarchy.specs.Merging.{Joint};
    ghost use Rattle.dk_report.specs.Counting.{AreFound, AreIndexes, single_count};

    ghost Value = { Joint };

    ghost view = { λ c. c.merged };

    ghost invariant = { λ c. AreFound (single_count c.merged) c.found.items × AreIndexes c.merged c.indexes.items };
}

impl<'e> Counted<'e> {
    /// What answers for the samples that one engine has, as for a point without children.
    pub(crate) fn alone(alloc: Global, engine: &'e Engine) -> Result<Counted<'e>, NoMemory>
        requires { AreOfPoint engine.now.infos }
        ensures here { IfOk result (λ counted. counted.here ≡ engine.now) }
        ensures engines { IfOk result (λ counted. counted.engines ≡ engine.now ∷ []) }
        ensures paths { IfOk result (λ counted. All (λ way. 0 < way.paths) counted.ways) }
        ensures stands { IfOk result (λ counted. (samples : List (List SampleValue)) → EngineStandsFor engine.now samples → JointStandsFor counted samples) }
    {
        let merged = Merged::alone(alloc, engine)?;
        Counted::of(alloc, merged, slice::from_ref(engine))
    }

    /// The same with these counts.
    pub(crate) fn of(
        alloc: Global,
        merged: Merged<'e>,
        engines: &'e [Engine],
    ) -> Result<Counted<'e>, NoMemory>
        requires { merged.engines ≡ engines.now }
        ensures { IfOk result (λ counted. counted ≡ merged.entry) }
    {
        let found = single_counts(alloc, &merged, engines)?;
        let indexes = indexes_of(alloc, &merged, engines)?;
        Ok(Counted {
            merged,
            found,
            indexes,
        })
    }

    /// The point's variables.
    pub(crate) fn vars(&self) -> &[VarInfo]
        ensures { result.now ≡ self.now.here.infos }
    {
        self.merged.vars()
    }

    /// The ways down from the point.
    pub(crate) fn ways(&self) -> &[Way]
        ensures ways { result.now ≡ self.now.ways }
        ensures asked { AreWays self.now }
    {
        self.merged.ways()
    }

    // The count of several variables by the indexes, if there is one for each way and all of them tell.
    fn indexed_count(&self, vars: &[VarId]) -> Option<u64>
        requires { length vars.now ≤ 3 }
        ensures { IfSome result (λ n. n ≡ merged_count self.now vars.now) }
    {
        let ways = self.ways();
        let indexes = self.indexes.as_slice();
        if indexes.len() != ways.len() {
            return None;
        }
        let mut count: u64 = 0;
        for place in 0..ways.len() {
            let more = indexed_through(&indexes[place], &ways[place], vars)?;
            count = count.saturating_add(more);
        }
        Some(count)
    }

    // The count that is found of these variables.
    fn found_count(&self, vars: &[VarId]) -> Option<u64>
        requires { length vars.now ≤ 3 }
        ensures { IfSome result (λ n. n ≡ merged_count self.now vars.now) }
    {
        match vars {
            [v] => found_at(self.found.as_slice(), *v),
            _ => self.indexed_count(vars),
        }
    }
}

impl<'e> Answers for Counted<'e> {
    ghost grammar = { λ c. c.here.grammar };

    ghost infos = { λ c. c.here.infos };

    ghost answered = { merged_state };

    ghost counted = { merged_count };

    ghost agreeing = { merged_agree };

    fn answer(&self, row: RowId, vars: &[VarId]) -> Result<State, NoMemory> {
        self.merged.answer(row, vars)
    }

    fn count(&self, vars: &[VarId]) -> u64 {
        match self.found_count(vars) {
            Some(count) => count,
            None => self.merged.count(vars),
        }
    }

    fn agree(&self, v: VarId, w: VarId) -> bool {
        self.merged.agree(v, w)
    }
}

/// What answers for all samples of a point, with the counts of single variables found once.
pub(crate) fn merge_counted<'e>(
    alloc: Global,
    points: &Points,
    engines: &'e [Engine],
    p: PointId,
) -> Result<Counted<'e>, NoMemory>
    requires point { p.0 < length points.now }
    requires engines { AreEnginesOf points.now engines.now }
    ensures here { IfOk result (λ counted. slice_get engines.now p.0 ≡ Some counted.here) }
    ensures engines { IfOk result (λ counted. counted.engines ≡ engines.now) }
    ensures paths { IfOk result (λ counted. All (λ way. 0 < way.paths) counted.ways) }
    ensures stands { IfOk result (IsMergedAt points.now engines.now p.0) }
{
    let merged = merge(alloc, points, engines, p)?;
    Counted::of(alloc, merged, engines)
}
