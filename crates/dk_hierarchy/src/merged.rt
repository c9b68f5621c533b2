// What answers for all samples of a point.
ghost use Rattle.std.specs.Prelude.{◌≡◌, ◌<◌, ◌≤◌, [], ◌∷◌, All, IfOk, IsTrue, List, OnErr, Some, length, slice_get};
ghost use Rattle.dk_base.specs.declared.values.Value.{Value as SampleValue};
ghost use Rattle.dk_engine.specs.Exact.{AreOfPoint};
ghost use Rattle.dk_hierarchy.specs.Descent.{IsDescent};
ghost use Rattle.dk_hierarchy.specs.Merging.{AreWays, IsWay, agree_through, count_through, engine_at, merged_agree, merged_count, merged_state, same_kinds, state_through};
ghost use Rattle.dk_hierarchy.specs.Shortcuts.{AreShortcuts};
ghost use Rattle.dk_hierarchy.specs.Standing.{AreEnginesOf, EngineStandsFor, IsMergedAt, JointStandsFor};
ghost use Rattle.dk_presence.specs.Patterns.{capped};
ghost use Rattle.dk_template.specs.Admitted.{admits};
ghost use Rattle.dk_template.specs.Premises.{AreThere, MayWantMemory};
ghost use Rattle.dk_template.specs.Proper.{IsProper};
ghost use Rattle.dk_template.specs.Templates.{IsRowOf, form_of};

use crate::Way;
use crate::descent::ways_down;
use crate::levels::first_way;
use crate::shortcut::Shortcut;
use crate::way::{partner_at, partners_at};
use dk_base::{List, NoMemory, PointId, VarId, VarInfo};
use dk_engine::Engine;
use dk_points::Points;
use dk_template::{Answers, RowId, State, join_states, template_at};
use std::alloc::Global;
use std::marker::Model;
use std::slice;

// Whether two variables are of one kind.
fn same_kinds(vars: &[VarInfo], v: VarId, w: VarId) -> bool
    requires v { v.0 < length vars.now }
    requires w { w.0 < length vars.now }
    ensures { result ≡ same_kinds vars.now v w }
{
    vars[v.0 as usize].kind == vars[w.0 as usize].kind
}

/// What answers for all samples of a point, its children's included, from what the engines keep of own samples alone: the point's own
/// engine, those of all points, and the ways down from the point. An answer asks one engine for each way.
#[derive(Drop)]
pub struct Merged<'e> {
    alloc: Global,
    here: &'e Engine,
    engines: &'e [Engine],
    ways: List<Way>,
}

impl<'e> Model for Merged<'e> {
    ghost use Rattle.dk_hierarchy.specs.Merging.{AreWays, Joint};

    ghost Value = { Joint };

    ghost view = { λ m. record { here = m.here.now; engines = m.engines.now; ways = m.ways } };

    ghost invariant = { λ m. AreWays (record { here = m.here.now; engines = m.engines.now; ways = m.ways }) };
}

impl<'e> Merged<'e> {
    /// What answers for the samples that one engine has, as for a point without children.
    pub fn alone(alloc: Global, engine: &'e Engine) -> Result<Merged<'e>, NoMemory>
        requires { AreOfPoint engine.now.infos }
        ensures here { IfOk result (λ merged. merged.here ≡ engine.now) }
        ensures engines { IfOk result (λ merged. merged.engines ≡ engine.now ∷ []) }
        ensures paths { IfOk result (λ merged. All (λ way. 0 < way.paths) merged.ways) }
        ensures stands { IfOk result (λ merged. (samples : List (List SampleValue)) → EngineStandsFor engine.now samples → JointStandsFor merged samples) }
    {
        let number = engine.vars().len() as u32;
        let mut ways = List::new(alloc);
        ways.push(first_way(alloc, PointId(0), number)?)?;
        Ok(Merged {
            alloc,
            here: engine,
            engines: slice::from_ref(engine),
            ways,
        })
    }

    /// The point's variables.
    pub fn vars(&self) -> &[VarInfo]
        ensures { result.now ≡ self.now.here.infos }
    {
        self.here.vars()
    }

    /// The ways down from the point.
    pub fn ways(&self) -> &[Way]
        ensures ways { result.now ≡ self.now.ways }
        ensures asked { AreWays self.now }
    {
        self.ways.as_slice()
    }

    // The engine that a way leads to.
    fn engine_at(&self, way: &Way) -> &Engine
        requires { IsWay self.now way.now }
        ensures { result.now ≡ engine_at self.now way.now }
    {
        &self.engines[way.point.0 as usize]
    }

    // What a row says through a way; where a variable has no partner, nothing.
    fn state_through(&self, row: RowId, vars: &[VarId], way: &Way) -> Result<State, NoMemory>
        requires way { IsWay self.now way.now }
        requires row { IsRowOf self.now.here.grammar row }
        requires vars { IsTrue (admits row self.now.here.infos vars.now) }
        ensures state { IfOk result (λ state. state ≡ state_through self.now row vars.now way.now) }
        ensures proper { IfOk result (λ state. IsProper (form_of row) state) }
        ensures err { OnErr result (MayWantMemory row) }
    {
        match partners_at(way.partners.as_slice(), vars) {
            None => Ok(State::Empty),
            Some(there) => self.engine_at(way).answer(row, there.as_slice()),
        }
    }

    // In how many of the samples that a way brings none of the variables is missing.
    fn count_through(&self, vars: &[VarId], way: &Way) -> u64
        requires way { IsWay self.now way.now }
        requires few { length vars.now ≤ 3 }
        requires there { AreThere self.now.here.infos vars.now }
        ensures { result ≡ capped (count_through self.now vars.now way.now) }
    {
        match partners_at(way.partners.as_slice(), vars) {
            None => 0,
            Some(there) => {
                let once = self.engine_at(way).count(there.as_slice());
                once.saturating_mul(way.paths)
            }
        }
    }

    // Whether two variables agree in the samples that a way brings.
    fn agree_through(&self, v: VarId, w: VarId, way: &Way) -> bool
        requires { IsWay self.now way.now }
        ensures { result ≡ agree_through self.now v w way.now }
    {
        let engine = self.engine_at(way);
        let partners = way.partners.as_slice();
        match (partner_at(partners, v), partner_at(partners, w)) {
            (None, None) => true,
            (Some(v), None) => engine.count(&[v]) == 0,
            (None, Some(w)) => engine.count(&[w]) == 0,
            (Some(v), Some(w)) => engine.agree(v, w),
        }
    }
}

impl<'e> Answers for Merged<'e> {
    ghost grammar = { λ m. m.here.grammar };

    ghost infos = { λ m. m.here.infos };

    ghost answered = { merged_state };

    ghost counted = { merged_count };

    ghost agreeing = { merged_agree };

    fn answer(&self, row: RowId, vars: &[VarId]) -> Result<State, NoMemory> {
        let form = template_at(row).form;
        let ways = self.ways();
        let mut state = State::Empty;
        for way in ways {
            let there = self.state_through(row, vars, way)?;
            state = join_states(form, self.alloc, state, &there)?;
            if matches!(state, State::Broken) {
                return Ok(state);
            }
        }
        Ok(state)
    }

    fn count(&self, vars: &[VarId]) -> u64 {
        let ways = self.ways();
        let mut count = 0u64;
        for way in ways {
            count = count.saturating_add(self.count_through(vars, way));
        }
        count
    }

    fn agree(&self, v: VarId, w: VarId) -> bool {
        if !same_kinds(self.vars(), v, w) {
            return false;
        }
        let ways = self.ways();
        for way in ways {
            if !self.agree_through(v, w, way) {
                return false;
            }
        }
        true
    }
}

/// What answers for all samples of a point, its children's included. The engines are those of the table's points in order. The engines
/// keep what they have, and nothing is fed to a parent.
pub fn merge<'e>(
    alloc: Global,
    points: &Points,
    engines: &'e [Engine],
    p: PointId,
) -> Result<Merged<'e>, NoMemory>
    requires point { p.0 < length points.now }
    requires engines { AreEnginesOf points.now engines.now }
    ensures here { IfOk result (λ merged. slice_get engines.now p.0 ≡ Some merged.here) }
    ensures engines { IfOk result (λ merged. merged.engines ≡ engines.now) }
    ensures ways { IfOk result (λ merged. IsDescent points.now p.0 merged.ways []) }
    ensures stands { IfOk result (IsMergedAt points.now engines.now p.0) }
{
    let ways = ways_down(alloc, points, engines, &[], p)?;
    Ok(Merged {
        alloc,
        here: &engines[p.0 as usize],
        engines,
        ways,
    })
}

/// The same by shortcuts, which are found once for all points of a table: no way stays at a point that has no own samples and whose
/// samples all come by one edge, but at the upper point itself.
pub fn merge_by<'e>(
    alloc: Global,
    points: &Points,
    engines: &'e [Engine],
    shortcuts: &[Shortcut],
    p: PointId,
) -> Result<Merged<'e>, NoMemory>
    requires point { p.0 < length points.now }
    requires engines { AreEnginesOf points.now engines.now }
    requires shortcuts { AreShortcuts points.now engines.now shortcuts.now }
    ensures here { IfOk result (λ merged. slice_get engines.now p.0 ≡ Some merged.here) }
    ensures engines { IfOk result (λ merged. merged.engines ≡ engines.now) }
    ensures paths { IfOk result (λ merged. All (λ way. 0 < way.paths) merged.ways) }
    ensures stands { IfOk result (IsMergedAt points.now engines.now p.0) }
{
    let ways = ways_down(alloc, points, engines, shortcuts, p)?;
    Ok(Merged {
        alloc,
        here: &engines[p.0 as usize],
        engines,
        ways,
    })
}
