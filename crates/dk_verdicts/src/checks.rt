// The checks of each point: which variables of its samples are tested, and of which claim.
ghost use Rattle.std.specs.Prelude.{◌≡◌, ◌<◌, ◌≤◌, [], ◌∷◌, All, IfOk, IfSome, OnOk, length, replicate};
ghost use Rattle.dk_hierarchy.specs.Descent.{IsDescent};
ghost use Rattle.dk_hierarchy.specs.Standing.{AreEnginesOf};
ghost use Rattle.dk_verdicts.specs.Checks.{AreChecksOf, AreWithChecks};
ghost use Rattle.dk_verdicts.specs.Standing.{AreFindingsOf};

use crate::findings::Finding;
use dk_base::{List, NoMemory, PointId, VarId};
use dk_engine::Engine;
use dk_hierarchy::{Merged, Way, merge, partners_at};
use dk_points::Points;
use dk_template::Tuple;
use std::alloc::Global;

/// What of a point's samples is tested for a claim: the values of these variables, the partners of those of the claim's assertion, as
/// tuples that reach the assertion's point over so many paths, at most 2^64 - 1.
#[derive(Drop)]
pub(crate) struct Check {
    pub(crate) claim: usize,
    pub(crate) vars: Tuple,
    pub(crate) paths: u64,
}

// Adds the check that a way gives of a claim's variables, at the point that it leads to; none where one of them has no partner there.
fn add_check(
    checks: &mut Vec<List<Check>>,
    claim: usize,
    vars: &[VarId],
    way: &Way,
) -> Result<(), NoMemory>
    requires few { length vars.now ≤ 3 }
    requires within { way.now.point.0 < length checks.old.items }
    ensures { OnOk result (AreWithChecks claim vars.now (way.now ∷ []) checks.old.items checks.new.items) }
{
    match partners_at(way.partners.as_slice(), vars) {
        None => Ok(()),
        Some(there) => checks[way.point.0 as usize].push(Check {
            claim,
            vars: there,
            paths: way.paths,
        }),
    }
}

// Adds those of all ways down from the claim's point.
fn add_checks(
    checks: &mut Vec<List<Check>>,
    claim: usize,
    vars: &[VarId],
    ways: &[Way],
) -> Result<(), NoMemory>
    requires few { length vars.now ≤ 3 }
    requires within { All (λ way. way.point.0 < length checks.old.items) ways.now }
    ensures { OnOk result (AreWithChecks claim vars.now ways.now checks.old.items checks.new.items) }
{
    for way in ways {
        add_check(checks, claim, vars, way)?;
    }
    Ok(())
}

// What answers for a point by its ways down. Claims of one point mostly stand together, so that the last one's ways serve again.
#[derive(Drop)]
struct Descent<'e> {
    top: PointId,
    merged: Merged<'e>,
}

// The ways down from a point: the last ones, or new ones.
fn ways_from<'e>(
    alloc: Global,
    points: &Points,
    engines: &'e [Engine],
    last: Option<Descent<'e>>,
    top: PointId,
) -> Result<Descent<'e>, NoMemory>
    requires point { top.0 < length points.now }
    requires engines { AreEnginesOf points.now engines.now }
    requires last { IfSome last (λ d. IsDescent points.now d.top.0 d.merged.ways []) }
    ensures top { IfOk result (λ d. d.top ≡ top) }
    ensures ways { IfOk result (λ d. IsDescent points.now d.top.0 d.merged.ways []) }
{
    if let Some(last) = last {
        if last.top.0 == top.0 {
            return Ok(last);
        }
    }
    Ok(Descent {
        top,
        merged: merge(alloc, points, engines, top)?,
    })
}

// No checks for each of so many points.
fn no_checks(alloc: Global, number: u32) -> Result<Vec<List<Check>>, NoMemory>
    ensures { IfOk result (λ checks. checks.items ≡ replicate number []) }
{
    let mut checks = Vec::new(alloc);
    for _ in 0..number {
        checks.push(List::new(alloc))?;
    }
    Ok(checks)
}

/// The checks of all points, for the claims of which an assertion is found that isn't violated.
pub(crate) fn checks_of(
    alloc: Global,
    points: &Points,
    engines: &[Engine],
    findings: &[Finding],
) -> Result<Vec<List<Check>>, NoMemory>
    requires engines { AreEnginesOf points.now engines.now }
    requires findings { AreFindingsOf points.now findings.now }
    ensures { IfOk result (λ checks. AreChecksOf points.now findings.now checks.items) }
{
    let mut checks = no_checks(alloc, points.len())?;
    let mut last = None;
    for (claim, finding) in findings.iter().enumerate() {
        if let Finding::Holds {
            point,
            assertion,
            ..
        } = finding
        {
            let here = ways_from(alloc, points, engines, last, *point)?;
            add_checks(
                &mut checks,
                claim,
                assertion.vars.as_slice(),
                here.merged.ways(),
            )?;
            last = Some(here);
        }
    }
    Ok(checks)
}
