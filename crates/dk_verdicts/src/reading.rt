// Reading the claims of points that are new.
ghost use Rattle.std.specs.Prelude.{◌≡◌, ◌≤◌, ◌<◌, ◌^◌, IfNone, IfOk, IfSome, OnOk, length, slice_set, take};
ghost use Rattle.dk_expr.specs.Naming.{AreUnderNames};
ghost use Rattle.dk_expr.specs.Reads.{HasNone, IsRead};
ghost use Rattle.dk_hierarchy.specs.Standing.{AreEnginesOf};
ghost use Rattle.dk_verdicts.specs.Reading.{AreListed, AreReread, IsFoundFrom};
ghost use Rattle.dk_verdicts.specs.Standing.{AreFindingsOf, AreUnfed, IsFindingOf};

use crate::findings::Finding;
use dk_base::{NoMemory, PointId, VarInfo};
use dk_claims::Claim;
use dk_engine::Engine;
use dk_expr::{Assertion, VarNames, read_by};
use dk_hierarchy::engine_of;
use dk_points::Points;
use dk_template::Grammar;
use std::alloc::Global;

/// Adds engines without samples, for the points that have none yet.
pub(crate) fn add_engines(
    alloc: Global,
    engines: &mut Vec<Engine>,
    points: &Points,
) -> Result<(), NoMemory>
    requires few { length engines.old.items ≤ length points.now }
    requires known { AreUnfed (take (length engines.old.items) points.now) engines.old.items }
    ensures { OnOk result (AreUnfed points.now engines.new.items) }
{
    for place in engines.len()..points.len() as usize {
        engines.push(engine_of(alloc, points, PointId(place as u32), Grammar::Two)?)?;
    }
    Ok(())
}

// A point's variables by their names. Claims of one point mostly stand together, so that the last one's names serve again.
#[derive(Drop)]
struct Listed {
    point: PointId,
    names: VarNames,
}

// A point's variables by their names: the last ones, or new ones.
fn names_at(
    alloc: Global,
    last: Option<Listed>,
    point: PointId,
    vars: &[VarInfo],
) -> Result<Listed, NoMemory>
    requires few { length vars.now < 2 ^ 32 }
    requires last { IfSome last (λ l. l.point ≡ point → AreUnderNames vars.now l.names) }
    ensures point { IfOk result (λ l. l.point ≡ point) }
    ensures names { IfOk result (λ l. AreUnderNames vars.now l.names) }
{
    if let Some(last) = last {
        if last.point.0 == point.0 {
            return Ok(last);
        }
    }
    Ok(Listed {
        point,
        names: VarNames::of(alloc, vars)?,
    })
}

// What a text is read as, of a point's variables.
fn read_at(
    alloc: Global,
    last: &mut Option<Listed>,
    point: PointId,
    vars: &[VarInfo],
    text: &[u8],
) -> Result<Option<Assertion>, NoMemory>
    requires few { length vars.now < 2 ^ 32 }
    requires last { IfSome last.old (λ l. l.point ≡ point → AreUnderNames vars.now l.names) }
    ensures last { OnOk result (IfSome last.new (λ l. (l.point ≡ point) × AreUnderNames vars.now l.names)) }
    ensures read { IfOk result (λ read. IfSome read (λ a. IsRead vars.now text.now a)) }
    ensures none { IfOk result (λ read. IfNone read (HasNone vars.now text.now)) }
{
    let here = names_at(alloc, last.take(), point, vars)?;
    let read = read_by(alloc, vars, &here.names, text)?;
    *last = Some(here);
    Ok(read)
}

// What is found of a claim, if its point isn't one of the first ones, which are known.
fn read_claim(
    alloc: Global,
    points: &Points,
    engines: &[Engine],
    known: usize,
    last: &mut Option<Listed>,
    claim: &Claim,
) -> Result<Finding, NoMemory>
    requires engines { AreEnginesOf points.now engines.now }
    requires last { IfSome last.old (AreListed points.now) }
    ensures last { OnOk result (IfSome last.new (AreListed points.now)) }
    ensures found { IfOk result (IsFoundFrom known points.now claim.now) }
    ensures is_of { IfOk result (IsFindingOf points.now) }
{
    match points.find(claim.point.as_slice()) {
        Some(point) if point.0 as usize >= known => {
            let vars = engines[point.0 as usize].vars();
            match read_at(alloc, last, point, vars, claim.text.as_slice())? {
                Some(assertion) => Ok(Finding::Holds {
                    point,
                    assertion,
                    tuples: 0,
                }),
                None => Ok(Finding::Unknown),
            }
        }
        _ => Ok(Finding::Unknown),
    }
}

// Puts what is found of a claim at its place.
fn put(findings: &mut Vec<Finding>, place: usize, finding: Finding)
    requires { place < length findings.old.items }
    ensures { findings.new.items ≡ slice_set findings.old.items place finding }
{
    findings[place] = finding;
}

/// Reads the claims of which nothing is found yet, of the points behind the first ones, which are known.
pub(crate) fn read_claims(
    alloc: Global,
    points: &Points,
    engines: &[Engine],
    known: usize,
    claims: &[Claim],
    findings: &mut Vec<Finding>,
) -> Result<(), NoMemory>
    requires engines { AreEnginesOf points.now engines.now }
    requires long { length findings.old.items ≡ length claims.now }
    requires are_of { AreFindingsOf points.now findings.old.items }
    ensures reread { OnOk result (AreReread known points.now claims.now findings.old.items findings.new.items) }
    ensures are_of { OnOk result (AreFindingsOf points.now findings.new.items) }
{
    let mut last = None;
    for (place, claim) in claims.iter().enumerate() {
        if findings[place].is_unknown() {
            let finding = read_claim(alloc, points, engines, known, &mut last, claim)?;
            put(findings, place, finding);
        }
    }
    Ok(())
}
