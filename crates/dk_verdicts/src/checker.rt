// The checker.
ghost use Rattle.std.specs.Prelude.{◌≡◌, ◌<◌, ◌++◌, ◌⊎◌, ◌∷◌, [], IfOk, List, OnOk, length, replicate};
ghost use Rattle.std.specs.List.{AllZip};
ghost use Rattle.dk_base.specs.Values.{values_of};
ghost use Rattle.dk_base.specs.declared.values.Value.{Value};
ghost use Rattle.dk_derive.specs.Values.{values_by_form};
ghost use Rattle.dk_hierarchy.specs.Samples.{all_vars_of};
ghost use Rattle.dk_instances.specs.Laws.{IsSample};
ghost use Rattle.dk_verdicts.specs.Checks.{AreChecksOf};
ghost use Rattle.dk_verdicts.specs.Records.{Record};
ghost use Rattle.dk_verdicts.specs.Standing.{AreFindingsOf, AreUnfed, IsKeptUp, StandsFor, claims_of};
ghost use Rattle.dk_verdicts.specs.Verdicts.{IsVerdict};

use crate::checks::{Check, checks_of};
use crate::findings::Finding;
use crate::reading::{add_engines, read_claims};
use crate::testing::{Sample, test_all};
use crate::verdicts::Verdict;
use dk_base::{List, NoMemory, PointId, View};
use dk_claims::Claim;
use dk_engine::Engine;
use dk_points::Points;
use std::alloc::Global;

/// Checks claims against the records of a run, as they come: what is found of each, and the checks of each point's samples. These are made
/// for all points at once, at the first record behind a declaration. Samples are not kept.
#[derive(Drop)]
pub struct Checker {
    alloc: Global,
    claims: List<Claim>,
    findings: Vec<Finding>,
    // Those of the points that are known, without samples: what tells a point's variables, and the ways down from it.
    engines: Vec<Engine>,
    // Of each point; none where points have been added since.
    checks: Vec<List<Check>>,
}

// Nothing is found of so many claims.
fn no_findings(alloc: Global, number: usize) -> Result<Vec<Finding>, NoMemory>
    ensures { IfOk result (λ findings. findings.items ≡ replicate number Finding.Unknown) }
{
    let mut findings = Vec::new(alloc);
    for _ in 0..number {
        findings.push(Finding::Unknown)?;
    }
    Ok(findings)
}

impl Checker {
    /// The checker of these claims, before all records.
    pub fn new(alloc: Global, claims: List<Claim>) -> Result<Checker, NoMemory>
        ensures claims { IfOk result (λ c. claims_of c ≡ claims) }
        ensures kept_up { IfOk result (λ c. IsKeptUp [] c) }
        ensures stands { IfOk result (λ c. StandsFor c [] []) }
    {
        let findings = no_findings(alloc, claims.len())?;
        Ok(Checker {
            alloc,
            claims,
            findings,
            engines: Vec::new(alloc),
            checks: Vec::new(alloc),
        })
    }

    /// The claims.
    pub fn claims(&self) -> &[Claim]
        ensures { result.now ≡ claims_of self.now }
    {
        self.claims.as_slice()
    }

    // Reads the claims of the points that have been added since.
    fn keep_up(&mut self, points: &Points) -> Result<(), NoMemory>
        requires { IsKeptUp points.now self.old }
        ensures claims { OnOk result (claims_of self.new ≡ claims_of self.old) }
        ensures kept_up { OnOk result (IsKeptUp points.now self.new) }
        ensures known { OnOk result (length self.new.engines.items ≡ length points.now) }
        ensures stands { OnOk result ((rs : List Record) → StandsFor self.old points.now rs → StandsFor self.new points.now rs) }
    {
        let known = self.engines.len();
        if known == points.len() as usize {
            return Ok(());
        }
        self.checks = Vec::new(self.alloc);
        add_engines(self.alloc, &mut self.engines, points)?;
        let claims = self.claims.as_slice();
        read_claims(
            self.alloc,
            points,
            &self.engines,
            known,
            claims,
            &mut self.findings,
        )
    }

    // Makes the checks of all points, where points have been added since.
    fn make_checks(&mut self, points: &Points) -> Result<(), NoMemory>
        requires engines { AreUnfed points.now self.old.engines.items }
        requires findings { AreFindingsOf points.now self.old.findings.items }
        requires checks { (self.old.checks.items ≡ []) ⊎ AreChecksOf points.now self.old.findings.items self.old.checks.items }
        requires some { 0 < length points.now }
        ensures others { self.new ≡ record self.old { checks = self.new.checks } }
        ensures checks { OnOk result (AreChecksOf points.now self.new.findings.items self.new.checks.items) }
    {
        if self.checks.len() != points.len() as usize {
            self.checks = checks_of(self.alloc, points, &self.engines, &self.findings)?;
        }
        Ok(())
    }

    /// Takes a record of a point of the table, which begins at this line of the file at this place, with the values of all the point's
    /// variables. After want of memory nothing is said of the checker.
    pub fn take(
        &mut self,
        points: &Points,
        point: PointId,
        file: usize,
        line: u64,
        values: &[View<'_>],
    ) -> Result<(), NoMemory>
        requires kept_up { IsKeptUp points.now self.old }
        requires point { point.0 < length points.now }
        requires sample { IsSample (all_vars_of points.now point.0) (values_of values.now) }
        ensures claims { OnOk result (claims_of self.new ≡ claims_of self.old) }
        ensures kept_up { OnOk result (IsKeptUp points.now self.new) }
        ensures stands { OnOk result ((rs : List Record) (base : List Value)
            → values_of values.now ≡ values_by_form (all_vars_of points.now point.0) base
            → StandsFor self.old points.now rs
            → StandsFor self.new points.now
            (rs ++ record { table = points.now; file = file; line = line; point = point.0; values = base } ∷ [])) }
    {
        self.keep_up(points)?;
        self.make_checks(points)?;
        let checks = self.checks[point.0 as usize].as_slice();
        let sample = Sample { file, line, values };
        test_all(self.alloc, checks, &sample, &mut self.findings)
    }

    /// The verdicts on the claims, in their order, of the records so far and the table as it is now. After want of memory nothing is said
    /// of the checker.
    pub fn verdicts(&mut self, points: &Points) -> Result<List<Verdict>, NoMemory>
        requires { IsKeptUp points.now self.old }
        ensures claims { OnOk result (claims_of self.new ≡ claims_of self.old) }
        ensures kept_up { OnOk result (IsKeptUp points.now self.new) }
        ensures stands { OnOk result ((rs : List Record) → StandsFor self.old points.now rs → StandsFor self.new points.now rs) }
        ensures verdicts { IfOk result (λ verdicts. (rs : List Record) → StandsFor self.old points.now rs
            → AllZip (IsVerdict points.now rs) (claims_of self.old) verdicts) }
    {
        self.keep_up(points)?;
        let mut verdicts = List::new(self.alloc);
        for finding in &self.findings {
            verdicts.push(finding.verdict())?;
        }
        Ok(verdicts)
    }
}
