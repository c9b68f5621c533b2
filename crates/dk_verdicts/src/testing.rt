// Testing the sample of a record.
ghost use Rattle.std.specs.Prelude.{◌≡◌, ◌<◌, IfOk, Ok, OnOk, Result, length, true};
ghost use Rattle.dk_base.specs.Values.{value_of, values_of};
ghost use Rattle.dk_instances.specs.Fits.{is_whole, tuple_in};
ghost use Rattle.dk_samples.specs.Samples.{value_in};
ghost use Rattle.dk_template.specs.Rows.{IsTuple};
ghost use Rattle.dk_template.specs.Templates.{role_kinds};
ghost use Rattle.dk_verdicts.specs.Tests.{AreTaken, CanAllGoOn, CanGoOn, CanTest, FitAll, Fits, IsTestable, Takes, Tells, tuples_by};

use crate::checks::Check;
use crate::findings::Finding;
use dk_base::{NoMemory, VarId, View};
use dk_expr::Assertion;
use std::alloc::Global;

/// The sample of a record, and where the record begins.
#[derive(Clone, Copy)]
pub(crate) struct Sample<'a> {
    pub(crate) file: usize,
    pub(crate) line: u64,
    pub(crate) values: &'a [View<'a>],
}

// What a test of a tuple tells.
#[derive(Clone, Copy, Debug, PartialEq, Eq)]
enum Outcome {
    // A value is missing.
    Missing,
    // The assertion goes on.
    Kept,
    Violated,
}

// Whether no value is missing.
fn is_whole(tuple: &[View<'_>]) -> bool
    ensures { result ≡ is_whole (values_of tuple.now) }
{
    for value in tuple {
        if matches!(value, View::Missing) {
            return false;
        }
    }
    true
}

// The value of a variable in a sample.
fn view_at<'a>(sample: &[View<'a>], v: VarId) -> View<'a>
    requires { v.0 < length sample.now }
    ensures { value_of result ≡ value_in (values_of sample.now) v }
{
    sample[v.0 as usize]
}

// Tests a tuple, if no value is missing.
fn test_tuple(
    alloc: Global,
    assertion: &mut Assertion,
    tuple: &[View<'_>],
) -> Result<Outcome, NoMemory>
    requires testable { IsTestable assertion.old }
    requires tuple { is_whole (values_of tuple.now) ≡ true → IsTuple (role_kinds assertion.old.row) (values_of tuple.now) }
    ensures { IfOk result (λ outcome. Tells assertion.old (values_of tuple.now) outcome assertion.new) }
{
    if !is_whole(tuple) {
        return Ok(Outcome::Missing);
    }
    if assertion.test(alloc, tuple)? {
        Ok(Outcome::Violated)
    } else {
        Ok(Outcome::Kept)
    }
}

// Tests the tuple of one to three variables in a sample.
fn test_values(
    alloc: Global,
    assertion: &mut Assertion,
    sample: &[View<'_>],
    vars: &[VarId],
) -> Result<Outcome, NoMemory>
    requires testable { IsTestable assertion.old }
    requires fits { CanTest assertion.old.row vars.now (values_of sample.now) }
    ensures { IfOk result (λ outcome. Tells assertion.old (tuple_in vars.now (values_of sample.now)) outcome assertion.new) }
{
    match vars {
        [v] => test_tuple(alloc, assertion, &[view_at(sample, *v)]),
        [v, w] => test_tuple(
            alloc,
            assertion,
            &[view_at(sample, *v), view_at(sample, *w)],
        ),
        [v, w, x] => {
            let tuple = [
                view_at(sample, *v),
                view_at(sample, *w),
                view_at(sample, *x),
            ];
            test_tuple(alloc, assertion, &tuple)
        }
        _ => unreachable!(),
    }
}

impl Finding {
    // Takes the tuple that a check gives of a sample, once for each path.
    fn take(&mut self, alloc: Global, sample: &Sample<'_>, check: &Check) -> Result<(), NoMemory>
        requires going { CanGoOn self.old }
        requires fits { Fits (values_of sample.now.values.now) check.now self.old }
        ensures { OnOk result (Takes sample.now.file sample.now.line (tuples_by (values_of sample.now.values.now) check.now) self.old self.new) }
    {
        let Finding::Holds {
            assertion,
            tuples,
            ..
        } = self
        else {
            return Ok(());
        };
        match test_values(alloc, assertion, sample.values, check.vars.as_slice())? {
            Outcome::Missing => {}
            Outcome::Kept => *tuples = tuples.saturating_add(check.paths),
            Outcome::Violated => {
                *self = Finding::Violated {
                    file: sample.file,
                    line: sample.line,
                }
            }
        }
        Ok(())
    }
}

/// Tests what the checks of a point give of its sample.
pub(crate) fn test_all(
    alloc: Global,
    checks: &[Check],
    sample: &Sample<'_>,
    findings: &mut Vec<Finding>,
) -> Result<(), NoMemory>
    requires going { CanAllGoOn findings.old.items }
    requires fit { FitAll (values_of sample.now.values.now) checks.now findings.old.items }
    ensures { OnOk result (AreTaken sample.now.file sample.now.line (values_of sample.now.values.now) checks.now findings.old.items findings.new.items) }
{
    for check in checks {
        findings[check.claim].take(alloc, sample, check)?;
    }
    Ok(())
}
