// Comparing what an engine answers.
ghost use Rattle.std.specs.Prelude.{◌<◌, ◌≤◌, IsTrue, length};
ghost use Rattle.dk_template.specs.Admitted.{admits as are_admitted};
ghost use Rattle.dk_template.specs.Premises.{AreThere};
ghost use Rattle.dk_template.specs.Templates.{IsRowOf};

use crate::both::Both;
use crate::tally::Tally;
use crate::tuples::{tuple_at, tuples};
use dk_base::{NoMemory, VarId};
use dk_template::{Answers, RowId, admits, info};

// Compares the engine's answer with that of the listed samples.
fn compare_answer(
    both: &Both<'_, '_>,
    row: RowId,
    vars: &[VarId],
    tally: &mut Tally,
) -> Result<(), NoMemory>
    requires row { IsRowOf both.now.listed.grammar row }
    requires vars { IsTrue (are_admitted row both.now.listed.infos vars.now) }
{
    let state = both.engine.answer(row, vars)?;
    tally.answer(state == both.listed.answer(row, vars)?);
    Ok(())
}

// Compares the answers for a row.
fn compare_row(both: &Both<'_, '_>, row: RowId, tally: &mut Tally) -> Result<(), NoMemory>
    requires { IsRowOf both.now.listed.grammar row }
{
    let listed = &both.listed;
    let arity = info(row).arity;
    let count = listed.count_vars();
    for place in 0..tuples(count, arity) {
        let vars = tuple_at(count, arity, place);
        if admits(row, listed.vars(), vars.as_slice()) {
            compare_answer(both, row, vars.as_slice(), tally)?;
        }
    }
    Ok(())
}

/// Compares all answers: of each row over all variables that it admits, in any order and with any repeats.
pub fn compare_answers(both: &Both<'_, '_>, tally: &mut Tally) -> Result<(), NoMemory> {
    for number in 1..both.listed.grammar().rows() + 1 {
        compare_row(both, RowId(number), tally)?;
    }
    Ok(())
}

// Compares the engine's count with that of the listed samples.
fn compare_count(both: &Both<'_, '_>, vars: &[VarId], tally: &mut Tally)
    requires few { length vars.now ≤ 3 }
    requires there { AreThere both.now.listed.infos vars.now }
{
    tally.count(both.engine.count(vars) == both.listed.count(vars));
}

// Compares the counts of so many variables.
fn compare_counts_of(both: &Both<'_, '_>, arity: u8, tally: &mut Tally) {
    let count = both.listed.count_vars();
    for place in 0..tuples(count, arity) {
        let vars = tuple_at(count, arity, place);
        compare_count(both, vars.as_slice(), tally);
    }
}

/// Compares all counts: of no to three variables.
pub fn compare_counts(both: &Both<'_, '_>, tally: &mut Tally) {
    for arity in 0..4u8 {
        compare_counts_of(both, arity, tally);
    }
}

// Compares with which variables this one agrees.
fn compare_agreements_with(both: &Both<'_, '_>, v: VarId, tally: &mut Tally)
    requires { v.0 < length both.now.listed.infos }
{
    for w in 0..both.listed.count_vars() {
        let w = VarId(w);
        tally.agreement(both.engine.agree(v, w) == both.listed.agree(v, w));
    }
}

/// Compares which variables agree.
pub fn compare_agreements(both: &Both<'_, '_>, tally: &mut Tally) {
    for v in 0..both.listed.count_vars() {
        compare_agreements_with(both, VarId(v), tally);
    }
}
