// The first slot of a run that a sample changes, by the row's number, which is looked at once.
ghost use Rattle.dk_base.specs.Values.{values_of};
ghost use Rattle.dk_binary.specs.Rows.{IsBinary};
ghost use Rattle.dk_grammar.specs.Runs.{AreSlots, IsFirstChanged};
ghost use Rattle.dk_sequence.specs.Elements.{IsElementRow};
ghost use Rattle.dk_sequence.specs.Pairs.{IsPairRow};
ghost use Rattle.dk_template.specs.Templates.{IsRow};
ghost use Rattle.dk_ternary.specs.Rows.{IsTernary};
ghost use Rattle.dk_unary.specs.Rows.{IsUnary};

use crate::Slot;
use crate::sweep::first_changed_by;
use dk_base::View;
use dk_binary::binary_row;
use dk_sequence::{element_row, pair_row};
use dk_template::{RowId, rows, template_at};
use dk_ternary::ternary_row;
use dk_unary::unary_row;

// A row of one variable.
fn unary_run<S: Slot>(row: RowId, run: &[S], sample: &[View<'_>]) -> Option<usize>
    requires row { IsUnary row }
    requires run { AreSlots S.vars S.state row (values_of sample.now) run.now }
    ensures { IsFirstChanged S.vars S.state row (values_of sample.now) run.now result }
{
    unary_row!(row, row => first_changed_by(template_at(row.row()).takes, &row, run, sample))
}

// A row of two variables.
fn binary_run<S: Slot>(row: RowId, run: &[S], sample: &[View<'_>]) -> Option<usize>
    requires row { IsBinary row }
    requires run { AreSlots S.vars S.state row (values_of sample.now) run.now }
    ensures { IsFirstChanged S.vars S.state row (values_of sample.now) run.now result }
{
    binary_row!(row, row => first_changed_by(template_at(row.row()).takes, &row, run, sample))
}

// A row of three variables.
fn ternary_run<S: Slot>(row: RowId, run: &[S], sample: &[View<'_>]) -> Option<usize>
    requires row { IsTernary row }
    requires run { AreSlots S.vars S.state row (values_of sample.now) run.now }
    ensures { IsFirstChanged S.vars S.state row (values_of sample.now) run.now result }
{
    ternary_row!(row, row => first_changed_by(template_at(row.row()).takes, &row, run, sample))
}

// A row over the elements of a sequence.
fn element_run<S: Slot>(row: RowId, run: &[S], sample: &[View<'_>]) -> Option<usize>
    requires row { IsElementRow row }
    requires run { AreSlots S.vars S.state row (values_of sample.now) run.now }
    ensures { IsFirstChanged S.vars S.state row (values_of sample.now) run.now result }
{
    element_row!(row, row => first_changed_by(template_at(row.row()).takes, &row, run, sample))
}

// A row of a value and a sequence or of two sequences.
fn pair_run<S: Slot>(row: RowId, run: &[S], sample: &[View<'_>]) -> Option<usize>
    requires row { IsPairRow row }
    requires run { AreSlots S.vars S.state row (values_of sample.now) run.now }
    ensures { IsFirstChanged S.vars S.state row (values_of sample.now) run.now result }
{
    pair_row!(row, row => first_changed_by(template_at(row.row()).takes, &row, run, sample))
}

/// The first slot of a run of slots of one row that a sample changes, or none where it leaves all as they are. A sample joins the point
/// of a tuple without a missing value to a slot's state, and else changes nothing. The row's number is looked at once. It takes no
/// memory.
pub fn first_changed<S: Slot>(row: RowId, run: &[S], sample: &[View<'_>]) -> Option<usize>
    requires row { IsRow row }
    requires run { AreSlots S.vars S.state row (values_of sample.now) run.now }
    ensures { IsFirstChanged S.vars S.state row (values_of sample.now) run.now result }
{
    let n = row.0;
    if n <= rows::NON_NULL_STR {
        unary_run(row, run, sample)
    } else if n <= rows::NE_STR {
        binary_run(row, run, sample)
    } else if n <= rows::GCD || n == rows::LINEAR_TERNARY {
        ternary_run(row, run, sample)
    } else if n <= rows::ELT_NON_NULL_STR || rows::ELT_EQ <= n && n <= rows::ELT_GE {
        element_run(row, run, sample)
    } else {
        pair_run(row, run, sample)
    }
}
