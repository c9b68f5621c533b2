// The first slot of a run that a sample changes, of a row in its own type.
ghost use Rattle.std.specs.Prelude.{◌≡◌, ◌<◌, ◌↔◌, [], ◌∷◌, All, IsTrue, Some, length, map, true};
ghost use Rattle.dk_base.specs.Values.{kind_of, value_of, values_of};
ghost use Rattle.dk_grammar.specs.Runs.{IsFirstWithout, IsSlot, Stays};
ghost use Rattle.dk_instances.specs.Fits.{is_whole, tuple_in};
ghost use Rattle.dk_samples.specs.Samples.{value_in};
ghost use Rattle.dk_template.specs.Rows.{IsTuple};
ghost use Rattle.dk_template.specs.Templates.{kind_of as kind_of_role, roles_of};

use crate::Slot;
use dk_base::{Kind, VarId, View};
use dk_template::{Row, State, Takes};

// Whether a value is one of the kind; the missing value is one of none.
#[inline(always)]
fn is_of(kind: Kind, value: View<'_>) -> bool
    ensures { IsTrue result ↔ (kind_of (value_of value.entry) ≡ Some kind) }
{
    match kind {
        Kind::Bool => matches!(value, View::Bool(_)),
        Kind::Int => matches!(value, View::Int(_)),
        Kind::Hash => matches!(value, View::Hash(_)),
        Kind::Str => matches!(value, View::Str(_)),
        Kind::BoolSeq => matches!(value, View::BoolSeq(_)),
        Kind::IntSeq => matches!(value, View::IntSeq(_)),
        Kind::HashSeq => matches!(value, View::HashSeq(_)),
        Kind::StrSeq => matches!(value, View::StrSeq(_)),
    }
}

// Whether the value isn't missing, where it is of the kind unless it is: one look at it tells both.
#[inline(always)]
fn is_whole_one(kind: Kind, x: View<'_>) -> bool
    requires { is_whole (value_of x ∷ []) ≡ true → IsTuple (kind ∷ []) (value_of x ∷ []) }
    ensures { result ≡ is_whole (value_of x.entry ∷ []) }
{
    is_of(kind, x)
}

// The same of two values.
#[inline(always)]
fn is_whole_two(first: Kind, second: Kind, x: View<'_>, y: View<'_>) -> bool
    requires { is_whole (value_of x ∷ value_of y ∷ []) ≡ true → IsTuple (first ∷ second ∷ []) (value_of x ∷ value_of y ∷ []) }
    ensures { result ≡ is_whole (value_of x.entry ∷ value_of y.entry ∷ []) }
{
    if is_of(first, x) {
        is_of(second, y)
    } else {
        false
    }
}

// The same of three values.
#[inline(always)]
fn is_whole_three(
    first: Kind,
    second: Kind,
    third: Kind,
    x: View<'_>,
    y: View<'_>,
    z: View<'_>,
) -> bool
    requires { is_whole (value_of x ∷ value_of y ∷ value_of z ∷ []) ≡ true → IsTuple (first ∷ second ∷ third ∷ []) (value_of x ∷ value_of y ∷ value_of z ∷ []) }
    ensures { result ≡ is_whole (value_of x.entry ∷ value_of y.entry ∷ value_of z.entry ∷ []) }
{
    if is_of(first, x) {
        if is_of(second, y) {
            is_of(third, z)
        } else {
            false
        }
    } else {
        false
    }
}

// The value of a variable that is there.
#[inline(always)]
fn view_at<'a>(sample: &[View<'a>], v: VarId) -> View<'a>
    requires { v.0 < length sample.now }
    ensures { value_of result ≡ value_in (values_of sample.now) v }
{
    sample[v.0 as usize]
}

// Whether a sample, in which the variables have the values of the tuple, leaves a state of theirs as it is.
#[inline(always)]
fn tuple_stays<R: Row>(
    row: &R,
    vars: &[VarId],
    state: &State,
    sample: &[View<'_>],
    tuple: &[View<'_>],
    whole: bool,
) -> bool
    requires slot { IsSlot (R.kinds row.now) (R.form row.now) (values_of sample.now) vars.now state.now }
    requires tuple { values_of tuple.now ≡ tuple_in vars.now (values_of sample.now) }
    requires whole { whole ≡ is_whole (values_of tuple.now) }
    ensures { IsTrue result ↔ Stays (R.form row.now) (R.state_of row.now) (values_of sample.now) vars.now state.now }
{
    if whole { row.stays(state, tuple) } else { true }
}

// Whether a sample leaves a state over variables as it is, of a row of one variable. Where there are more, one of them is missing.
#[inline(always)]
fn stays_over_one<R: Row>(
    kind: Kind,
    row: &R,
    vars: &[VarId],
    state: &State,
    sample: &[View<'_>],
) -> bool
    requires kinds { R.kinds row.now ≡ kind ∷ [] }
    requires slot { IsSlot (R.kinds row.now) (R.form row.now) (values_of sample.now) vars.now state.now }
    ensures { IsTrue result ↔ Stays (R.form row.now) (R.state_of row.now) (values_of sample.now) vars.now state.now }
{
    match vars {
        [v] => {
            let x = view_at(sample, *v);
            let whole = is_whole_one(kind, x);
            tuple_stays(row, vars, state, sample, &[x], whole)
        }
        _ => true,
    }
}

// The same of a row of two variables.
#[inline(always)]
fn stays_over_two<R: Row>(
    first: Kind,
    second: Kind,
    row: &R,
    vars: &[VarId],
    state: &State,
    sample: &[View<'_>],
) -> bool
    requires kinds { R.kinds row.now ≡ first ∷ second ∷ [] }
    requires slot { IsSlot (R.kinds row.now) (R.form row.now) (values_of sample.now) vars.now state.now }
    ensures { IsTrue result ↔ Stays (R.form row.now) (R.state_of row.now) (values_of sample.now) vars.now state.now }
{
    match vars {
        [v, w] => {
            let x = view_at(sample, *v);
            let y = view_at(sample, *w);
            let whole = is_whole_two(first, second, x, y);
            tuple_stays(row, vars, state, sample, &[x, y], whole)
        }
        _ => true,
    }
}

// The same of a row of three variables.
#[inline(always)]
fn stays_over_three<R: Row>(
    first: Kind,
    second: Kind,
    third: Kind,
    row: &R,
    vars: &[VarId],
    state: &State,
    sample: &[View<'_>],
) -> bool
    requires kinds { R.kinds row.now ≡ first ∷ second ∷ third ∷ [] }
    requires slot { IsSlot (R.kinds row.now) (R.form row.now) (values_of sample.now) vars.now state.now }
    ensures { IsTrue result ↔ Stays (R.form row.now) (R.state_of row.now) (values_of sample.now) vars.now state.now }
{
    match vars {
        [u, v, w] => {
            let x = view_at(sample, *u);
            let y = view_at(sample, *v);
            let z = view_at(sample, *w);
            let whole = is_whole_three(first, second, third, x, y, z);
            tuple_stays(row, vars, state, sample, &[x, y, z], whole)
        }
        _ => true,
    }
}

// The same of a row that takes these.
#[inline(always)]
fn stays_over<R: Row>(
    takes: Takes,
    row: &R,
    vars: &[VarId],
    state: &State,
    sample: &[View<'_>],
) -> bool
    requires kinds { R.kinds row.now ≡ map kind_of_role (roles_of takes) }
    requires slot { IsSlot (R.kinds row.now) (R.form row.now) (values_of sample.now) vars.now state.now }
    ensures { IsTrue result ↔ Stays (R.form row.now) (R.state_of row.now) (values_of sample.now) vars.now state.now }
{
    match takes {
        Takes::One(a) => stays_over_one(a.kind(), row, vars, state, sample),
        Takes::Two(a, b) => stays_over_two(a.kind(), b.kind(), row, vars, state, sample),
        Takes::Three(a, b, c) => {
            stays_over_three(a.kind(), b.kind(), c.kind(), row, vars, state, sample)
        }
    }
}

/// The first slot of a run of slots of one row that a sample changes. It is built into each place that calls it, so that no slot asks
/// again which row it is, nor what the row takes.
#[inline(always)]
pub(crate) fn first_changed_by<R: Row, S: Slot>(
    takes: Takes,
    row: &R,
    run: &[S],
    sample: &[View<'_>],
) -> Option<usize>
    requires kinds { R.kinds row.now ≡ map kind_of_role (roles_of takes) }
    requires slots { All (λ slot. IsSlot (R.kinds row.now) (R.form row.now) (values_of sample.now) (S.vars slot) (S.state slot)) run.now }
    ensures { IsFirstWithout (λ slot. Stays (R.form row.now) (R.state_of row.now) (values_of sample.now) (S.vars slot) (S.state slot)) run.now result }
{
    for place in 0..run.len() {
        let slot = &run[place];
        if !stays_over(takes, row, slot.vars(), slot.state(), sample) {
            return Some(place);
        }
    }
    None
}
