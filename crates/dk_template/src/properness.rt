// Which states are proper for a row.
ghost use Rattle.std.specs.Prelude.{◌≡◌, ◌↔◌, ◌^◌, IsTrue};
ghost use Rattle.std.specs.List.{list_all};
ghost use Rattle.std.specs.Ordering.{int_cmp, nat_cmp};
ghost use Rattle.std.specs.Cmp.Lexicographic.{slice_cmp};
ghost use Rattle.dk_arith.specs.Directions.{gcd_of_three};
ghost use Rattle.dk_base.specs.Values.Items.{is_text as is_string};
ghost use Rattle.dk_forms.specs.Plane.{is_before};
ghost use Rattle.dk_template.specs.Ascending.{ascends};
ghost use Rattle.dk_template.specs.Proper.{IsProper};
ghost use Rattle.dk_template.specs.ProperTest.{is_bounded, is_few, is_normal, is_normal3, is_plane, is_point, is_positive, is_proper as passes, is_span, is_spot, is_straight, is_unsaid, is_within};
ghost use Rattle.dk_template.specs.Templates.{IsRow, form_of};

use crate::templates::{StateForm, template_at};
use crate::{RowId, State};
use dk_arith::gcd_wide;
use dk_base::{Text, is_text};
use std::cmp::Ordering;

// Whether each number is less than the next.
fn ints_ascend(items: &[i64]) -> bool
    ensures { result ≡ ascends int_cmp items.now }
{
    items
        .iter()
        .zip(items.iter().skip(1))
        .all(|(x, y)| matches!(x.cmp(y), Ordering::Less))
}

// Whether they are one to three numbers, distinct and ascending.
fn are_few_ints(items: &[i64]) -> bool
    ensures { result ≡ is_few int_cmp items.now }
{
    0 < items.len() && items.len() <= 3 && ints_ascend(items)
}

// Whether each text is less than the next, by its bytes.
fn texts_ascend(items: &[Text]) -> bool
    ensures { result ≡ ascends (slice_cmp nat_cmp) items.now }
{
    items.iter().zip(items.iter().skip(1)).all(|(x, y)| matches!(
        x.as_slice().cmp(y.as_slice()),
        Ordering::Less
    ))
}

// Whether they are one to three texts, distinct and ascending.
fn are_few_texts(items: &[Text]) -> bool
    ensures { result ≡ is_few (slice_cmp nat_cmp) items.now }
{
    0 < items.len() && items.len() <= 3 && texts_ascend(items)
}

// Whether each text is one that a string is written by.
fn are_strings(items: &[Text]) -> bool
    ensures { result ≡ list_all is_string items.now }
{
    items.iter().all(|text| is_text(text.as_slice()))
}

// Whether the direction is in lowest terms, its first part that isn't 0 positive.
fn is_normal(a: i128, b: i128) -> bool
    ensures { result ≡ is_normal a b }
{
    gcd_wide(a.unsigned_abs(), b.unsigned_abs()) == 1 && (0 < a || (a == 0 && 0 < b))
}

// The same in space.
#[tactic(auto, unfolding(crate::specs::ProperTest::is_normal3))]
fn is_normal3(a: i128, b: i128, c: i128) -> bool
    ensures { result ≡ is_normal3 a b c }
{
    gcd_wide(
        gcd_wide(a.unsigned_abs(), b.unsigned_abs()),
        c.unsigned_abs(),
    ) == 1
        && (0 < a || (a == 0 && (0 < b || (b == 0 && 0 < c))))
}

fn is_spot(x: i64, y: i64) -> bool
    ensures { result ≡ is_spot x y }
{
    x.unsigned_abs() <= 1 << 62 && y.unsigned_abs() <= 1 << 62
}

fn is_straight(a: i128, b: i128, c: i128) -> bool
    ensures { result ≡ is_straight a b c }
{
    is_normal(a, b)
        && a.unsigned_abs() <= 1 << 63
        && b.unsigned_abs() <= 1 << 63
        && c.unsigned_abs() <= 1 << 126
}

#[tactic(auto, unfolding(crate::specs::ProperTest::is_point))]
fn is_point(x: i64, y: i64, z: i64) -> bool
    ensures { result ≡ is_point (x, y, z) }
{
    x.unsigned_abs() <= 1 << 30 && y.unsigned_abs() <= 1 << 30 && z.unsigned_abs() <= 1 << 30
}

// Whether the first point isn't after the second: by x, then y, then z.
pub(crate) fn is_before(x1: i64, y1: i64, z1: i64, x2: i64, y2: i64, z2: i64) -> bool
    ensures { result ≡ is_before (x1, y1, z1) (x2, y2, z2) }
{
    if x1 == x2 {
        if y1 == y2 { z1 <= z2 } else { y1 < y2 }
    } else {
        x1 < x2
    }
}

fn is_span(x1: i64, y1: i64, z1: i64, x2: i64, y2: i64, z2: i64) -> bool
    ensures { result ≡ is_span (x1, y1, z1) (x2, y2, z2) }
{
    if is_point(x1, y1, z1) {
        if is_point(x2, y2, z2) {
            is_before(x1, y1, z1, x2, y2, z2)
        } else {
            false
        }
    } else {
        false
    }
}

#[tactic(auto, unfolding(crate::specs::ProperTest::is_bounded))]
fn is_bounded(a: i128, b: i128, c: i128, d: i128) -> bool
    ensures { result ≡ is_bounded a b c d }
{
    a.unsigned_abs() <= 1 << 63
        && b.unsigned_abs() <= 1 << 63
        && c.unsigned_abs() <= 1 << 63
        && d.unsigned_abs() <= 1 << 95
}

fn is_plane(a: i128, b: i128, c: i128, d: i128) -> bool
    ensures { result ≡ is_plane a b c d }
{
    if is_normal3(a, b, c) {
        is_bounded(a, b, c, d)
    } else {
        false
    }
}

fn is_unsaid(state: &State) -> bool
    ensures { result ≡ is_unsaid state.now }
{
    matches!(state, State::Empty | State::Broken)
}

// Whether the state is Empty, Broken, or of the form and within its bounds.
fn is_of(form: StateForm, state: &State) -> bool
    ensures { result ≡ passes form state.now }
{
    match form {
        StateForm::Plain => match state {
            State::Holds => true,
            _ => is_unsaid(state),
        },
        StateForm::Least => match state {
            State::Least(_) => true,
            _ => is_unsaid(state),
        },
        StateForm::Greatest => match state {
            State::Greatest(_) => true,
            _ => is_unsaid(state),
        },
        StateForm::Ints => match state {
            State::Ints(values) => are_few_ints(values.as_slice()),
            _ => is_unsaid(state),
        },
        StateForm::Truth => match state {
            State::Truth(_) => true,
            _ => is_unsaid(state),
        },
        StateForm::Code => match state {
            State::Code(_) => true,
            _ => is_unsaid(state),
        },
        StateForm::Texts => match state {
            State::Texts(values) => {
                are_few_texts(values.as_slice()) && are_strings(values.as_slice())
            }
            _ => is_unsaid(state),
        },
        StateForm::Modulus => match state {
            State::One(_) => true,
            State::Modulus { m, r } => 2 <= *m && *r < *m,
            _ => is_unsaid(state),
        },
        StateForm::Line => match state {
            State::Spot { x, y } => is_spot(*x, *y),
            State::Straight { a, b, c } => is_straight(*a, *b, *c),
            _ => is_unsaid(state),
        },
        StateForm::Plane => match state {
            State::Span {
                x1,
                y1,
                z1,
                x2,
                y2,
                z2,
            } => is_span(*x1, *y1, *z1, *x2, *y2, *z2),
            State::Plane { a, b, c, d } => is_plane(*a, *b, *c, *d),
            _ => is_unsaid(state),
        },
        StateForm::Offset => match state {
            State::Offset { k } => k.unsigned_abs() < 1 << 64,
            _ => is_unsaid(state),
        },
    }
}

/// Whether the state is proper for the row: Empty, Broken, or of the row's form and within its bounds. Whether some tuples give it
/// isn't asked.
pub fn proper(row: RowId, state: &State) -> bool
    requires { IsRow row }
    ensures { IsTrue result ↔ IsProper (form_of row) state.now }
{
    is_of(template_at(row).form, state)
}
