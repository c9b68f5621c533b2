// The values of derived variables.
ghost use Rattle.std.specs.Prelude.{◌≡◌, ◌-◌, All, IfOk, length, option_and_then, option_map, slice_get, true};
ghost use Rattle.std.specs.List.{list_all};
ghost use Rattle.dk_base.specs.Shapes.{is_base_form};
ghost use Rattle.dk_base.specs.Values.{value_of, values_of};
ghost use Rattle.dk_base.specs.Values.Spelling.{IsWritten};
ghost use Rattle.dk_base.specs.Values.Tuples.{value_at};
ghost use Rattle.dk_derive.specs.Values.{at, back, back_of, derived_value, element, front, front_of, next_place, number_of_elements, place, size, value_by_form, values_by_form};

use crate::forms::is_base_form;
use bumpalo::collections::into_bump_slice;
use dk_base::{Arena, Form, NoMemory, VarId, VarInfo, View};

// The item at a place, if there is one.
fn item_at<T: Copy>(items: &[T], place: Option<usize>) -> Option<T>
    ensures { result ≡ option_and_then (slice_get items.now) place }
{
    items.get(place?).copied()
}

// The items in front of a place, and those from it on; none where the place is behind the end.
fn front_of<T>(items: &[T], place: Option<usize>) -> Option<&[T]>
    ensures { option_map (λ s. s.now) result ≡ option_and_then (front_of items.now) place }
{
    items.get(..place?)
}

fn back_of<T>(items: &[T], place: Option<usize>) -> Option<&[T]>
    ensures { option_map (λ s. s.now) result ≡ option_and_then (back_of items.now) place }
{
    items.get(place?..)
}

// The number of a sequence's elements.
fn number_of_elements(sequence: View<'_>) -> usize
    ensures { result ≡ number_of_elements (value_of sequence.entry) }
{
    match sequence {
        View::BoolSeq(truths) => truths.len(),
        View::IntSeq(numbers) => numbers.len(),
        View::HashSeq(codes) => codes.len(),
        View::StrSeq(texts) => texts.len(),
        _ => 0,
    }
}

// This number as a value; of what is no sequence it is missing.
fn size<'a>(sequence: View<'a>) -> View<'a>
    ensures value { value_of result ≡ size (value_of sequence.entry) }
    ensures written { IsWritten (value_of result) }
{
    match sequence {
        View::BoolSeq(truths) => View::Int(truths.len() as i64),
        View::IntSeq(numbers) => View::Int(numbers.len() as i64),
        View::HashSeq(codes) => View::Int(codes.len() as i64),
        View::StrSeq(texts) => View::Int(texts.len() as i64),
        _ => View::Missing,
    }
}

// The element at a place; missing where there is none.
fn element<'a>(sequence: View<'a>, place: Option<usize>) -> View<'a>
    ensures { value_of result ≡ element (value_of sequence.entry) place }
{
    match sequence {
        View::BoolSeq(truths) => item_at(truths, place).map_or(
            View::Missing,
            |item| View::Bool(item),
        ),
        View::IntSeq(numbers) => item_at(numbers, place).map_or(
            View::Missing,
            |item| View::Int(item),
        ),
        View::HashSeq(codes) => item_at(codes, place).map_or(
            View::Missing,
            |item| View::Hash(item),
        ),
        View::StrSeq(texts) => item_at(texts, place).map_or(View::Missing, |item| View::Str(item)),
        _ => View::Missing,
    }
}

// The elements in front of a place, and those from it on; missing where the place is behind the end.
#[tactic(auto, using(crate::proofs::Texts::front_of_map))]
fn front<'a>(sequence: View<'a>, place: Option<usize>) -> View<'a>
    ensures { value_of result ≡ front (value_of sequence.entry) place }
{
    match sequence {
        View::BoolSeq(truths) => front_of(truths, place).map_or(
            View::Missing,
            |part| View::BoolSeq(part),
        ),
        View::IntSeq(numbers) => front_of(numbers, place).map_or(
            View::Missing,
            |part| View::IntSeq(part),
        ),
        View::HashSeq(codes) => front_of(codes, place).map_or(
            View::Missing,
            |part| View::HashSeq(part),
        ),
        View::StrSeq(texts) => front_of(texts, place).map_or(
            View::Missing,
            |part| View::StrSeq(part),
        ),
        _ => View::Missing,
    }
}

#[tactic(auto, using(crate::proofs::Texts::back_of_map))]
fn back<'a>(sequence: View<'a>, place: Option<usize>) -> View<'a>
    ensures { value_of result ≡ back (value_of sequence.entry) place }
{
    match sequence {
        View::BoolSeq(truths) => back_of(truths, place).map_or(
            View::Missing,
            |part| View::BoolSeq(part),
        ),
        View::IntSeq(numbers) => back_of(numbers, place).map_or(
            View::Missing,
            |part| View::IntSeq(part),
        ),
        View::HashSeq(codes) => back_of(codes, place).map_or(
            View::Missing,
            |part| View::HashSeq(part),
        ),
        View::StrSeq(texts) => back_of(texts, place).map_or(
            View::Missing,
            |part| View::StrSeq(part),
        ),
        _ => View::Missing,
    }
}

// The place that an index names; an index below 0 names none.
fn place(index: View<'_>) -> Option<usize>
    ensures { result ≡ place (value_of index.entry) }
{
    match index {
        View::Int(i) if i >= 0 => Some(i as usize),
        _ => None,
    }
}

// The place behind the one that an index names; behind -1 stands the first one.
fn next_place(index: View<'_>) -> Option<usize>
    ensures { result ≡ next_place (value_of index.entry) }
{
    match index {
        View::Int(-1) => Some(0),
        View::Int(i) if i >= 0 => Some(i as usize + 1),
        _ => None,
    }
}

fn base_value<'a>(base: &[View<'a>], place: usize) -> View<'a>
    ensures { value_of result ≡ value_at (values_of base.now) place }
{
    base.get(place).copied().unwrap_or(View::Missing)
}

fn at<'a>(base: &[View<'a>], var: VarId) -> View<'a>
    ensures { value_of result ≡ at (values_of base.now) var }
{
    base_value(base, var.0 as usize)
}

// The last element of a sequence, which is missing where there is none.
fn last<'a>(sequence: View<'a>) -> View<'a>
    ensures { value_of result ≡ element (value_of sequence.entry) (Some (number_of_elements (value_of sequence.entry) - 1)) }
{
    element(
        sequence,
        Some(number_of_elements(sequence).saturating_sub(1)),
    )
}

// The value of a derived variable.
#[tactic(auto, using(crate::proofs::Written::value_written, crate::proofs::Written::element_written, crate::proofs::Written::front_written, crate::proofs::Written::back_written))]
fn derived_value<'a>(base: &[View<'a>], form: Form) -> View<'a>
    ensures value { value_of result ≡ derived_value (values_of base.now) form }
    ensures written { All IsWritten (values_of base.now) → IsWritten (value_of result) }
{
    match form {
        Form::Declared => View::Missing,
        Form::Orig => View::Missing,
        Form::Size(s) => size(at(base, s)),
        Form::First(s) => element(at(base, s), Some(0)),
        Form::Last(s) => last(at(base, s)),
        Form::At(s, i) => element(at(base, s), place(at(base, i))),
        Form::Upto(s, i) => front(at(base, s), next_place(at(base, i))),
        Form::Before(s, i) => front(at(base, s), place(at(base, i))),
        Form::Since(s, i) => back(at(base, s), place(at(base, i))),
        Form::After(s, i) => back(at(base, s), next_place(at(base, i))),
    }
}

// The value of the variable of this form that stands at this place.
#[tactic(auto, using(crate::proofs::Written::value_written))]
fn value_by_form<'a>(base: &[View<'a>], place_of_var: usize, form: Form) -> View<'a>
    ensures value { value_of result ≡ value_by_form (values_of base.now) place_of_var form }
    ensures written { All IsWritten (values_of base.now) → IsWritten (value_of result) }
{
    if is_base_form(form) {
        base_value(base, place_of_var)
    } else {
        derived_value(base, form)
    }
}

fn are_base_vars(vars: &[VarInfo]) -> bool
    ensures { result ≡ list_all (λ v. is_base_form v.form) vars.now }
{
    for var in vars {
        if !is_base_form(var.form) {
            return false;
        }
    }
    true
}

// Whether these are the values of all the variables: there are as many, and no variable is derived.
fn are_all_values(vars: &[VarInfo], base: &[View<'_>]) -> bool
    ensures { result ≡ true → values_by_form vars.now (values_of base.now) ≡ values_of base.now }
{
    vars.len() == base.len() && are_base_vars(vars)
}

/// The values of all variables in order, from those of the base variables, which stand first. Where no variable is derived, these are all.
///
/// Slices are parts of the base variables' sequences: no element is copied.
pub fn extend<'a>(
    arena: &'a Arena,
    vars: &[VarInfo],
    base: &'a [View<'a>],
) -> Result<&'a [View<'a>], NoMemory>
    ensures values { IfOk result (λ values. values_of values.now ≡ values_by_form vars.now (values_of base.now)) }
    ensures written { All IsWritten (values_of base.now) → IfOk result (λ values. All IsWritten (values_of values.now)) }
{
    if are_all_values(vars, base) {
        return Ok(base);
    }
    let mut values: Vec<View<'a>, &'a Arena> = Vec::with_capacity(arena, vars.len())?;
    for (place, var) in vars.iter().enumerate() {
        values.push(value_by_form(base, place, var.form))?;
    }
    Ok(into_bump_slice(values))
}
