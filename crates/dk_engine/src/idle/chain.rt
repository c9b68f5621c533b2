// Variables whose numbers rise, each greater than the one before it: one walk over them tells of all their comparisons.
ghost use Rattle.std.specs.Prelude.{◌≡◌, true, IsTrue, None};
ghost use Rattle.dk_base.specs.Values.{value_of, values_of};
ghost use Rattle.dk_samples.specs.Samples.{value_in};
ghost use Rattle.dk_engine.specs.Idle.{are_in_order, are_rising, is_over, last_with, rises};

use crate::Slot;
use crate::feed::operations::number_at;
use crate::feed::staying::holds;
use crate::idle::noted::{note_place, place_of};
use crate::saved::mapping::stands_at;
use dk_base::{NoMemory, VarId, View};
use dk_samples::value_at;
use dk_template::rows;
use std::alloc::Global;

// Whether a number is greater than the last one, if there is one.
#[inline(always)]
fn is_over(last: Option<i64>, x: i64) -> bool
    ensures { result ≡ is_over last x }
{
    match last {
        Some(y) => y < x,
        None => true,
    }
}

// Whether a value is such a number, or missing.
#[inline(always)]
fn rises(last: Option<i64>, value: View<'_>) -> bool
    ensures { result ≡ rises last (value_of value.entry) }
{
    if let View::Int(x) = value {
        return is_over(last, x);
    }
    matches!(value, View::Missing)
}

// The last number, with a value more.
#[inline(always)]
fn last_with(last: Option<i64>, value: View<'_>) -> Option<i64>
    ensures { result ≡ last_with last (value_of value.entry) }
{
    match value {
        View::Int(x) => Some(x),
        _ => last,
    }
}

// Whether a variable's value in a sample is such a number or missing, where it mostly is no number.
#[cold]
#[inline(never)]
fn rises_or_missing(sample: &[View<'_>], v: VarId, last: Option<i64>) -> bool
    ensures { result ≡ rises last (value_in (values_of sample.now) v) }
{
    rises(last, value_at(sample, v))
}

// Whether it is, where it mostly is a number.
#[inline(always)]
fn goes_on(sample: &[View<'_>], v: VarId, last: Option<i64>) -> bool
    ensures { result ≡ rises last (value_in (values_of sample.now) v) }
{
    match number_at(sample, v) {
        Some(x) => is_over(last, x),
        None => rises_or_missing(sample, v, last),
    }
}

/// Whether each of the variables has a greater number in a sample than the one before it that has one, or is missing.
pub(crate) fn are_rising(sample: &[View<'_>], rising: &[VarId]) -> bool
    ensures { result ≡ are_rising (values_of sample.now) None rising.now }
{
    let mut last = None;
    for v in rising {
        if !goes_on(sample, *v, last) {
            return false;
        }
        last = last_with(last, value_at(sample, *v));
    }
    true
}

/// Variables in the order in which their numbers rise, and by a variable's number at which place it stands among them.
#[derive(Drop)]
pub(crate) struct Chain {
    pub(crate) vars: Vec<VarId>,
    pub(crate) places: Vec<usize>,
}

/// Whether the first variable is seen to be listed before the second.
pub(crate) fn are_in_order(rising: &[VarId], places: &[usize], u: VarId, v: VarId) -> bool
    ensures { IsTrue result → are_in_order rising.now u v ≡ true }
{
    let first = place_of(places, u);
    let second = place_of(places, v);
    if second <= first {
        return false;
    }
    stands_at(rising, first, u) && stands_at(rising, second, v)
}

// The two variables of which a slot says that the first's number is less.
fn less_in(slot: &Slot) -> Option<(VarId, VarId)> {
    if slot.row.0 != rows::LT || !holds(&slot.state) {
        return None;
    }
    match slot.leaders.as_slice() {
        [u, v] => Some((*u, *v)),
        _ => None,
    }
}

impl Chain {
    // No variables. It takes no memory.
    fn none(alloc: Global) -> Chain {
        Chain {
            vars: Vec::new(alloc),
            places: Vec::new(alloc),
        }
    }

    // With one of two variables, of which the first has the lesser number, if the other stands at the end next to it.
    fn add(&mut self, u: VarId, v: VarId) -> Result<(), NoMemory> {
        match self.vars.as_slice() {
            [first, .., last] => {
                if *last == u {
                    self.vars.push(v)?;
                } else if *first == v {
                    self.vars.insert(0, u)?;
                }
            }
            _ => {
                self.vars.push(u)?;
                self.vars.push(v)?;
            }
        }
        Ok(())
    }

    // Notes at which place each of the variables stands.
    fn note_places(&mut self) -> Result<(), NoMemory> {
        for place in 0..self.vars.len() {
            note_place(&mut self.places, self.vars[place], place)?;
        }
        Ok(())
    }

    /// Variables whose numbers rise, as slots say.
    pub(crate) fn of(alloc: Global, slots: &[Slot]) -> Result<Chain, NoMemory> {
        let mut chain = Chain::none(alloc);
        for slot in slots {
            if let Some((u, v)) = less_in(slot) {
                chain.add(u, v)?;
            }
        }
        chain.note_places()?;
        Ok(chain)
    }
}
