// Random samples.
ghost use Rattle.std.specs.Prelude.{All, IfOk, IfSome};
ghost use Rattle.dk_base.specs.Values.{value_of, values_of};
ghost use Rattle.dk_base.specs.Values.Spelling.{IsWritten};

use crate::habits::{Draw, Habits};
use crate::noise::Noise;
use crate::texts::texts_of;
use dk_base::{Arena, Kind, List, NoMemory, VarInfo, View, parse_value};
use std::alloc::Global;

// The value that a text at this place writes.
fn value_at<'a>(arena: &'a Arena, kind: Kind, place: u8) -> Result<View<'a>, NoMemory>
    ensures { IfOk result (λ v. IsWritten (value_of v)) }
{
    let texts = texts_of(kind);
    match parse_value(arena, kind, texts[place as usize % 10].as_bytes()) {
        Ok(value) => Ok(value),
        Err(_) => Err(NoMemory),
    }
}

// The value at this place.
fn view_at<'a>(views: &[View<'a>], place: usize) -> Option<View<'a>>
    requires { All IsWritten (values_of views.now) }
    ensures { IfSome result (λ v. IsWritten (value_of v)) }
{
    if place < views.len() {
        return Some(views[place]);
    }
    None
}

// The value of some variable of the sample so far, if it is of this kind.
fn one_of<'a>(
    noise: &mut Noise,
    infos: &[VarInfo],
    sample: &[View<'a>],
    kind: Kind,
) -> Option<View<'a>>
    requires { All IsWritten (values_of sample.now) }
    ensures { IfSome result (λ v. IsWritten (value_of v)) }
{
    let place = noise.below(6) as usize;
    if place < infos.len() && infos[place].kind == kind {
        return view_at(sample, place);
    }
    None
}

// The next value of a variable of this kind, where it had one before, and another variable has one now.
fn value<'a>(
    arena: &'a Arena,
    noise: &mut Noise,
    habits: &Habits,
    kind: Kind,
    before: Option<View<'a>>,
    other: Option<View<'a>>,
) -> Result<View<'a>, NoMemory>
    requires before { IfSome before (λ v. IsWritten (value_of v)) }
    requires other { IfSome other (λ v. IsWritten (value_of v)) }
    ensures { IfOk result (λ v. IsWritten (value_of v)) }
{
    match habits.draw(noise) {
        Draw::Missing => Ok(View::Missing),
        Draw::Still => match before {
            Some(value) => Ok(value),
            None => value_at(arena, kind, 0),
        },
        Draw::Alike => match other {
            Some(value) => Ok(value),
            None => value_at(arena, kind, 1),
        },
        Draw::Text(place) => value_at(arena, kind, place),
    }
}

/// A sample of the variables that comes behind another one, or first.
pub fn sample<'a>(
    alloc: Global,
    arena: &'a Arena,
    noise: &mut Noise,
    habits: &Habits,
    infos: &[VarInfo],
    before: &[View<'a>],
) -> Result<List<View<'a>>, NoMemory>
    requires { All IsWritten (values_of before.now) }
    ensures { IfOk result (λ s. All IsWritten (values_of s)) }
{
    let mut sample = List::new(alloc);
    for (place, info) in infos.iter().enumerate() {
        let other = one_of(noise, infos, sample.as_slice(), info.kind);
        let last = view_at(before, place);
        sample.push(value(arena, noise, habits, info.kind, last, other)?)?;
    }
    Ok(sample)
}
