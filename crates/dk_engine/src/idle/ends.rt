// Where the slots of a row end, noted for each place. Nothing is said of the notes: who uses one looks whether it is right.
ghost use Rattle.std.specs.Prelude.{◌<◌, length};

use crate::Slot;
use crate::idle::skip_at;
use dk_base::NoMemory;
use std::alloc::Global;

/// How many slots of a row are taken together, so that the changes are counted before there are too many.
pub(crate) const REACH: usize = 512;

// The end, or the place as far as slots are taken together, if the end lies beyond.
fn nearer(place: usize, end: usize) -> usize {
    if end <= place || end - place <= REACH {
        end
    } else {
        place + REACH
    }
}

// Where the slots of a place's row end, by what is noted for the next place.
fn end_at(ends: &[usize], slots: &[Slot], place: usize) -> usize
    requires { place < length slots.now }
{
    let next = place + 1;
    match slots.get(next) {
        Some(slot) => {
            if slot.row.0 == slots[place].row.0 {
                nearer(place, skip_at(ends, next))
            } else {
                next
            }
        }
        None => next,
    }
}

// Notes where the stretch in the slot at this place ends.
fn note_end(ends: &mut [usize], slots: &[Slot], place: usize)
    requires { place < length slots.now }
{
    let end = end_at(ends, slots, place);
    if let Some(noted) = ends.get_mut(place) {
        *noted = end;
    }
}

/// Where the slots of each place's row end, or as far as they are taken together.
pub(crate) fn ends_of(alloc: Global, slots: &[Slot]) -> Result<Vec<usize>, NoMemory> {
    let mut ends = vec![in alloc; 0; slots.len()]?;
    for behind in 0..slots.len() {
        note_end(ends.as_mut_slice(), slots, slots.len() - 1 - behind);
    }
    Ok(ends)
}
