// At which place of a list each variable stands, as far as it is noted. Nothing is said of what is noted: who uses a place looks whether it
// is right.
use dk_base::{NoMemory, VarId};

/// The place that is noted for a variable; where none is, 0.
pub(crate) fn place_of(places: &[usize], v: VarId) -> usize {
    match places.get(v.0 as usize) {
        Some(place) => *place,
        None => 0,
    }
}

/// A place is noted for a variable.
pub(crate) fn note_place(places: &mut Vec<usize>, v: VarId, place: usize) -> Result<(), NoMemory> {
    let number = v.0 as usize;
    for _ in places.len()..number + 1 {
        places.push(0)?;
    }
    if let Some(noted) = places.get_mut(number) {
        *noted = place;
    }
    Ok(())
}
