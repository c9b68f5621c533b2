// The steps by which a sample is added to known values.
ghost use Rattle.std.specs.Prelude.{◌≡◌, ◌≢◌, ◌↔◌, [], ◌∷◌, All, IfOk, IsTrue, None};
ghost use Rattle.std.specs.List.{AllPairs};
ghost use Rattle.std.specs.Option.{option_or};
ghost use Rattle.dk_base.specs.Values.{values_of};
ghost use Rattle.dk_samples.specs.Samples.{value_in};
ghost use Rattle.dk_constants.specs.Constants.{AreFed};
ghost use Rattle.dk_constants.specs.Known.{EntriesAscend, IsParted, born_of, born_one, known_at};

use crate::kept::shows;
use crate::places::{find, search};
use dk_base::{List, NoMemory, Value, VarId, View};
use dk_samples::value_at;
use std::alloc::Global;

/// Whether the sample has each of these values.
pub(crate) fn are_still(known: &[(VarId, Value)], sample: &[View<'_>]) -> bool
    ensures { IsTrue result ↔ All (λ k. value_in (values_of sample.now) k.0 ≡ k.1) known.now }
{
    for (v, value) in known {
        if !shows(value_at(sample, *v), value) {
            return false;
        }
    }
    true
}

// A new leader with the value of its old one, if that is known.
fn entry_born(
    alloc: Global,
    known: &[(VarId, Value)],
    leader: VarId,
    old: VarId,
) -> Result<Option<(VarId, Value)>, NoMemory>
    requires { EntriesAscend known.now }
    ensures { IfOk result (λ entry. entry ≡ born_one known.now (leader, old)) }
{
    match find(known, old) {
        Some(value) => Ok(Some((leader, value.copy(alloc)?))),
        None => Ok(None),
    }
}

/// The new leaders of which the old one is known, each with that one's value.
pub(crate) fn values_born(
    alloc: Global,
    known: &[(VarId, Value)],
    new: &[(VarId, VarId)],
) -> Result<Vec<(VarId, Value)>, NoMemory>
    requires { EntriesAscend known.now }
    ensures { IfOk result (λ born. born.items ≡ born_of known.now new.now) }
{
    let mut born = Vec::new(alloc);
    for (leader, old) in new {
        if let Some(entry) = entry_born(alloc, known, *leader, *old)? {
            born.push(entry)?;
        }
    }
    Ok(born)
}

// With one entry more, if its variable isn't known.
fn with_entry(
    known: Vec<(VarId, Value)>,
    entry: (VarId, Value),
) -> Result<Vec<(VarId, Value)>, NoMemory>
    requires { EntriesAscend known.items }
    ensures ascend { IfOk result (λ more. EntriesAscend more.items) }
    ensures known { IfOk result (λ more. (v : VarId) → known_at more.items v ≡ option_or (known_at known.items v) (known_at (entry ∷ []) v)) }
{
    match search(known.as_slice(), entry.0) {
        Ok(_) => Ok(known),
        Err(place) => {
            let mut more = known;
            more.insert(place, entry)?;
            Ok(more)
        }
    }
}

/// With more entries. A variable that is known keeps its value.
pub(crate) fn with_entries(
    known: Vec<(VarId, Value)>,
    entries: Vec<(VarId, Value)>,
) -> Result<Vec<(VarId, Value)>, NoMemory>
    requires { EntriesAscend known.items }
    ensures ascend { IfOk result (λ more. EntriesAscend more.items) }
    ensures known { IfOk result (λ more. (v : VarId) → known_at more.items v ≡ option_or (known_at known.items v) (known_at entries.items v)) }
{
    let mut more = known;
    for entry in entries {
        more = with_entry(more, entry)?;
    }
    Ok(more)
}

/// The entries whose value the sample has, and the others.
pub(crate) fn split_constants(
    alloc: Global,
    known: Vec<(VarId, Value)>,
    sample: &[View<'_>],
) -> Result<(Vec<(VarId, Value)>, List<(VarId, Value)>), NoMemory>
    ensures { IfOk result (λ r. IsParted (λ k. value_in (values_of sample.now) k.0 ≡ k.1) (λ k. value_in (values_of sample.now) k.0 ≢ k.1) known.items r.0.items r.1) }
{
    let mut still = Vec::new(alloc);
    let mut over = List::new(alloc);
    for (v, value) in known {
        if shows(value_at(sample, v), &value) {
            still.push((v, value))?;
        } else {
            over.push((v, value))?;
        }
    }
    Ok((still, over))
}

/// The known values that the sample still has, and those that ended, with those of new leaders.
pub(crate) fn feed_constants(
    alloc: Global,
    known: Vec<(VarId, Value)>,
    new: &[(VarId, VarId)],
    sample: &[View<'_>],
) -> Result<(Vec<(VarId, Value)>, List<(VarId, Value)>), NoMemory>
    requires ascend { EntriesAscend known.items }
    requires differ { AllPairs (λ m n. m.0.0 ≢ n.0.0) new.now }
    requires unknown { All (λ n. known_at known.items n.0 ≡ None) new.now }
    ensures { IfOk result (λ r. AreFed known.items new.now (values_of sample.now) r.0.items r.1) }
{
    let born = values_born(alloc, known.as_slice(), new)?;
    if born.is_empty() && are_still(known.as_slice(), sample) {
        return Ok((known, List::new(alloc)));
    }
    let all = with_entries(known, born)?;
    let (still, ended) = split_constants(alloc, all, sample)?;
    Ok((still, ended))
}
