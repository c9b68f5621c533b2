// The constant leaders of both engines.
ghost use Rattle.std.specs.Prelude.{◌≡◌, ◌<◌, ◌++◌, ◌∷◌, [], All, IfOk, length, option_copied};
ghost use Rattle.dk_base.specs.declared.kinds.VarId.{VarId};
ghost use Rattle.dk_constants.specs.Known.{known_at};
ghost use Rattle.dk_engine.specs.Reading.Parts.{all_known, leader_of};
ghost use Rattle.dk_join.specs.Joined.{common_value, joined_known, known_in_both};

use dk_base::{List, NoMemory, Value, VarId, same_kept};
use dk_constants::Constants;
use dk_engine::Engine;
use std::alloc::Global;

// The value that is known in both, if it is one.
fn common_value<'a>(first: Option<&'a Value>, second: Option<&'a Value>) -> Option<&'a Value>
    ensures { option_copied result ≡ common_value (option_copied first.entry) (option_copied second.entry) }
{
    match first {
        Some(x) => match second {
            Some(y) => { if same_kept(x, y) { Some(x) } else { None } }
            None => None,
        },
        None => None,
    }
}

/// What is known of a variable's leader.
pub(crate) fn known_of(engine: &Engine, v: VarId) -> Option<&Value>
    requires { v.0 < length engine.now.kept.leaders }
    ensures { option_copied result ≡ known_at engine.now.kept.known (leader_of engine.now.kept.leaders v) }
{
    engine.constants().value(engine.classes().leader(v))
}

// What is known of a leader in both.
fn known_in_both<'a>(first: &'a Engine, second: &'a Engine, v: VarId) -> Option<&'a Value>
    requires first { v.0 < length first.now.kept.leaders }
    requires second { v.0 < length second.now.kept.leaders }
    ensures { option_copied result ≡ known_in_both first.now.kept second.now.kept v }
{
    common_value(known_of(first, v), known_of(second, v))
}

// The constants with one leader more, if it is constant in both with one value.
fn with_leader(
    alloc: Global,
    first: &Engine,
    second: &Engine,
    v: VarId,
    known: List<(VarId, Value)>,
) -> Result<List<(VarId, Value)>, NoMemory>
    requires first { v.0 < length first.now.kept.leaders }
    requires second { v.0 < length second.now.kept.leaders }
    ensures { IfOk result (λ more. more ≡ known ++ joined_known first.now.kept second.now.kept (v ∷ [])) }
{
    match known_in_both(first, second, v) {
        None => Ok(known),
        Some(value) => {
            let mut known = known;
            known.push((v, value.copy(alloc)?))?;
            Ok(known)
        }
    }
}

/// The constant ones of these leaders, each with its value.
pub(crate) fn joined_known(
    alloc: Global,
    first: &Engine,
    second: &Engine,
    leaders: &[VarId],
) -> Result<List<(VarId, Value)>, NoMemory>
    requires first { All (λ (v : VarId). v.0 < length first.now.kept.leaders) leaders.now }
    requires second { All (λ (v : VarId). v.0 < length second.now.kept.leaders) leaders.now }
    ensures { IfOk result (λ known. known ≡ joined_known first.now.kept second.now.kept leaders.now) }
{
    let mut known = List::new(alloc);
    for v in leaders {
        known = with_leader(alloc, first, second, *v, known)?;
    }
    Ok(known)
}

/// Whether each of the leaders is constant.
pub(crate) fn are_known(known: &Constants, vars: &[VarId]) -> bool
    ensures { result ≡ all_known known.now vars.now }
{
    for v in vars {
        if known.value(*v).is_none() {
            return false;
        }
    }
    true
}
