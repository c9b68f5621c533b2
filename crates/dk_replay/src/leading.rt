// Leaders and constants, worked out over the whole list of samples.
ghost use Rattle.std.specs.Prelude.{◌<◌, length};

use crate::listed::Listed;
use dk_base::{List, NoMemory, VarId, View, same};
use dk_samples::value_at;
use dk_template::Answers;

/// The leaders, and those of them that are constant, both ascending.
#[derive(Drop)]
pub struct Leading {
    pub leaders: List<VarId>,
    pub constants: List<VarId>,
}

/// Whether the variable is one of these.
pub fn is_one_of(v: VarId, vars: &[VarId]) -> bool {
    for w in vars {
        if v == *w {
            return true;
        }
    }
    false
}

/// Whether each of the variables is one of the others.
pub fn are_of(vars: &[VarId], others: &[VarId]) -> bool {
    for v in vars {
        if !is_one_of(*v, others) {
            return false;
        }
    }
    true
}

// The leader of a variable: the first that agrees with it.
fn leader_of(listed: &Listed<'_, '_>, v: VarId) -> VarId
    requires { v.0 < length listed.now.infos }
{
    for w in 0..v.0 {
        if listed.agree(VarId(w), v) {
            return VarId(w);
        }
    }
    v
}

// Whether the variable has this value in all samples.
fn is_constant(samples: &[List<View<'_>>], v: VarId, value: View<'_>) -> bool {
    for sample in samples {
        if !same(value_at(sample.as_slice(), v), value) {
            return false;
        }
    }
    true
}

fn leaders(listed: &Listed<'_, '_>) -> Result<List<VarId>, NoMemory> {
    let mut leaders = List::new(listed.alloc());
    for v in 0..listed.count_vars() {
        if leader_of(listed, VarId(v)) == VarId(v) {
            leaders.push(VarId(v))?;
        }
    }
    Ok(leaders)
}

// Of no samples there are none.
fn constants(listed: &Listed<'_, '_>, leaders: &[VarId]) -> Result<List<VarId>, NoMemory> {
    let mut constants = List::new(listed.alloc());
    let Some(first) = listed.samples().first() else {
        return Ok(constants);
    };
    for v in leaders {
        if is_constant(listed.samples(), *v, value_at(first.as_slice(), *v)) {
            constants.push(*v)?;
        }
    }
    Ok(constants)
}

/// The leaders of all samples, and the constants.
pub fn leading_of(listed: &Listed<'_, '_>) -> Result<Leading, NoMemory> {
    let leaders = leaders(listed)?;
    let constants = constants(listed, leaders.as_slice())?;
    Ok(Leading { leaders, constants })
}
