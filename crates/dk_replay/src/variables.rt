// Random variables.
ghost use Rattle.std.specs.Prelude.{◌↔◌, ◌<◌, IfOk, IsTrue, length};
ghost use Rattle.dk_base.specs.Shapes.{is_base_form};
ghost use Rattle.dk_engine.specs.Exact.{AreOfPoint};

use crate::noise::Noise;
use dk_base::{Compar, Form, Kind, List, NoMemory, Text, VarId, VarInfo};
use std::alloc::Global;

fn kind(noise: &mut Noise) -> Kind {
    match noise.below(12) {
        0 => Kind::Bool,
        1 => Kind::Hash,
        2 => Kind::Str,
        3 => Kind::BoolSeq,
        4 => Kind::HashSeq,
        5 => Kind::StrSeq,
        6..=8 => Kind::IntSeq,
        _ => Kind::Int,
    }
}

// One of this kind. The first ones are base ones, and those behind them derived.
fn variable(alloc: Global, kind: Kind, place: u8, bases: u8) -> VarInfo
    ensures { IsTrue (is_base_form result.form) ↔ (place < bases) }
{
    VarInfo {
        name: Text::new(alloc),
        kind,
        form: if place < bases {
            Form::Declared
        } else {
            Form::Size(VarId(0))
        },
        compar: Compar { elem: 0, index: 0 },
    }
}

/// One to six variables, of few kinds, derived ones behind base ones.
pub fn variables(alloc: Global, noise: &mut Noise) -> Result<List<VarInfo>, NoMemory>
    ensures point { IfOk result AreOfPoint }
    ensures some { IfOk result (λ vars. 0 < length vars) }
{
    let count = noise.below(6) + 1;
    let bases = count - noise.below(2).min(count);
    let mut vars = List::new(alloc);
    let mut last = kind(noise);
    for place in 0..count {
        if noise.below(3) == 0 {
            last = kind(noise);
        }
        vars.push(variable(alloc, last, place, bases))?;
    }
    Ok(vars)
}
