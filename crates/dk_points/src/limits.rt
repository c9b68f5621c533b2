// How many variables a point has.
ghost use Rattle.std.specs.Prelude.{◌≡◌, ◌≤◌, ◌||◌, ◌+◌, ◌*◌, ◌^◌, length, map, nat_lt};
ghost use Rattle.dk_base.specs.Shapes.{is_int, is_orig, is_sequence, shape_of, with_derived};
ghost use Rattle.dk_points.specs.Counts.{number_of_ints, number_of_sequences};

use crate::partners::is_orig;
use dk_base::{Kind, VarInfo};

/// Whether values of the kind are sequences.
pub fn is_sequence(kind: Kind) -> bool
    ensures { result ≡ is_sequence kind }
{
    match kind {
        Kind::BoolSeq => true,
        Kind::IntSeq => true,
        Kind::HashSeq => true,
        Kind::StrSeq => true,
        _ => false,
    }
}

/// Whether it is the kind of whole numbers.
pub fn is_int(kind: Kind) -> bool
    ensures { result ≡ is_int kind }
{
    match kind {
        Kind::Int => true,
        _ => false,
    }
}

// How many sequences there are, orig ones or others.
fn number_of_sequences(vars: &[VarInfo], orig: bool) -> u64
    ensures number { result ≡ number_of_sequences orig vars.now }
    ensures within { result ≤ length vars.now }
{
    let mut number = 0;
    for var in vars {
        if is_sequence(var.kind) && is_orig(var.form) == orig {
            number += 1;
        }
    }
    number
}

// How many whole numbers there are, orig ones or others.
fn number_of_ints(vars: &[VarInfo], orig: bool) -> u64
    ensures number { result ≡ number_of_ints orig vars.now }
    ensures within { result ≤ length vars.now }
{
    let mut number = 0;
    for var in vars {
        if is_int(var.kind) && is_orig(var.form) == orig {
            number += 1;
        }
    }
    number
}

// How many variables q sequences and n whole numbers give: for each sequence three, and five for each number.
fn number_of_derived(vars: &[VarInfo], orig: bool) -> u64
    requires { length vars.now ≤ 16384 }
    ensures number { result ≡ 3 * number_of_sequences orig vars.now + 5 * (number_of_sequences orig vars.now * number_of_ints orig vars.now) }
    ensures within { result ≤ 2 ^ 40 }
{
    let sequences = number_of_sequences(vars, orig);
    let ints = number_of_ints(vars, orig);
    3 * sequences + 5 * (sequences * ints)
}

/// Whether there are more declared variables than a point may have, or more of these base variables and those derived from them.
pub(crate) fn has_many_vars(declared: usize, vars: &[VarInfo]) -> bool
    ensures { result ≡ (nat_lt 1024 declared || nat_lt 16384 (length (with_derived (map shape_of vars.now)))) }
{
    if declared > 1024 || vars.len() > 16384 {
        return true;
    }
    vars.len() as u64 + number_of_derived(vars, false) + number_of_derived(vars, true) > 16384
}
