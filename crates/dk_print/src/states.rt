// What a state has to tell. Where it is of another form, each number is 0.
ghost use Rattle.std.specs.Prelude.{◌≡◌, pos, slice_index_or};
ghost use Rattle.dk_print.specs.Parts.{bound_in, code_in, constant_term_in, factor_at, modulus_in, offset_in, remainder_in};

use dk_template::State;

/// The least or the greatest number.
pub(crate) fn bound_in(state: &State) -> i64
    ensures { result ≡ bound_in state.now }
{
    match state {
        State::Least(bound) | State::Greatest(bound) => *bound,
        _ => 0,
    }
}

/// The hash code that the state holds.
pub(crate) fn code_in(state: &State) -> u64
    ensures { result ≡ code_in state.now }
{
    match state {
        State::Code(code) => *code,
        _ => 0,
    }
}

/// The modulus that the state holds.
pub(crate) fn modulus_in(state: &State) -> u64
    ensures { result ≡ modulus_in state.now }
{
    match state {
        State::Modulus { m, .. } => *m,
        _ => 0,
    }
}

/// The remainder of a modulus.
pub(crate) fn remainder_in(state: &State) -> u64
    ensures { result ≡ remainder_in state.now }
{
    match state {
        State::Modulus { r, .. } => *r,
        _ => 0,
    }
}

/// The offset that the state holds.
pub(crate) fn offset_in(state: &State) -> i128
    ensures { result ≡ offset_in state.now }
{
    match state {
        State::Offset { k } => *k,
        _ => 0,
    }
}

/// The constant of a line or a plane.
pub(crate) fn constant_in(state: &State) -> i128
    ensures { result ≡ constant_term_in state.now }
{
    match state {
        State::Straight { c, .. } => *c,
        State::Plane { d, .. } => *d,
        _ => 0,
    }
}

// The factor at a role, or 0 behind the last.
fn factor_of(factors: &[i128], role: usize) -> i128
    ensures { result ≡ slice_index_or factors.now role (pos 0) }
{
    factors.get(role).copied().unwrap_or(0)
}

/// The factor of the variable at this role, in a line or a plane.
pub(crate) fn factor_at(state: &State, role: usize) -> i128
    ensures { result ≡ factor_at state.now role }
{
    match state {
        State::Straight { a, b, .. } => factor_of(&[*a, *b], role),
        State::Plane { a, b, c, .. } => factor_of(&[*a, *b, *c], role),
        _ => 0,
    }
}
