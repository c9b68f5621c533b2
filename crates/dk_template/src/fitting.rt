// Which states fit.
ghost use Rattle.std.specs.Prelude.{◌≡◌};
ghost use Rattle.dk_template.specs.Fitting.{fits as is_fitting};

use crate::State;

/// Whether the state says something of all tuples, so that the instance holds. Empty and Broken don't, and neither do one value as
/// a modulus, one point, a span, a line or plane in which a variable has no part, and the offset 0.
pub fn fits(state: &State) -> bool
    ensures { result ≡ is_fitting state.now }
{
    match state {
        State::Empty | State::Broken | State::One(_) | State::Spot { .. } | State::Span { .. } =>
            false,
        State::Holds
        | State::Least(_)
        | State::Greatest(_)
        | State::Ints(_)
        | State::Truth(_)
        | State::Code(_)
        | State::Texts(_)
        | State::Modulus { .. } => true,
        State::Straight { a, b, .. } => *a != 0 && *b != 0,
        State::Plane { a, b, c, .. } => *a != 0 && *b != 0 && *c != 0,
        State::Offset { k } => *k != 0,
    }
}
