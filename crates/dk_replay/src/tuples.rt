// Tuples of variables, in order.
ghost use Rattle.std.specs.Prelude.{◌<◌, All};

use dk_base::VarId;
use dk_template::Tuple;

/// How many tuples of so many of the variables there are.
pub fn tuples(count: u32, arity: u8) -> u32 {
    match arity {
        0 => 1,
        1 => count,
        2 => count.saturating_mul(count),
        _ => count.saturating_mul(count).saturating_mul(count),
    }
}

/// The tuple of so many of the variables at this place of all, by the first variable, then by the second, then by the third.
pub fn tuple_at(count: u32, arity: u8, place: u32) -> Tuple
    requires { 0 < count }
    ensures { All (λ v. v.0 < count) result }
{
    let last = VarId(place % count);
    let middle = VarId(place / count % count);
    let first = VarId(place / count / count % count);
    match arity {
        0 => Tuple::of(&[]),
        1 => Tuple::of(&[last]),
        2 => Tuple::of(&[middle, last]),
        _ => Tuple::of(&[first, middle, last]),
    }
}
