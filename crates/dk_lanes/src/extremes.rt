// The least and the greatest number of a sequence. The compiler makes vectors of the plain loop.
ghost use Rattle.std.specs.Prelude.{◌≡◌, ◌≤ℤ◌, All, Contains, IfSome, fold};
ghost use Rattle.std.specs.Int.{int_max, int_min};
ghost use Rattle.dk_lanes.specs.Bounds.{bounds_of};

// The least and the greatest of the first number and of the rest.
#[inline(always)]
fn least_and_greatest(first: i64, rest: &[i64]) -> (i64, i64)
    ensures least { result.0 ≡ fold int_min first rest.now }
    ensures greatest { result.1 ≡ fold int_max first rest.now }
{
    let mut least = first;
    let mut greatest = first;
    for x in rest {
        least = least.min(*x);
        greatest = greatest.max(*x);
    }
    (least, greatest)
}

#[inline(always)]
fn bounds_found(s: &[i64]) -> Option<(i64, i64)>
    ensures { result ≡ bounds_of s.now }
{
    match s {
        [] => None,
        [first, ..] => Some(least_and_greatest(*first, s)),
    }
}

/// The least and the greatest element; `None` exactly where there is no element.
pub fn bounds(s: &[i64]) -> Option<(i64, i64)>
    ensures value { result ≡ bounds_of s.now }
    ensures least { IfSome result (λ b. Contains s.now b.0 × All (λ x. b.0 ≤ℤ x) s.now) }
    ensures greatest { IfSome result (λ b. Contains s.now b.1 × All (λ x. x ≤ℤ b.1) s.now) }
{
    bounds_found(s)
}
