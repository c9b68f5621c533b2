// What a bitmap tells of each pattern.
ghost use Rattle.std.specs.Prelude.{◌≡◌};
ghost use Rattle.dk_bitmaps.specs.Bitmaps.{is_marked, is_one_at};
ghost use Rattle.dk_presence.specs.Patterns.{has};
ghost use Rattle.dk_samples.specs.Leaders.{VarsAscend};

use dk_base::VarId;
use dk_presence::{Held, contains};

/// Something that holds of a pattern or not.
#[derive(Clone, Copy)]
pub(crate) enum Mark {
    /// It has the leader.
    Leader(VarId),
    /// Its count has the binary digit 1 at this place, counted from 0 at the last digit.
    Digit(u32),
}

// Whether the number has the binary digit 1 at the place.
fn is_one_at(place: u32, number: u64) -> bool
    ensures { result ≡ is_one_at place number }
{
    match number.checked_shr(place) {
        Some(rest) => rest % 2 == 1,
        None => false,
    }
}

/// Whether the mark holds of the pattern.
pub(crate) fn is_marked(mark: Mark, pattern: &Held) -> bool
    requires { VarsAscend pattern.now.leaders }
    ensures { result ≡ is_marked mark pattern.now }
{
    match mark {
        Mark::Leader(v) => contains(pattern.leaders.as_slice(), v),
        Mark::Digit(place) => is_one_at(place, pattern.count),
    }
}
