// How many tuples a step would look at.
ghost use Rattle.std.specs.Prelude.{◌<◌, All, length};

use crate::sweeps::reaching::rows_reached;
use crate::sweeps::touching::touches;
use crate::{Now, Slot};
use dk_base::{Kind, VarId, VarInfo};
use dk_template::{Role, suits};

// The rows of two numbers, which may be derived, and those of three base numbers.
const PAIR_ROWS: u64 = 5;

const WIDE_ROWS: u64 = 12;

// So many times a number.
fn times(n: u64, m: u64) -> u64 {
    n.saturating_mul(m)
}

// How many leaders there are, how many of them are numbers, and how many of these are base ones.
#[derive(Clone, Copy)]
struct Sizes {
    leaders: u64,
    numbers: u64,
    base: u64,
}

impl Sizes {
    // The sizes of no leaders.
    fn none() -> Sizes {
        Sizes {
            leaders: 0,
            numbers: 0,
            base: 0,
        }
    }

    // With one leader more.
    fn with(self, infos: &[VarInfo], v: VarId) -> Sizes {
        let number = u64::from(suits(Role::Any(Kind::Int), infos, v));
        let base = u64::from(suits(Role::Base(Kind::Int), infos, v));
        Sizes {
            leaders: self.leaders.saturating_add(1),
            numbers: self.numbers.saturating_add(number),
            base: self.base.saturating_add(base),
        }
    }

    // About how many tuples are over them.
    fn tuples(self) -> u64 {
        let pairs = times(PAIR_ROWS, times(self.numbers, self.numbers));
        let threes = times(WIDE_ROWS, times(self.base, times(self.base, self.base)));
        times(self.leaders, self.leaders)
            .saturating_add(pairs)
            .saturating_add(threes)
    }
}

// How many of these leaders are of each kind.
fn sizes_of(infos: &[VarInfo], leaders: &[VarId]) -> Sizes {
    let mut sizes = Sizes::none();
    for v in leaders {
        sizes = sizes.with(infos, *v);
    }
    sizes
}

// Of those that touch no tuple.
fn untouched_sizes(infos: &[VarInfo], now: &Now) -> Sizes {
    let mut sizes = Sizes::none();
    for v in now.leaders.leaders() {
        if !touches(now, *v) {
            sizes = sizes.with(infos, *v);
        }
    }
    sizes
}

// About how many tuples a lost slot frees, of leaders of which so many are numbers.
fn freed_count(infos: &[VarInfo], slot: &Slot, of: Sizes) -> u64 {
    let rows = rows_reached(slot.row).len() as u64;
    let own = sizes_of(infos, slot.leaders.as_slice());
    let wide = times(3, times(own.base, of.base));
    if own.leaders == 1 {
        let pairs = times(2, of.numbers);
        times(rows, pairs.saturating_add(times(wide, of.base)))
    } else {
        times(rows, wide.saturating_add(2))
    }
}

// About how many the lost slots free.
fn freed_counts(infos: &[VarInfo], slots: &[Slot], lost: &[usize], of: Sizes) -> u64
    requires { All (λ k. k < length slots.now) lost.now }
{
    let mut all = 0u64;
    for place in lost {
        all = all.saturating_add(freed_count(infos, &slots[*place], of));
    }
    all
}

/// Whether the tuples that lost slots free are about as many as those that are left untouched, so that all may as well be looked at.
pub(crate) fn are_many(infos: &[VarInfo], now: &Now, slots: &[Slot], lost: &[usize]) -> bool
    requires { All (λ k. k < length slots.now) lost.now }
{
    let of = sizes_of(infos, now.leaders.leaders());
    freed_counts(infos, slots, lost, of) >= untouched_sizes(infos, now).tuples()
}
