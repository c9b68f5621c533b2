// At most three whole numbers.
ghost use Rattle.std.specs.Prelude.{◌≡◌, ◌≤◌, ◌<◌, length, insert};

pub(crate) mod ints;
pub(crate) mod texts;

use smallvec::SmallVec;
use std::alloc::Global;
use std::marker::Model;

/// At most three whole numbers, which lie inline; contracts see them as a list.
#[derive(Debug, Drop)]
pub struct Few {
    items: SmallVec<i64, 3>,
}

impl Model for Few {
    ghost use Rattle.std.specs.Prelude.{List, ℤ, length, ◌≤◌};

    ghost Value = { List ℤ };

    ghost view = { λ f. f.items.items };

    ghost invariant = { λ f. (length f.items.items ≤ 3) × (3 ≤ f.items.capacity) };
}

impl Few {
    /// These numbers. It takes no memory.
    pub fn of(alloc: Global, items: &[i64]) -> Few
        requires { length items.now ≤ 3 }
        ensures { result ≡ items.now }
    {
        match SmallVec::from_slice(alloc, items) {
            Ok(items) => Few { items },
            Err(_) => unreachable!(),
        }
    }

    // With one number more at a place. It takes no memory.
    pub(crate) fn insert(mut self, at: usize, x: i64) -> Few
        requires room { length self < 3 }
        requires within { at ≤ length self }
        ensures { result ≡ insert self at x }
    {
        match self.items.insert(at, x) {
            Ok(()) => self,
            Err(_) => unreachable!(),
        }
    }

    /// The numbers, at most three, as they rise.
    pub fn as_slice(&self) -> &[i64]
        ensures items { result.now ≡ self.now }
        ensures few { length result.now ≤ 3 }
    {
        self.items.as_slice()
    }
}

impl PartialEq for Few {
    ghost use Rattle.std.specs.Ordering.{int_eq};
    ghost use Rattle.std.specs.Cmp.{partial_equiv_from_equiv};
    ghost use Rattle.std.specs.Cmp.Lexicographic.{pointwise};
    ghost use Rattle.std.proofs.lemmas.Cmp.{int_eq_equiv, lists_equiv};

    ghost eq = { pointwise int_eq };

    ghost laws = { partial_equiv_from_equiv (lists_equiv int_eq_equiv) };

    fn eq(&self, other: &Self) -> bool {
        self.as_slice() == other.as_slice()
    }
}

impl Eq for Few {
    ghost use Rattle.std.proofs.lemmas.Cmp.{int_eq_equiv, lists_equiv};

    ghost laws = { lists_equiv int_eq_equiv };
}
