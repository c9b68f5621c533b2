// Entries of one form, one after another.
ghost use Rattle.std.specs.Prelude.{◌≡◌, ◌++◌, ◌-◌, ◌<◌, ◌≤◌, ℕ, true, false, All, Bool, IfOk, IsTrue, List, flat_map, length};
ghost use Rattle.dk_base.specs.declared.kinds.VarInfo.{VarInfo};

use crate::front::Front;
use dk_base::{List, NoMemory, VarInfo};
use std::alloc::Global;

/// What stands in lines or in fields of its own, as many as come one after another.
pub(crate) trait Entry: Drop {
    // how it is saved, which ones can be read where these are the point's variables, what holds of each that is read, what tells that one
    // comes next, and what may follow
    ghost text_of: { Self → List ℕ };

    ghost fits: { List VarInfo → Self → Type 0 };

    ghost within: { Self → Type 0 };

    ghost begins: { List ℕ → Bool };

    ghost follows: { List ℕ → Type 0 };

    /// Whether one comes next.
    fn is_next(front: &Front<'_>) -> bool
        ensures begins { result ≡ begins front.now }
        ensures some { IsTrue result → 0 < length front.now };

    /// The one that comes next.
    fn read(alloc: Global, vars: &[VarInfo], front: &mut Front<'_>) -> Result<Self, NoMemory>
        ensures read { (x : Self) (rest : List ℕ) → fits vars.now x → follows rest → front.old ≡ text_of x ++ rest → IfOk result (λ own. (own ≡ x) × (front.new ≡ rest)) }
        ensures within { IfOk result within }
        ensures shorter { length front.new ≤ length front.old - 1 };

    ghost first: { (vars : List VarInfo) (x : Self) (rest : List ℕ) → fits vars x → begins (text_of x ++ rest) ≡ true };

    ghost follow: { (vars : List VarInfo) (x : Self) (rest : List ℕ) → fits vars x → follows (text_of x ++ rest) };
}

/// All that come, one after another.
pub(crate) fn read_all<T: Entry>(
    alloc: Global,
    vars: &[VarInfo],
    front: &mut Front<'_>,
) -> Result<List<T>, NoMemory>
    ensures read { (xs : List T) (rest : List ℕ) → All (T.fits vars.now) xs → T.begins rest ≡ false → T.follows rest → front.old ≡ flat_map T.text_of xs ++ rest → IfOk result (λ own. (own ≡ xs) × (front.new ≡ rest)) }
    ensures within { IfOk result (All T.within) }
    ensures shorter { length front.new ≤ length front.old }
{
    let mut all = List::new(alloc);
    'entries: while T::is_next(front) {
        let entry = T::read(alloc, vars, front)?;
        all.push(entry)?;
    }
    Ok(all)
}
