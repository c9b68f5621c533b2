// Ways by the ranks of the points that they lead to.
ghost use Rattle.std.specs.Prelude.{◌≡◌, ◌∷◌, ◌++◌, [], IfOk, IfSome, IfNone, OnOk};
ghost use Rattle.std.specs.BTreeMap.{is_at};
ghost use Rattle.std.specs.List.Sorted.{IsStrictlySortedBy};
ghost use Rattle.std.specs.Map.{keys_of, remove_entry};
ghost use Rattle.std.specs.Ordering.{nat_cmp};
ghost use Rattle.dk_hierarchy.specs.Descent.{AreBelow, first_way, ways_at, with_way_at};
ghost use Rattle.dk_hierarchy.specs.Ways.{same_way, with_way};

use crate::Way;
use crate::composing::own_partners;
use dk_base::{List, NoMemory, PointId};
use std::alloc::Global;
use std::collections::BTreeMap;
use std::marker::Model;

// Whether two ways lead to one point with the same partners.
fn same_way(a: &Way, b: &Way) -> bool
    ensures { result ≡ same_way a.now b.now }
{
    a.point.0 == b.point.0 && a.partners == b.partners
}

// The ways and one more: where one of them leads to the same point with the same partners, that one has its paths too.
fn with_way(ways: List<Way>, way: Way) -> Result<List<Way>, NoMemory>
    ensures { IfOk result (λ all. all ≡ with_way ways way) }
{
    let mut all = ways.into_vec();
    for i in 0..all.len() {
        if same_way(&all[i], &way) {
            all[i].paths = all[i].paths.saturating_add(way.paths);
            return Ok(List::from_vec(all));
        }
    }
    all.push(way)?;
    Ok(List::from_vec(all))
}

// Ways that are still to be followed. Contracts see them as levels: those to points of one rank, under that rank, the ranks ascending.
#[derive(Drop)]
pub(crate) struct Levels {
    alloc: Global,
    kept: BTreeMap<u32, List<Way>>,
}

impl Model for Levels {
    ghost use Rattle.std.specs.BTreeMap.{IsOrdered};
    ghost use Rattle.std.specs.Ordering.{nat_cmp};
    ghost use Rattle.std.specs.Prelude.{List, ℕ};
    ghost use Rattle.dk_hierarchy.specs.declared.way.Way.{Way};

    ghost Value = { List (ℕ × List Way) };

    ghost view = { λ l. l.kept.entries };

    ghost invariant = { λ l. IsOrdered nat_cmp l.kept };
}

impl Levels {
    /// No way is left.
    pub(crate) fn new(alloc: Global) -> Levels
        ensures { result ≡ [] }
    {
        Levels {
            alloc,
            kept: BTreeMap::new(alloc),
        }
    }

    // Takes the ways to points of a rank out.
    fn take(&mut self, rank: u32) -> List<Way>
        ensures ways { result ≡ ways_at self.old rank }
        ensures others { self.new ≡ remove_entry (is_at (nat_cmp rank)) self.old }
        ensures sorted { IsStrictlySortedBy nat_cmp (keys_of self.old) }
    {
        self.kept.remove(&rank).unwrap_or(List::new(self.alloc))
    }

    /// A way more, at the rank of its lower point. After an error the levels may be any.
    pub(crate) fn add(&mut self, rank: u32, way: Way) -> Result<(), NoMemory>
        ensures { OnOk result (self.new ≡ with_way_at self.old rank way) }
    {
        let level = self.take(rank);
        match self.kept.insert(rank, with_way(level, way)?) {
            Ok(_) => Ok(()),
            Err(_) => Err(NoMemory),
        }
    }

    /// Takes the level of the greatest rank out.
    pub(crate) fn pop(&mut self) -> Option<(u32, List<Way>)>
        ensures some { IfSome result (λ level. self.old ≡ self.new ++ level ∷ []) }
        ensures below { IfSome result (λ level. AreBelow level.0 self.new) }
        ensures none { IfNone result (self.old ≡ []) }
    {
        self.kept.pop_last()
    }
}

/// The way from a point to itself, by the path without an edge.
pub(crate) fn first_way(alloc: Global, p: PointId, number: u32) -> Result<Way, NoMemory>
    ensures { IfOk result (λ way. way ≡ first_way p.0 number) }
{
    Ok(Way {
        point: p,
        partners: own_partners(alloc, number)?,
        paths: 1,
    })
}
