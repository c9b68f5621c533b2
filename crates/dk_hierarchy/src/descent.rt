// Going down from a point, the ways to points of the greatest rank first.
ghost use Rattle.std.specs.Prelude.{◌≡◌, ◌<◌, ◌++◌, [], ◌∷◌, IfOk, OnOk, length};
ghost use Rattle.dk_graph.specs.Graphs.{AreRanks};
ghost use Rattle.dk_hierarchy.specs.Descent.{AreBelow, AreLevels, ways_in};
ghost use Rattle.dk_hierarchy.specs.Shortcuts.{IsDescentBy, LeadDown, with_ways_on};
ghost use Rattle.dk_hierarchy.specs.Standing.{AreEnginesOf};
ghost use Rattle.dk_hierarchy.specs.Ways.{way_below};
ghost use Rattle.dk_points.specs.Links.{nodes};

use crate::Way;
use crate::composing::{onward, partners_of};
use crate::levels::{Levels, first_way};
use crate::shortcut::{Shortcut, go_on};
use dk_base::{List, NoMemory, PointId};
use dk_engine::Engine;
use dk_graph::Edge;
use dk_points::Points;
use std::alloc::Global;

// A table, the ranks, the engines and the shortcuts of its points, and the point from which it goes down.
#[derive(Clone, Copy)]
struct Descent<'a> {
    alloc: Global,
    points: &'a Points,
    ranks: &'a [u32],
    engines: &'a [Engine],
    shortcuts: &'a [Shortcut],
    top: PointId,
}

impl<'a> Descent<'a> {
    // The way, and then down an edge into its lower point.
    fn way_below(&self, way: &Way, edge: Edge) -> Result<Way, NoMemory>
        requires engines { AreEnginesOf self.now.points.now self.now.engines.now }
        requires child { edge.child.0 < length self.now.points.now }
        requires parent { edge.parent.0 < length self.now.points.now }
        ensures { IfOk result (λ below. below ≡ way_below self.now.points.now way.now edge) }
    {
        let parent = self.engines[edge.parent.0 as usize].vars();
        let child = self.engines[edge.child.0 as usize].vars();
        let below = partners_of(self.alloc, self.points, edge, parent, child)?;
        Ok(Way {
            point: edge.child,
            partners: onward(self.alloc, below.as_slice(), way.partners.as_slice())?,
            paths: way.paths,
        })
    }

    // The ways that go on from a way, each in the level of its lower point.
    fn add_ways_below(&self, levels: &mut Levels, way: &Way) -> Result<(), NoMemory>
        requires engines { AreEnginesOf self.now.points.now self.now.engines.now }
        requires ranks { AreRanks (nodes self.now.points.now) self.now.ranks.now }
        requires shortcuts { LeadDown self.now.points.now self.now.shortcuts.now }
        requires point { way.now.point.0 < length self.now.points.now }
        ensures { OnOk result (levels.new ≡ with_ways_on self.now.points.now self.now.ranks.now self.now.shortcuts.now levels.old way.now) }
    {
        for edge in self.points.into(way.point) {
            let mut on = self.way_below(way, *edge)?;
            go_on(self.alloc, self.shortcuts, &mut on)?;
            levels.add(self.ranks[on.point.0 as usize], on)?;
        }
        Ok(())
    }

    // Follows each way of a level. All levels are below it, and so are those that are made.
    fn follow(
        &self,
        ways: &mut List<Way>,
        levels: &mut Levels,
        rank: u32,
        level: List<Way>,
    ) -> Result<(), NoMemory>
        requires engines { AreEnginesOf self.now.points.now self.now.engines.now }
        requires ranks { AreRanks (nodes self.now.points.now) self.now.ranks.now }
        requires shortcuts { LeadDown self.now.points.now self.now.shortcuts.now }
        requires descent { IsDescentBy self.now.points.now self.now.shortcuts.now self.now.top.0 ways.old (ways_in levels.old ++ level) }
        requires levels { AreLevels self.now.ranks.now (levels.old ++ (rank, level) ∷ []) }
        requires below { AreBelow rank levels.old }
        ensures descent { OnOk result (IsDescentBy self.now.points.now self.now.shortcuts.now self.now.top.0 ways.new (ways_in levels.new)) }
        ensures levels { OnOk result (AreLevels self.now.ranks.now levels.new) }
        ensures below { OnOk result (AreBelow rank levels.new) }
    {
        let mut level = level.into_vec();
        while let Some(way) = level.pop() {
            self.add_ways_below(levels, &way)?;
            ways.push(way)?;
        }
        Ok(())
    }
}

/// The ways down from a point by shortcuts, each behind all ways to points above its lower one. Where the shortcuts hold, they bring all
/// its samples.
pub(crate) fn ways_down(
    alloc: Global,
    points: &Points,
    engines: &[Engine],
    shortcuts: &[Shortcut],
    top: PointId,
) -> Result<List<Way>, NoMemory>
    requires point { top.0 < length points.now }
    requires engines { AreEnginesOf points.now engines.now }
    requires shortcuts { LeadDown points.now shortcuts.now }
    ensures { IfOk result (λ ways. IsDescentBy points.now shortcuts.now top.0 ways []) }
{
    let ranks = points.ranks();
    let descent = Descent {
        alloc,
        points,
        ranks,
        engines,
        shortcuts,
        top,
    };
    let number = engines[top.0 as usize].vars().len() as u32;
    let mut levels = Levels::new(alloc);
    let first = first_way(alloc, top, number)?;
    levels.add(ranks[top.0 as usize], first)?;
    let mut ways = List::new(alloc);
    while let Some((rank, level)) = levels.pop() {
        descent.follow(&mut ways, &mut levels, rank, level)?;
    }
    Ok(ways)
}
