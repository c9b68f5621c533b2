// The splits of points, which take the samples of files.
ghost use Rattle.std.specs.Prelude.{◌≡◌, ◌≤◌, ◌<◌, ◌++◌, [], OnOk, Some, length};
ghost use Rattle.dk_events.specs.Telling.{EventFits};
ghost use Rattle.dk_implications.specs.Reports.{implications_at};
ghost use Rattle.dk_hierarchy.specs.Samples.{OwnSamples};
ghost use Rattle.dk_template.specs.declared.grammar.Grammar.{Grammar};
ghost use Rattle.dk_split.specs.Growing.{AreGrown, AreKeptUp, TakesEvent};
ghost use Rattle.dk_split.specs.Standing.{AreSplitsOf, StandsFor};

use dk_base::{NoMemory, PointId, Text};
use dk_driver::Consumer;
use dk_events::Event;
use dk_implications::Split;
use dk_points::Points;
use dk_template::Grammar;
use std::alloc::Global;

/// The split of each point.
#[derive(Drop)]
pub struct Splits {
    pub(crate) alloc: Global,
    pub(crate) splits: Vec<Split>,
}

// Adds splits without samples, for the points that have none yet.
fn keep_up(alloc: Global, splits: &mut Vec<Split>, points: &Points) -> Result<(), NoMemory>
    requires { length splits.old.items ≤ length points.now }
    ensures { OnOk result (AreGrown points.now splits.old.items splits.new.items) }
{
    for place in splits.len()..points.len() as usize {
        splits.push(Split::new(alloc, points, PointId(place as u32), Grammar::Two)?)?;
    }
    Ok(())
}

impl Splits {
    // The splits of no points.
    pub(crate) fn new(alloc: Global) -> Splits
        ensures fits { AreSplitsOf [] result.splits.items }
        ensures stands { StandsFor result [] [] }
    {
        Splits {
            alloc,
            splits: Vec::new(alloc),
        }
    }

    // Takes what a block does: new points get splits, and a sample goes to that of its point.
    fn take_event(&mut self, points: &Points, event: Event<'_>) -> Result<(), NoMemory>
        requires kept { AreKeptUp points.now event self.old.splits.items }
        requires fits { EventFits points.now (Some event) }
        ensures { OnOk result (TakesEvent points.now event.entry self.old.splits.items self.new.splits.items) }
    {
        match event {
            Event::Sample {
                point,
                line: _,
                values,
            } => self.splits[point.0 as usize].feed(values),
            _ => keep_up(self.alloc, &mut self.splits, points),
        }
    }

    // Writes the section of the point's implications behind the text; a point without own samples has none. After an error the text may
    // hold a part of it.
    pub(crate) fn push_section(
        &self,
        text: &mut Text,
        points: &Points,
        p: PointId,
        least: u64,
    ) -> Result<(), NoMemory>
        requires fits { AreSplitsOf points.now self.now.splits.items }
        requires within { p.0 < length points.now }
        ensures { OnOk result ((samples : OwnSamples) → StandsFor self.now points.now samples → text.new ≡ text.old ++ implications_at Grammar.Two least points.now samples p.0) }
    {
        let split = &self.splits[p.0 as usize];
        if split.whole().counts().samples == 0 {
            return Ok(());
        }
        split.push_implications(text, points.name(p), least)
    }
}

impl Consumer for Splits {
    ghost use Rattle.dk_split.specs.Standing.{AreSplitsOf, StandsFor};

    type Given = ();

    ghost given = { λ _. tt };

    ghost fits = { λ s ps. AreSplitsOf ps s.splits.items };

    ghost stands = { λ s told. StandsFor s told.points told.samples };

    fn take(&mut self, points: &Points, _file: usize, event: Event<'_>) -> Result<(), NoMemory> {
        self.take_event(points, event)
    }
}
