// Which points have samples.
ghost use Rattle.std.specs.Prelude.{◌≡◌, ◌≤◌, IfOk, OnOk, length, map};
ghost use Rattle.std.specs.List.{range_with_len};
ghost use Rattle.dk_graph.specs.Raising.{ParentsBelow};
ghost use Rattle.dk_hierarchy.specs.Having.{have_samples, keeps_some, marked_all};
ghost use Rattle.dk_hierarchy.specs.Samples.{OwnSamples, own_samples_of};
ghost use Rattle.dk_hierarchy.specs.Standing.{AreEnginesOf, EnginesStandFor};

use dk_base::{NoMemory, PointId};
use dk_engine::Engine;
use dk_graph::Edge;
use dk_points::Points;
use std::alloc::Global;

// Whether each engine has samples.
fn own_marks(alloc: Global, engines: &[Engine]) -> Result<Vec<bool>, NoMemory>
    ensures { IfOk result (λ marks. marks.items ≡ map keeps_some engines.now) }
{
    let mut marks = Vec::new(alloc);
    for engine in engines {
        marks.push(engine.counts().samples > 0)?;
    }
    Ok(marks)
}

// The places of so many points.
fn places(alloc: Global, number: u32) -> Result<Vec<u32>, NoMemory>
    ensures { IfOk result (λ places. places.items ≡ range_with_len 0 number) }
{
    let mut places = Vec::new(alloc);
    for place in 0..number {
        places.push(place)?;
    }
    Ok(places)
}

// Marks the parents of these edges; those that were not marked wait, last.
fn mark_parents(edges: &[Edge], marks: &mut [bool], waiting: &mut Vec<u32>) -> Result<(), NoMemory>
    requires { ParentsBelow (length marks.old) edges.now }
    ensures { OnOk result (record { marks = marks.new; waiting = waiting.new.items } ≡ marked_all edges.now (record { marks = marks.old; waiting = waiting.old.items })) }
{
    for edge in edges {
        let parent = edge.parent.0;
        if marks[parent as usize] {
            continue;
        }
        marks[parent as usize] = true;
        waiting.push(parent)?;
    }
    Ok(())
}

/// Whether each point has samples, its own or its children's. Each point and each edge is met once.
pub fn have_samples(
    alloc: Global,
    points: &Points,
    engines: &[Engine],
) -> Result<Vec<bool>, NoMemory>
    requires { AreEnginesOf points.now engines.now }
    ensures long { IfOk result (λ marks. length marks.items ≡ length points.now) }
    ensures marks { IfOk result (λ marks. (own : OwnSamples) → EnginesStandFor engines.now (own_samples_of points.now own) → marks.items ≡ have_samples points.now own) }
{
    let mut marks = own_marks(alloc, engines)?;
    let mut waiting = places(alloc, points.len())?;
    while let Some(child) = waiting.pop() {
        if !marks[child as usize] {
            continue;
        }
        let row = points.from(PointId(child));
        mark_parents(row, marks.as_mut_slice(), &mut waiting)?;
    }
    Ok(marks)
}
