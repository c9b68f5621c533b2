// The section of a point.
ghost use Rattle.std.specs.Prelude.{◌≡◌, ◌<◌, ◌++◌, All, IfOk, OnOk, Some, length, slice_get};
ghost use Rattle.dk_hierarchy.specs.Samples.{OwnSamples, own_samples_of};
ghost use Rattle.dk_hierarchy.specs.Shortcuts.{AreShortcuts};
ghost use Rattle.dk_hierarchy.specs.Standing.{AreEnginesOf, EnginesStandFor, IsMergedAt};
ghost use Rattle.dk_report.specs.Engines.{grammar_at};
ghost use Rattle.dk_report.specs.Reports.{has_samples, kept_instances, section_of};

use crate::Options;
use crate::asking::Asking;
use crate::counting::{Counted, merge_counted};
use crate::parents::{parents_of, views_of};
use dk_base::{List, NoMemory, PointId, Text};
use dk_engine::Engine;
use dk_filters::{Candidate, PointFacts};
use dk_hierarchy::{Shortcut, merge_by};
use dk_points::Points;
use dk_template::Answers;
use std::alloc::Global;

// The instances that hold at a point and that are kept, by what answers for its samples.
fn kept_by<'a, 'e>(
    alloc: Global,
    options: &'a Options,
    points: &Points,
    engines: &'e [Engine],
    shortcuts: &[Shortcut],
    p: PointId,
    here: &'a Counted<'e>,
) -> Result<List<Candidate>, NoMemory>
    requires point { p.0 < length points.now }
    requires engines { AreEnginesOf points.now engines.now }
    requires shortcuts { AreShortcuts points.now engines.now shortcuts.now }
    requires here { slice_get engines.now p.0 ≡ Some here.now.here }
    requires same { here.now.engines ≡ engines.now }
    requires paths { All (λ way. 0 < way.paths) here.now.ways }
    requires stands { IsMergedAt points.now engines.now p.0 here.now }
    ensures { IfOk result (λ list. (own : OwnSamples) → EnginesStandFor engines.now (own_samples_of points.now own) → list ≡ kept_instances (grammar_at engines.now p.0) options.now points.now own p.0) }
{
    let parents = parents_of(alloc, points, engines, shortcuts, p)?;
    let views = views_of(alloc, parents.as_slice())?;
    let engine = &engines[p.0 as usize];
    let found = PointFacts::of(alloc, here.vars(), here, views.as_slice())?;
    let asking = Asking {
        alloc,
        grammar: engine.grammar(),
        options,
        here,
        parents: views.as_slice(),
        found: &found,
    };
    asking.list_candidates(engines)
}

/// The instances that hold at a point and that no filter that is on drops, by row and then by variables, from what the engines of the
/// table's points keep. An instance that the options drop at once isn't asked about; where all samples come from one
/// engine, rows of several variables are asked about only over its slots and constants, but where implied instances are let through; and
/// else only over variables of which they may say something by the engine of one way.
pub fn kept_instances(
    alloc: Global,
    options: &Options,
    points: &Points,
    engines: &[Engine],
    p: PointId,
) -> Result<List<Candidate>, NoMemory>
    requires point { p.0 < length points.now }
    requires engines { AreEnginesOf points.now engines.now }
    ensures { IfOk result (λ list. (own : OwnSamples) → EnginesStandFor engines.now (own_samples_of points.now own) → list ≡ kept_instances (grammar_at engines.now p.0) options.now points.now own p.0) }
{
    let here = merge_counted(alloc, points, engines, p)?;
    kept_by(alloc, options, points, engines, &[], p, &here)
}

/// The section of a point, behind the text, from what the engines of the table's points keep: whether the point has samples, its
/// children's included, and else no section. Its instances are those that hold and that no filter that is on drops. After an error the
/// text may hold a part of it.
pub fn push_section(
    alloc: Global,
    text: &mut Text,
    options: &Options,
    points: &Points,
    engines: &[Engine],
    p: PointId,
) -> Result<bool, NoMemory>
    requires point { p.0 < length points.now }
    requires engines { AreEnginesOf points.now engines.now }
    ensures samples { IfOk result (λ some. (own : OwnSamples) → EnginesStandFor engines.now (own_samples_of points.now own) → some ≡ has_samples points.now own p.0) }
    ensures text { OnOk result ((own : OwnSamples) → EnginesStandFor engines.now (own_samples_of points.now own) → text.new ≡ text.old ++ section_of (grammar_at engines.now p.0) options.now points.now own p.0) }
{
    push_section_by(alloc, text, options, points, engines, &[], p)
}

/// The same by shortcuts, which are found once for the sections of all points.
pub fn push_section_by(
    alloc: Global,
    text: &mut Text,
    options: &Options,
    points: &Points,
    engines: &[Engine],
    shortcuts: &[Shortcut],
    p: PointId,
) -> Result<bool, NoMemory>
    requires point { p.0 < length points.now }
    requires engines { AreEnginesOf points.now engines.now }
    requires shortcuts { AreShortcuts points.now engines.now shortcuts.now }
    ensures samples { IfOk result (λ some. (own : OwnSamples) → EnginesStandFor engines.now (own_samples_of points.now own) → some ≡ has_samples points.now own p.0) }
    ensures text { OnOk result ((own : OwnSamples) → EnginesStandFor engines.now (own_samples_of points.now own) → text.new ≡ text.old ++ section_of (grammar_at engines.now p.0) options.now points.now own p.0) }
{
    let merged = merge_by(alloc, points, engines, shortcuts, p)?;
    let samples = merged.count(&[]);
    if samples == 0 {
        return Ok(false);
    }
    let here = Counted::of(alloc, merged, engines)?;
    let list = kept_by(alloc, options, points, engines, shortcuts, p, &here)?;
    let vars = engines[p.0 as usize].vars();
    dk_print::push_section(text, points.name(p), samples, vars, list.as_slice())?;
    Ok(true)
}
