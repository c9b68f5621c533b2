// The sizes of what is kept of a point's samples.
ghost use Rattle.std.specs.Prelude.{◌≡◌, ◌<◌, ◌++◌, IfOk, OnOk, length};
ghost use Rattle.dk_hierarchy.specs.Samples.{OwnSamples, own_samples_of};
ghost use Rattle.dk_hierarchy.specs.Standing.{AreEnginesOf, EnginesStandFor};
ghost use Rattle.dk_report.specs.Engines.{grammar_at};
ghost use Rattle.dk_report.specs.Sizes.{has_own_samples, stats_of};

use dk_base::{NoMemory, PointId, Text};
use dk_engine::Engine;
use dk_points::Points;

/// The line of the sizes of what is kept of a point's own samples, behind the text: whether it has any, and else no line. After an
/// error the text may hold a part of it.
pub fn push_stats(
    text: &mut Text,
    points: &Points,
    engines: &[Engine],
    p: PointId,
) -> Result<bool, NoMemory>
    requires point { p.0 < length points.now }
    requires engines { AreEnginesOf points.now engines.now }
    ensures samples { IfOk result (λ some. (own : OwnSamples) → EnginesStandFor engines.now (own_samples_of points.now own) → some ≡ has_own_samples own p.0) }
    ensures text { OnOk result ((own : OwnSamples) → EnginesStandFor engines.now (own_samples_of points.now own) → text.new ≡ text.old ++ stats_of (grammar_at engines.now p.0) points.now own p.0) }
{
    let counts = engines[p.0 as usize].counts();
    if counts.samples == 0 {
        return Ok(false);
    }
    dk_print::push_stats(text, points.name(p), counts)?;
    Ok(true)
}
