// The candidates of the samples of one engine.
ghost use Rattle.std.specs.Prelude.{◌≡◌, [], All, IfOk, List};
ghost use Rattle.dk_base.specs.declared.values.Value.{Value as SampleValue};
ghost use Rattle.dk_engine.specs.Exact.{AreOfPoint};
ghost use Rattle.dk_filters.specs.Candidates.{candidates_kept, candidates_of};
ghost use Rattle.dk_filters.specs.OfSamples.{answers_of};
ghost use Rattle.dk_hierarchy.specs.Standing.{EngineStandsFor};
ghost use Rattle.dk_instances.specs.Instances.{IsInstance};
ghost use Rattle.dk_report.specs.Keeping.{keeps};

use crate::Options;
use crate::asking::Asking;
use crate::counting::Counted;
use crate::parents::views_of;
use dk_base::{List, NoMemory};
use dk_engine::Engine;
use dk_filters::{Candidate, PointFacts};
use std::alloc::Global;
use std::slice;

/// The instances that hold in the samples that an engine has, and that no filter that is on drops, by row and then by variables: as at a
/// point without children and without parents.
pub fn kept_alone(
    alloc: Global,
    options: &Options,
    engine: &Engine,
) -> Result<List<Candidate>, NoMemory>
    requires { AreOfPoint engine.now.infos }
    ensures instances { IfOk result (λ list. All (λ c. IsInstance engine.now.grammar engine.now.infos c.row c.vars) list) }
    ensures kept { IfOk result (λ list. (samples : List (List SampleValue)) → EngineStandsFor engine.now samples → list ≡ candidates_kept (keeps options.now) (candidates_of engine.now.grammar options.now.least (answers_of engine.now.infos samples) [])) }
{
    let here = Counted::alone(alloc, engine)?;
    let parents = Vec::new(alloc);
    let views = views_of(alloc, parents.as_slice())?;
    let found = PointFacts::of(alloc, here.vars(), &here, views.as_slice())?;
    let asking = Asking {
        alloc,
        grammar: engine.grammar(),
        options,
        here: &here,
        parents: views.as_slice(),
        found: &found,
    };
    asking.list_candidates(slice::from_ref(engine))
}
