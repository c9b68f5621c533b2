// The engines of a table's points.
ghost use Rattle.std.specs.Prelude.{◌≡◌, ◌<◌, [], IfOk, length};
ghost use Rattle.dk_engine.specs.Exact.{AreOfPoint, IsKeptOf};
ghost use Rattle.dk_hierarchy.specs.Samples.{all_vars_of};

use dk_base::{NoMemory, PointId};
use dk_derive::derive;
use dk_engine::Engine;
use dk_points::Points;
use dk_template::Grammar;
use std::alloc::Global;

/// The engine of no samples over the variables of a point, base and derived.
pub fn engine_of(
    alloc: Global,
    points: &Points,
    p: PointId,
    grammar: Grammar,
) -> Result<Engine, NoMemory>
    requires { p.0 < length points.now }
    ensures infos { IfOk result (λ e. e.infos ≡ all_vars_of points.now p.0) }
    ensures point { IfOk result (λ e. AreOfPoint e.infos) }
    ensures grammar { IfOk result (λ e. e.grammar ≡ grammar) }
    ensures stands { IfOk result (λ e. IsKeptOf grammar e.infos [] e.kept) }
{
    let vars = derive(alloc, points.vars(p))?;
    Engine::new(alloc, vars, grammar)
}
