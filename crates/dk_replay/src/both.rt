// An engine, and what answers from the whole list of the samples that were fed to it.
ghost use Rattle.std.specs.Prelude.{◌≡◌};

use crate::listed::Listed;
use dk_engine::Engine;

/// An engine, and what answers for the same variables and grammar from the whole list of the samples that were fed to the engine.
#[derive(Drop)]
pub struct Both<'a, 'v> {
    pub engine: &'a Engine,
    pub listed: Listed<'a, 'v>,
    pub ghost grammar: { engine.now.grammar ≡ listed.grammar },
    pub ghost infos: { engine.now.infos ≡ listed.infos },
}
