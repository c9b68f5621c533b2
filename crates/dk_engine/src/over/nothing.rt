// What answers for no rank.
ghost use Rattle.std.specs.Prelude.{◌≡◌, false};
ghost use Rattle.dk_engine.specs.Reading.{read_leaders};

use crate::Kept;
use dk_base::{NoMemory, VarId, VarInfo};
use dk_template::{Answers, Grammar, RowId, State};

/// What answers for the rows of no rank: each state is Broken. It is what the lowest level stands on.
#[derive(Drop)]
pub(crate) struct Nothing<'a> {
    pub(crate) grammar: Grammar,
    pub(crate) infos: &'a [VarInfo],
    pub(crate) kept: &'a Kept,
}

impl<'a> Answers for Nothing<'a> {
    ghost grammar = { λ n. n.grammar };

    ghost infos = { λ n. n.infos.now };

    ghost answered = { λ n. read_leaders 0 n.kept.now };

    ghost counted = { λ n vars. 0 };

    ghost agreeing = { λ n v w. false };

    #[tactic(auto, unfolding(crate::specs::Reading::read_leaders))]
    fn answer(&self, _row: RowId, _vars: &[VarId]) -> Result<State, NoMemory> {
        Ok(State::Broken)
    }

    fn count(&self, _vars: &[VarId]) -> u64 {
        0
    }

    fn agree(&self, _v: VarId, _w: VarId) -> bool {
        false
    }
}
