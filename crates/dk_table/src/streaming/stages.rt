// What is known of the columns while rows come.
ghost use Rattle.std.specs.Prelude.{◌≡◌, length};
ghost use Rattle.dk_table.specs.Writing.Forms.{form_of};

use crate::columns::ColumnKind;
use crate::columns::judging::Judge;
use crate::streaming::held::Chunk;
use crate::writing::Form;
use crate::writing::traces::Plan;
use dk_base::{List, Text};

/// Rows by which kinds are found, which are held until there are enough.
#[derive(Drop)]
pub(crate) struct Front {
    pub(crate) names: List<Text>,
    pub(crate) judge: Judge,
    pub(crate) held: List<Chunk>,
}

/// Rows that are written as they come.
#[derive(Drop)]
pub(crate) struct Body {
    pub(crate) names: List<Text>,
    pub(crate) plan: Plan,
    pub(crate) form: Form,
    ghost formed: { form ≡ form_of plan.decl plan.kinds },
    ghost paired: { length plan.decl.vars ≡ length plan.kinds },
}

/// What is known of the columns.
#[derive(Drop)]
pub(crate) enum Stage {
    /// No row has come.
    Start,
    /// The names, and something of the kinds.
    Front(Front),
    /// The names and the kinds.
    Body(Body),
}
