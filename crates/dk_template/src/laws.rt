//! What the definitions of rows and states come to.
ghost use Rattle.std.specs.Prelude.{◌≡◌, All, IfOk, OnErr};
ghost use Rattle.dk_base.specs.Values.{values_of};
ghost use Rattle.dk_template.specs.Laws.{BrokenAbsorbs, ExchangeableRolesTakeTheSame, LinesExchange, OffsetsExchange, PlainStatesFitWhereTheyHold, PlanesExchange, ProperStatesJoin, WrittenOrdersAreWritten, WrittenOrdersKeepVariables, WrittenTuplesAreAdmitted, tuples_of};
ghost use Rattle.dk_template.specs.Proper.{IsProper};
ghost use Rattle.dk_template.specs.Rows.{IsTuple};

use crate::{Row, State, StateForm};
use dk_base::{NoMemory, View};
use std::alloc::Global;

/// A row's state of a list of tuples, which is proper: the join of the states of its tuples, one after another.
pub fn state_of_list<R: Row>(
    row: &R,
    alloc: Global,
    tuples: &[&[View<'_>]],
) -> Result<State, NoMemory>
    requires { All (λ t. IsTuple (R.kinds row.now) (values_of t.now)) tuples.now }
    ensures state { IfOk result (λ state. state ≡ R.state_of row.now (tuples_of tuples.now)) }
    ensures proper { IfOk result (λ state. IsProper (R.form row.now) state) }
    ensures err { OnErr result (R.form row.now ≡ StateForm.Texts) }
{
    let mut state = row.empty();
    for tuple in tuples {
        let one = row.point(alloc, tuple)?;
        state = row.join(alloc, state, &one)?;
    }
    Ok(state)
}

/// The proper states of each form keep the laws of a join: they are closed, the join is associative, commutative and idempotent,
/// Empty is neutral, and Broken stays.
pub fn proper_states_join()
    ensures { ProperStatesJoin }
{}

/// A proper state of a row with a relation fits only where it is Holds.
pub fn plain_states_fit_where_they_hold()
    ensures { PlainStatesFitWhereTheyHold }
{}

/// The state of points on a line with their coordinates exchanged is the exchanged state.
pub fn lines_exchange()
    ensures { LinesExchange }
{}

/// The state of points in space with two neighbouring coordinates exchanged is the exchanged state.
pub fn planes_exchange()
    ensures { PlanesExchange }
{}

/// The offset of pairs of sequences with the two exchanged is the exchanged state.
pub fn offsets_exchange()
    ensures { OffsetsExchange }
{}

/// The roles of a row that may be exchanged take the same.
pub fn exchangeable_roles_take_the_same()
    ensures { ExchangeableRolesTakeTheSame }
{}

/// A tuple that a row admits is admitted in its written order.
pub fn written_tuples_are_admitted()
    ensures { WrittenTuplesAreAdmitted }
{}

/// The written order of variables is written, and has no other variables.
pub fn written_orders_are_written()
    ensures written { WrittenOrdersAreWritten }
    ensures variables { WrittenOrdersKeepVariables }
{}

/// Broken stays, whatever is joined to it.
pub fn broken_absorbs()
    ensures { BrokenAbsorbs }
{}
