// States of constant leaders.
ghost use Rattle.std.specs.Prelude.{◌≡◌, ◌≤◌, true, IfOk, IsTrue, OnErr, is_some, length, not, unwrap_or};
ghost use Rattle.dk_constants.specs.Known.{known_at};
ghost use Rattle.dk_instances.specs.Fits.{is_whole};
ghost use Rattle.dk_samples.specs.Samples.{is_present};
ghost use Rattle.dk_template.specs.Rows.{IsTuple};
ghost use Rattle.dk_template.specs.Templates.{IsRow, role_kinds};
ghost use Rattle.dk_engine.specs.Reading.{state_of_one};
ghost use Rattle.dk_engine.specs.Reading.Memory.{wants_memory};
ghost use Rattle.dk_engine.specs.Reading.Parts.{all_known, known_tuple};

use crate::over::lending::{point_of_one, point_of_three, point_of_two};
use dk_base::{NoMemory, Value, VarId};
use dk_constants::Constants;
use dk_template::{RowId, State};
use std::alloc::Global;

/// Whether each of the leaders is constant.
pub(crate) fn are_known(known: &Constants, vars: &[VarId]) -> bool
    ensures { result ≡ all_known known.now vars.now }
{
    for v in vars {
        if known.value(*v).is_none() {
            return false;
        }
    }
    true
}

// The value of a constant leader.
fn known_value(known: &Constants, v: VarId) -> &Value
    requires { is_some (known_at known.now v) ≡ true }
    ensures { result.now ≡ unwrap_or (known_at known.now v) Value.Missing }
{
    match known.value(v) {
        Some(value) => value,
        None => unreachable!(),
    }
}

// Whether the value isn't the missing one.
fn is_there(value: &Value) -> bool
    ensures { result ≡ is_present value.now }
{
    !matches!(value, Value::Missing)
}

/// A row's state of constant leaders: that of the tuple of their values, or Empty where one of these is missing.
pub(crate) fn constant_state(
    alloc: Global,
    known: &Constants,
    row: RowId,
    vars: &[VarId],
) -> Result<State, NoMemory>
    requires row { IsRow row }
    requires some { 1 ≤ length vars.now }
    requires few { length vars.now ≤ 3 }
    requires known { all_known known.now vars.now ≡ true }
    requires tuple { is_whole (known_tuple known.now vars.now) ≡ true → IsTuple (role_kinds row) (known_tuple known.now vars.now) }
    ensures state { IfOk result (λ s. s ≡ state_of_one row (known_tuple known.now vars.now)) }
    ensures err { OnErr result (IsTrue (wants_memory row)) }
{
    let a = known_value(known, vars[0]);
    if vars.len() == 1 {
        return if is_there(a) {
            point_of_one(alloc, row, a)
        } else {
            Ok(State::Empty)
        };
    }
    let b = known_value(known, vars[1]);
    if vars.len() == 2 {
        return if is_there(a) && is_there(b) {
            point_of_two(alloc, row, a, b)
        } else {
            Ok(State::Empty)
        };
    }
    let c = known_value(known, vars[2]);
    if is_there(a) && is_there(b) && is_there(c) {
        point_of_three(alloc, row, a, b, c)
    } else {
        Ok(State::Empty)
    }
}
