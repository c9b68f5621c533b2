// What a premise asks.
ghost use Rattle.std.specs.Prelude.{◌≡◌, ◌≤◌, [], ◌∷◌, take};
ghost use Rattle.dk_template.specs.Premises.{asked_count, at_role, at_roles, row_of, suffices, vars_of};
ghost use Rattle.dk_template.specs.Templates.{IsRow, arity_of};

use crate::{Premise, RowId, State, fits, info, rows};
use dk_base::VarId;

// The variable at a role.
fn var_at(vars: &[VarId], role: u8) -> VarId
    ensures { result ≡ at_role role vars.now }
{
    let place = role as usize;
    if place < vars.len() {
        vars[place]
    } else {
        VarId(0)
    }
}

// The variables at three roles, of which as many count as the row takes.
fn vars_at(row: RowId, roles: [u8; 3], vars: &[VarId]) -> [VarId; 3]
    ensures { take (arity_of row) result ≡ at_roles row roles vars.now }
{
    [
        var_at(vars, roles[0]),
        var_at(vars, roles[1]),
        var_at(vars, roles[2]),
    ]
}

// The variable at a role, which alone counts.
fn one_at(role: u8, vars: &[VarId]) -> [VarId; 3]
    ensures { take 1 result ≡ at_role role vars.now ∷ [] }
{
    [var_at(vars, role), VarId(0), VarId(0)]
}

/// The row that the premise asks.
pub fn asked_row(premise: &Premise) -> RowId
    ensures { result ≡ row_of premise.now }
{
    match *premise {
        Premise::Holds { row, .. } => row,
        Premise::LeastAtLeast { row, .. } => row,
        Premise::GreatestAtMost { row, .. } => row,
        Premise::Only { .. } => RowId(rows::ONE_OF_INT),
    }
}

/// How many variables it asks about.
pub(crate) fn asked_count(premise: &Premise) -> usize
    requires { IsRow (row_of premise.now) }
    ensures count { result ≡ asked_count premise.now }
    ensures few { result ≤ 3 }
{
    match *premise {
        Premise::Holds { row, .. } => info(row).arity as usize,
        _ => 1,
    }
}

/// The variables that it asks about, of those of its rule's conclusion. As many count as it asks about.
pub(crate) fn asked_vars(premise: &Premise, vars: &[VarId]) -> [VarId; 3]
    ensures { take (asked_count premise.now) result ≡ vars_of premise.now vars.now }
{
    match *premise {
        Premise::Holds { row, roles } => { vars_at(row, roles, vars) }
        Premise::LeastAtLeast { role, .. } => one_at(role, vars),
        Premise::GreatestAtMost { role, .. } => one_at(role, vars),
        Premise::Only { role, .. } => one_at(role, vars),
    }
}

/// Whether the state is as the premise wants it.
pub fn suffices_for(premise: &Premise, state: &State) -> bool
    ensures { result ≡ suffices premise.now state.now }
{
    match *premise {
        Premise::Holds { .. } => fits(state),
        Premise::LeastAtLeast { k, .. } => match state {
            State::Least(least) => k <= *least,
            _ => false,
        },
        Premise::GreatestAtMost { k, .. } => match state {
            State::Greatest(greatest) => *greatest <= k,
            _ => false,
        },
        Premise::Only { k, .. } => match state {
            State::Ints(values) => {
                let values = values.as_slice();
                values.len() == 1 && values[0] == k
            }
            _ => false,
        },
    }
}
