// Which tuples of variables a row is asked about.
ghost use Rattle.std.specs.Prelude.{◌≡◌, slice_get};
ghost use Rattle.dk_template.specs.Templates.{IsRow};
ghost use Rattle.dk_template.specs.Admitted.{admits as are_admitted, ascend, is_written as stands_written, same_kind, suits};

use crate::RowId;
use crate::templates::{Role, Symmetry, Takes, template_at};
use dk_base::{Form, Kind, VarId, VarInfo};

/// Whether the variable is there, is of the role's kind, and is a base one where the role takes base ones alone.
pub fn suits(role: Role, vars: &[VarInfo], var: VarId) -> bool
    ensures { result ≡ suits role (slice_get vars.now var.0) }
{
    match vars.get(var.0 as usize) {
        Some(info) => {
            info.kind == role.kind()
                && (!role.is_base() || matches!(info.form, Form::Declared | Form::Orig))
        }
        None => false,
    }
}

/// Whether the row admits a tuple of variables: as many as it has roles, each of its role's kind, and a base one where the role
/// takes base variables alone. Repeats are allowed, in any order.
pub fn admits(row: RowId, vars: &[VarInfo], tuple: &[VarId]) -> bool
    requires { IsRow row }
    ensures { result ≡ are_admitted row vars.now tuple.now }
{
    match template_at(row).takes {
        Takes::One(a) => match tuple {
            [v] => suits(a, vars, *v),
            _ => false,
        },
        Takes::Two(a, b) => match tuple {
            [v, w] => suits(a, vars, *v) && suits(b, vars, *w),
            _ => false,
        },
        Takes::Three(a, b, c) => match tuple {
            [u, v, w] => suits(a, vars, *u) && suits(b, vars, *v) && suits(c, vars, *w),
            _ => false,
        },
    }
}

// Whether no variable stands in front of an earlier one.
fn ascend(vars: &[VarId]) -> bool
    ensures { result ≡ ascend vars.now }
{
    vars.iter()
        .zip(vars.iter().skip(1))
        .all(|(v, w)| v.0 <= w.0)
}

/// Whether the tuple is in the row's written order: at the roles that may be exchanged the variables don't descend.
pub fn is_written(row: RowId, tuple: &[VarId]) -> bool
    requires { IsRow row }
    ensures { result ≡ stands_written row tuple.now }
{
    match template_at(row).symmetry {
        Symmetry::Fixed => true,
        Symmetry::All => ascend(tuple),
        Symmetry::Arguments => match tuple {
            [] => true,
            [_, rest @ ..] => ascend(rest),
        },
    }
}
