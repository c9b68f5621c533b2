// Which variables are an instance's.
ghost use Rattle.std.specs.Prelude.{◌≡◌, ◌==◌, not};
ghost use Rattle.std.specs.List.{list_all};
ghost use Rattle.dk_instances.specs.Instances.{are_distinct, is_asked};
ghost use Rattle.dk_template.specs.Templates.{IsRow};

use dk_base::{VarId, VarInfo};
use dk_template::{RowId, admits, is_written};

// Whether the variable is none of the others.
fn is_none_of(v: VarId, others: &[VarId]) -> bool
    ensures { result ≡ list_all (λ w. not (v.0 == w.0)) others.now }
{
    others.iter().all(|w| v.0 != w.0)
}

/// Whether no variable comes twice.
pub fn are_distinct(vars: &[VarId]) -> bool
    ensures { result ≡ are_distinct vars.now }
{
    match vars {
        [] => true,
        [v, others @ ..] => is_none_of(*v, others) && are_distinct(others),
    }
}

/// Whether the variables are an instance's.
pub fn is_asked(row: RowId, infos: &[VarInfo], vars: &[VarId]) -> bool
    requires { IsRow row }
    ensures { result ≡ is_asked infos.now row vars.now }
{
    admits(row, infos, vars) && is_written(row, vars) && are_distinct(vars)
}
