// Which variables may stand in one instance.
ghost use Rattle.std.specs.Prelude.{◌≡◌};
ghost use Rattle.std.specs.List.{list_all, list_any};
ghost use Rattle.dk_base.specs.Comparability.{comparable};
ghost use Rattle.dk_filters.specs.Facts.{are_comparable, compar_of_var, has_foreign_index, index_compar_of_var, is_incomparable, sequence_and_index};

use dk_base::{Compar, Form, VarId, VarInfo, comparable};

// The comparability of a variable.
fn compar_of(vars: &[VarInfo], v: VarId) -> Compar
    ensures { result ≡ compar_of_var vars.now v }
{
    match vars.get(v.0 as usize) {
        Some(info) => info.compar,
        None => Compar { elem: 0, index: 0 },
    }
}

// That of a sequence's indices.
fn index_compar_of(vars: &[VarInfo], s: VarId) -> Compar
    ensures { result ≡ index_compar_of_var vars.now s }
{
    Compar {
        elem: compar_of(vars, s).index,
        index: -1,
    }
}

// Whether the variable is comparable with each of the others.
fn is_comparable_with(vars: &[VarInfo], v: VarId, others: &[VarId]) -> bool
    ensures { result ≡ list_all (λ w. comparable (compar_of_var vars.now v) (compar_of_var vars.now w)) others.now }
{
    let compar = compar_of(vars, v);
    others
        .iter()
        .all(|w| comparable(compar, compar_of(vars, *w)))
}

// Whether each two of the variables are comparable.
fn are_comparable(vars: &[VarInfo], tuple: &[VarId]) -> bool
    ensures { result ≡ are_comparable vars.now tuple.now }
{
    match tuple {
        [] => true,
        [v, others @ ..] => is_comparable_with(vars, *v, others) && are_comparable(vars, others),
    }
}

// The sequence and the index of an element or a slice that is taken by an index.
fn taken_by(form: Form) -> Option<(VarId, VarId)>
    ensures { result ≡ sequence_and_index form }
{
    match form {
        Form::At(s, i)
        | Form::Upto(s, i)
        | Form::Before(s, i)
        | Form::Since(s, i)
        | Form::After(s, i) => Some((s, i)),
        _ => None,
    }
}

// Whether the variable is taken by an index that isn't comparable with the indices of its sequence.
fn has_foreign_index(vars: &[VarInfo], v: VarId) -> bool
    ensures { result ≡ has_foreign_index vars.now v }
{
    let Some(info) = vars.get(v.0 as usize) else {
        return false;
    };
    match taken_by(info.form) {
        Some((s, i)) => !comparable(compar_of(vars, i), index_compar_of(vars, s)),
        None => false,
    }
}

// Whether one of the variables is taken by such an index.
fn has_any_foreign_index(vars: &[VarInfo], tuple: &[VarId]) -> bool
    ensures { result ≡ list_any (has_foreign_index vars.now) tuple.now }
{
    tuple.iter().any(|v| has_foreign_index(vars, *v))
}

/// Whether two of the variables aren't comparable, or one of them is taken by an index that isn't comparable with the indices of
/// its sequence.
pub(crate) fn is_incomparable(vars: &[VarInfo], tuple: &[VarId]) -> bool
    ensures { result ≡ is_incomparable vars.now tuple.now }
{
    !are_comparable(vars, tuple) || has_any_foreign_index(vars, tuple)
}
