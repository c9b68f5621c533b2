// The values that orig variables have at an exit.
ghost use Rattle.std.specs.Prelude.{◌≡◌, ◌++◌, ◌∷◌, ◌<◌, ◌≤◌, [], true, IfOk, List, drop, length};
ghost use Rattle.dk_base.specs.Shapes.{is_orig};
ghost use Rattle.dk_base.specs.Values.{values_of};
ghost use Rattle.dk_points.specs.Vars.{orig_vars, same_kind};
ghost use Rattle.dk_base.specs.declared.kinds.VarInfo.{VarInfo as Variable};
ghost use Rattle.dk_base.specs.declared.values.Value.{Value as Kept};
ghost use Rattle.dk_calls.specs.Origs.{IsPassed, inner_name, is_next, orig_values, own_len};

use dk_base::{Arena, Form, Kind, NoMemory, Value, VarInfo, View, same_bytes};

fn is_orig(form: Form) -> bool
    ensures { result ≡ is_orig form }
{
    matches!(form, Form::Orig)
}

/// How many variables stand in front of the orig ones.
pub(crate) fn own_len(vars: &[VarInfo]) -> usize
    ensures value { result ≡ own_len vars.now }
    ensures within { result ≤ length vars.now }
{
    for (i, var) in vars.iter().enumerate() {
        if is_orig(var.form) {
            return i;
        }
    }
    vars.len()
}

fn same_kind(a: Kind, b: Kind) -> bool
    ensures { result ≡ same_kind a b }
{
    a == b
}

// The name in an orig variable's name, which stands behind `orig(` and in front of `)`.
fn inner_name(name: &[u8]) -> &[u8]
    ensures { result.now ≡ inner_name name.now }
{
    if name.len() < 6 {
        &[]
    } else {
        &name[5..name.len() - 1]
    }
}

// Whether the orig variable at this place is that of the variable.
fn is_next(origs: &[VarInfo], place: usize, var: &VarInfo) -> bool
    ensures next { result ≡ is_next (drop place origs.now) var.now }
    ensures within { result ≡ true → place < length origs.now }
{
    match origs.get(place) {
        None => false,
        Some(orig) => {
            same_bytes(inner_name(orig.name.as_slice()), var.name.as_slice())
                && same_kind(var.kind, orig.kind)
        }
    }
}

fn with_placed<'a>(
    arena: &'a Arena,
    mut values: Vec<View<'a>, &'a Arena>,
    value: &Value,
) -> Result<Vec<View<'a>, &'a Arena>, NoMemory>
    ensures { IfOk result (λ more. values_of more.items ≡ values_of values.entry.items ++ value.now ∷ []) }
{
    values.push(value.place(arena)?)?;
    Ok(values)
}

// One variable of the entry more: its value goes behind the others if the orig variable at this place is its own, and the next place
// is the one behind it.
fn with_next<'a>(
    arena: &'a Arena,
    values: Vec<View<'a>, &'a Arena>,
    origs: &[VarInfo],
    place: usize,
    var: &VarInfo,
    value: &Value,
) -> Result<(Vec<View<'a>, &'a Arena>, usize), NoMemory>
    ensures { IfOk result (λ r. (exit vars : List Variable) (left whole : List Kept)
        → IsPassed exit (var.now ∷ vars) (value.now ∷ left) (drop place origs.now) (values_of values.entry.items) whole
        → IsPassed exit vars left (drop r.1 origs.now) (values_of r.0.items) whole) }
{
    if is_next(origs, place, var) {
        let more = with_placed(arena, values, value)?;
        Ok((more, place + 1))
    } else {
        Ok((values, place))
    }
}

/// The values, and behind them those of the entry whose variables have an orig one.
pub(crate) fn with_origs<'a>(
    arena: &'a Arena,
    values: Vec<View<'a>, &'a Arena>,
    entry: &[VarInfo],
    kept: &[Value],
    origs: &[VarInfo],
) -> Result<Vec<View<'a>, &'a Arena>, NoMemory>
    ensures { IfOk result (λ more. (exit : List Variable) → origs.now ≡ orig_vars entry.now exit
        → values_of more.items ≡ values_of values.entry.items ++ orig_values entry.now exit kept.now) }
{
    let mut more = values;
    let mut place = 0;
    for (i, var) in entry.iter().enumerate() {
        let Some(value) = kept.get(i) else {
            return Ok(more);
        };
        (more, place) = with_next(arena, more, origs, place, var, value)?;
    }
    Ok(more)
}
