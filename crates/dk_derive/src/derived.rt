// Base variables with what is derived of them.
ghost use Rattle.std.specs.Prelude.{◌≡◌, ◌&&◌, ◌++◌, ◌∷◌, [], ◌<◌, ◌^◌, All, IfOk, OnOk, Some, length, map, slice_get};
ghost use Rattle.std.specs.Bool.{beq};
ghost use Rattle.std.specs.List.{enumerate_from, flat_map};
ghost use Rattle.dk_base.specs.Shapes.{AreWithDerived, by_index, is_int, is_orig, of_sequence, shape, shape_of, with_derived};
ghost use Rattle.dk_derive.specs.Names.{compar_over};
ghost use Rattle.dk_derive.specs.Vars.{derived_var, var_over, with_derived_vars};
ghost use Rattle.dk_points.specs.Laws.{IsBaseVar};

use crate::forms::element_kind;
use crate::names::name_over;
use dk_base::{Compar, Form, Kind, List, NoMemory, Text, VarId, VarInfo};
use dk_points::{is_int, is_orig, is_sequence, plain_name};
use std::alloc::Global;

// The comparability of a form over a sequence.
fn compar_over(sequence: Compar, form: Form) -> Compar
    ensures { result ≡ compar_over sequence form }
{
    match form {
        Form::Size(_) => Compar {
            elem: sequence.index,
            index: -1,
        },
        Form::First(_) | Form::Last(_) | Form::At(_, _) => Compar {
            elem: sequence.elem,
            index: -1,
        },
        _ => sequence,
    }
}

// The variable of this kind and form over a sequence and an index.
fn var_over(
    alloc: Global,
    sequence: &VarInfo,
    index: &VarInfo,
    kind: Kind,
    form: Form,
) -> Result<VarInfo, NoMemory>
    ensures { IfOk result (λ var. var ≡ var_over sequence.now index.now (shape kind form)) }
{
    Ok(VarInfo {
        name: name_over(
            alloc,
            is_orig(sequence.form),
            plain_name(sequence),
            plain_name(index),
            form,
        )?,
        kind,
        form,
        compar: compar_over(sequence.compar, form),
    })
}

fn push_var(
    alloc: Global,
    vars: &mut List<VarInfo>,
    sequence: &VarInfo,
    index: &VarInfo,
    kind: Kind,
    form: Form,
) -> Result<(), NoMemory>
    ensures { OnOk result (vars.new ≡ vars.old ++ var_over sequence.now index.now (shape kind form) ∷ []) }
{
    vars.push(var_over(alloc, sequence, index, kind, form)?)
}

// Whether the variable is an index for the sequence.
fn is_index(index: &VarInfo, sequence: &VarInfo) -> bool
    ensures { result ≡ (is_int index.now.kind && beq (is_orig index.now.form) (is_orig sequence.now.form)) }
{
    is_int(index.kind) && is_orig(index.form) == is_orig(sequence.form)
}

// What the sequence gives by a variable: an element and four slices, if that is an index for it.
fn push_by_index(
    alloc: Global,
    vars: &mut List<VarInfo>,
    s: VarId,
    sequence: &VarInfo,
    i: VarId,
    index: &VarInfo,
) -> Result<(), NoMemory>
    ensures { OnOk result (vars.new ≡ vars.old ++ map (var_over sequence.now index.now) (by_index (s.0, shape_of sequence.now) (i.0, shape_of index.now))) }
{
    if !is_index(index, sequence) {
        return Ok(());
    }
    let kind = sequence.kind;
    push_var(
        alloc,
        vars,
        sequence,
        index,
        element_kind(kind),
        Form::At(s, i),
    )?;
    push_var(alloc, vars, sequence, index, kind, Form::Upto(s, i))?;
    push_var(alloc, vars, sequence, index, kind, Form::Before(s, i))?;
    push_var(alloc, vars, sequence, index, kind, Form::Since(s, i))?;
    push_var(alloc, vars, sequence, index, kind, Form::After(s, i))
}

// What the sequence gives by each variable.
fn push_by_indices(
    alloc: Global,
    vars: &mut List<VarInfo>,
    base: &[VarInfo],
    s: VarId,
    sequence: &VarInfo,
) -> Result<(), NoMemory>
    requires few { length base.now < 2 ^ 32 }
    requires there { slice_get base.now s.0 ≡ Some sequence.now }
    ensures { OnOk result (vars.new ≡ vars.old ++ map (derived_var base.now) (flat_map (by_index (s.0, shape_of sequence.now)) (enumerate_from 0 (map shape_of base.now)))) }
{
    for (place, index) in base.iter().enumerate() {
        push_by_index(alloc, vars, s, sequence, VarId(place as u32), index)?;
    }
    Ok(())
}

// What the variable gives, if it is a sequence: its size, its first and its last element, and what each index gives.
fn push_of_sequence(
    alloc: Global,
    vars: &mut List<VarInfo>,
    base: &[VarInfo],
    s: VarId,
    sequence: &VarInfo,
) -> Result<(), NoMemory>
    requires few { length base.now < 2 ^ 32 }
    requires there { slice_get base.now s.0 ≡ Some sequence.now }
    ensures { OnOk result (vars.new ≡ vars.old ++ map (derived_var base.now) (of_sequence (enumerate_from 0 (map shape_of base.now)) (s.0, shape_of sequence.now))) }
{
    if !is_sequence(sequence.kind) {
        return Ok(());
    }
    let element = element_kind(sequence.kind);
    push_var(alloc, vars, sequence, sequence, Kind::Int, Form::Size(s))?;
    push_var(alloc, vars, sequence, sequence, element, Form::First(s))?;
    push_var(alloc, vars, sequence, sequence, element, Form::Last(s))?;
    push_by_indices(alloc, vars, base, s, sequence)
}

fn copy_vars(alloc: Global, vars: &[VarInfo]) -> Result<List<VarInfo>, NoMemory>
    ensures { IfOk result (λ copy. copy ≡ vars.now) }
{
    let mut copy = List::new(alloc);
    for var in vars {
        copy.push(VarInfo {
            name: Text::from_slice(alloc, var.name.as_slice())?,
            kind: var.kind,
            form: var.form,
            compar: var.compar,
        })?;
    }
    Ok(copy)
}

/// The base variables, and behind them those that are derived of them: for each sequence in order its size, its first and its last
/// element, and then, for each whole number that is orig exactly where the sequence is, the element at it and four slices.
pub fn derive(alloc: Global, base: &[VarInfo]) -> Result<List<VarInfo>, NoMemory>
    requires base { All IsBaseVar base.now }
    requires few { length (with_derived (map shape_of base.now)) < 2 ^ 32 }
    ensures vars { IfOk result (λ all. all ≡ with_derived_vars base.now) }
    ensures shapes { IfOk result AreWithDerived }
    ensures len { IfOk result (λ all. length all ≡ length (with_derived (map shape_of base.now))) }
{
    let mut vars = copy_vars(alloc, base)?;
    for (place, sequence) in base.iter().enumerate() {
        push_of_sequence(alloc, &mut vars, base, VarId(place as u32), sequence)?;
    }
    Ok(vars)
}
