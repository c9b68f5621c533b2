// Declarations, as they are saved.
ghost use Rattle.std.specs.Prelude.{◌≡◌, ◌++◌, OnOk, codes, flat_map, length, unwrap_or};
ghost use Rattle.dk_base.specs.Values.Spelling.{spelling};
ghost use Rattle.dk_state.specs.Declarations.{constant_line, decls_of, edge_line, mapped_line, point_lines, var_decl_line, var_lines};
ghost use Rattle.dk_state.specs.Lines.{behind_blank};

use crate::fields::{end_line, push_field, push_name, push_number, push_value};
use dk_base::{NoMemory, PointId, Text, Value};
use dk_decl::{EdgeDecl, ParentVar, PointDecl, VarDecl};
use dk_points::Points;
use dk_write::rep_text;
use std::alloc::Global;

fn push_edge(text: &mut Text, edge: &EdgeDecl) -> Result<(), NoMemory>
    ensures { OnOk result (text.new ≡ text.old ++ edge_line edge.now) }
{
    text.append(b"edge")?;
    push_number(text, edge.id)?;
    push_name(text, edge.parent.as_slice())?;
    end_line(text)
}

fn push_edges(text: &mut Text, edges: &[EdgeDecl]) -> Result<(), NoMemory>
    ensures { OnOk result (text.new ≡ text.old ++ flat_map edge_line edges.now) }
{
    for edge in edges {
        push_edge(text, edge)?;
    }
    Ok(())
}

// The line of the variable alone.
fn push_var(text: &mut Text, var: &VarDecl) -> Result<(), NoMemory>
    ensures { OnOk result (text.new ≡ text.old ++ var_decl_line var.now) }
{
    text.append(b"var")?;
    push_field(text, rep_text(var.kind))?;
    push_number(text, var.compar.elem)?;
    push_number(text, var.compar.index)?;
    push_name(text, var.name.as_slice())?;
    end_line(text)
}

// The value of a constant as a field, which is missing where the variable has none.
fn push_constant_value(
    alloc: Global,
    text: &mut Text,
    constant: &Option<Value>,
) -> Result<(), NoMemory>
    ensures { OnOk result (text.new ≡ text.old ++ behind_blank (spelling (unwrap_or constant.now Value.Missing))) }
{
    match constant {
        Some(value) => push_value(alloc, text, value),
        None => push_field(text, b"missing"),
    }
}

fn push_constant(alloc: Global, text: &mut Text, var: &VarDecl) -> Result<(), NoMemory>
    ensures { OnOk result (text.new ≡ text.old ++ constant_line var.now) }
{
    if !var.constant_line {
        return Ok(());
    }
    text.append(b"constant")?;
    push_constant_value(alloc, text, &var.constant)?;
    end_line(text)
}

fn push_mapped(text: &mut Text, parent: &ParentVar) -> Result<(), NoMemory>
    ensures { OnOk result (text.new ≡ text.old ++ mapped_line parent.now) }
{
    text.append(b"mapped")?;
    push_number(text, parent.edge)?;
    push_name(text, parent.name.as_slice())?;
    end_line(text)
}

fn push_all_mapped(text: &mut Text, parents: &[ParentVar]) -> Result<(), NoMemory>
    ensures { OnOk result (text.new ≡ text.old ++ flat_map mapped_line parents.now) }
{
    for parent in parents {
        push_mapped(text, parent)?;
    }
    Ok(())
}

// The lines of a variable and what belongs to it.
fn push_var_lines(alloc: Global, text: &mut Text, var: &VarDecl) -> Result<(), NoMemory>
    ensures { OnOk result (text.new ≡ text.old ++ var_lines var.now) }
{
    push_var(text, var)?;
    push_constant(alloc, text, var)?;
    push_all_mapped(text, var.parents.as_slice())
}

fn push_all_vars(alloc: Global, text: &mut Text, vars: &[VarDecl]) -> Result<(), NoMemory>
    ensures { OnOk result (text.new ≡ text.old ++ flat_map var_lines vars.now) }
{
    for var in vars {
        push_var_lines(alloc, text, var)?;
    }
    Ok(())
}

// The lines of a declaration.
fn push_point(alloc: Global, text: &mut Text, decl: &PointDecl) -> Result<(), NoMemory>
    ensures { OnOk result (text.new ≡ text.old ++ point_lines decl.now) }
{
    text.append(b"point")?;
    push_name(text, decl.name.as_slice())?;
    end_line(text)?;
    push_edges(text, decl.edges.as_slice())?;
    push_all_vars(alloc, text, decl.vars.as_slice())?;
    text.append(b"end\n")
}

/// How many points are declared.
pub(crate) fn declared_count(points: &Points) -> u32
    ensures { result ≡ length (decls_of points.now) }
{
    let mut count = 0;
    for p in 0..points.len() {
        if points.decl(PointId(p)).is_some() {
            count += 1;
        }
    }
    count
}

/// The lines of all declarations, behind the text.
pub(crate) fn push_points(alloc: Global, text: &mut Text, points: &Points) -> Result<(), NoMemory>
    ensures { OnOk result (text.new ≡ text.old ++ flat_map point_lines (decls_of points.now)) }
{
    for p in 0..points.len() {
        if let Some(decl) = points.decl(PointId(p)) {
            push_point(alloc, text, decl)?;
        }
    }
    Ok(())
}
