// Which declarations a block can give.
ghost use Rattle.std.specs.Prelude.{◌≡◌, ◌++◌, ◌&&◌, [], IfOk, length, map};
ghost use Rattle.std.specs.List.{list_all};
ghost use Rattle.dk_decl.specs.Types.{is_missing};
ghost use Rattle.dk_state.specs.Given.{all_new, edge_key, is_given_constant, is_given_counterpart, is_given_edge, is_given_point, is_given_var, is_name};

use crate::fields::{push_field, push_number};
use dk_base::{NoMemory, Text, Value, same_bytes};
use dk_decl::{EdgeDecl, ParentVar, PointDecl, VarDecl};
use dk_graph::Names;
use dk_write::has_none;
use std::alloc::Global;

const TAB: u8 = b'\t';

// Whether a line can tell this name.
fn is_name(name: &[u8]) -> bool
    ensures { result ≡ is_name name.now }
{
    !name.is_empty() && name[0] != TAB && name[name.len() - 1] != TAB && has_none(b'\n', name)
}

fn is_edge(edge: &EdgeDecl) -> bool
    ensures { result ≡ is_given_edge edge.now }
{
    is_name(edge.parent.as_slice()) && has_none(TAB, edge.parent.as_slice())
}

fn is_mapped(mapped: &ParentVar, own: &[u8], edges: usize) -> bool
    ensures { result ≡ is_given_counterpart own.now edges mapped.now }
{
    let name = mapped.name.as_slice();
    mapped.edge < edges as u64 && is_name(name) && (has_none(TAB, name) || same_bytes(name, own))
}

fn are_mapped(parents: &[ParentVar], own: &[u8], edges: usize) -> bool
    ensures { result ≡ list_all (is_given_counterpart own.now edges) parents.now }
{
    for mapped in parents {
        if !is_mapped(mapped, own, edges) {
            return false;
        }
    }
    true
}

fn is_missing(value: &Value) -> bool
    ensures { result ≡ is_missing value.now }
{
    matches!(value, Value::Missing)
}

// Whether the variable, which is opaque or has a kind, can have its constant.
fn is_constant(var: &VarDecl) -> bool
    ensures { result ≡ is_given_constant var.now.constant_line var.now.kind var.now.constant }
{
    match &var.constant {
        None => !var.constant_line || var.kind.is_none(),
        Some(value) => var.constant_line && !is_missing(value),
    }
}

fn is_var(var: &VarDecl, edges: usize) -> bool
    ensures { result ≡ is_given_var edges var.now }
{
    is_name(var.name.as_slice())
        && is_constant(var)
        && are_mapped(var.parents.as_slice(), var.name.as_slice(), edges)
}

fn are_vars(vars: &[VarDecl], edges: usize) -> bool
    ensures { result ≡ list_all (is_given_var edges) vars.now }
{
    for var in vars {
        if !is_var(var, edges) {
            return false;
        }
    }
    true
}

fn are_edges(edges: &[EdgeDecl]) -> bool
    ensures { result ≡ list_all is_given_edge edges.now }
{
    for edge in edges {
        if !is_edge(edge) {
            return false;
        }
    }
    true
}

// Whether no two variables have one name.
fn names_differ(alloc: Global, vars: &[VarDecl]) -> Result<bool, NoMemory>
    ensures { IfOk result (λ differ. differ ≡ all_new [] (map (λ v. v.name) vars.now)) }
{
    let mut names = Names::new(alloc);
    for var in vars {
        if names.find(var.name.as_slice()).is_some() {
            return Ok(false);
        }
        names.push(var.name.as_slice())?;
    }
    Ok(true)
}

// The edge's ID and the parent's name.
fn edge_key(alloc: Global, edge: &EdgeDecl) -> Result<Text, NoMemory>
    ensures { IfOk result (λ key. key ≡ edge_key edge.now) }
{
    let mut key = Text::new(alloc);
    push_number(&mut key, edge.id)?;
    push_field(&mut key, edge.parent.as_slice())?;
    Ok(key)
}

// Whether no two edges have one parent and ID.
fn edges_differ(alloc: Global, edges: &[EdgeDecl]) -> Result<bool, NoMemory>
    ensures { IfOk result (λ differ. differ ≡ all_new [] (map edge_key edges.now)) }
{
    let mut keys = Names::new(alloc);
    for edge in edges {
        let key = edge_key(alloc, edge)?;
        if keys.find(key.as_slice()).is_some() {
            return Ok(false);
        }
        keys.push(key.as_slice())?;
    }
    Ok(true)
}

/// Whether a block can give this declaration, whose numbers and constants fit.
pub(crate) fn is_given(alloc: Global, decl: &PointDecl) -> Result<bool, NoMemory>
    ensures { IfOk result (λ given. given ≡ is_given_point decl.now) }
{
    let edges = decl.edges.as_slice();
    let vars = decl.vars.as_slice();
    let edges_differ = edges_differ(alloc, edges)?;
    let names_differ = names_differ(alloc, vars)?;
    Ok(
        is_name(decl.name.as_slice())
            && (edges_differ && are_edges(edges))
            && (names_differ && are_vars(vars, edges.len())),
    )
}
