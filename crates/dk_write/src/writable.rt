// What can be written, so that it is read back.
ghost use Rattle.std.specs.Prelude.{◌≡◌, ◌==◌, ◌&&◌, [], IfOk, is_some, length};
ghost use Rattle.std.specs.List.{list_all, zip};
ghost use Rattle.dk_base.specs.Names.{escaped};
ghost use Rattle.dk_base.specs.Values.{value_of, values_of};
ghost use Rattle.dk_decl.specs.Headers.{first_header, header_line};
ghost use Rattle.dk_write.specs.Records.{Recorded};
ghost use Rattle.dk_write.specs.Names.{is_line as is_line_of, is_word as is_word_of};
ghost use Rattle.dk_write.specs.Writable.{begins_record, can_declare, can_record, has_constant, is_known_edge, is_known_var, is_nonce_name, is_told_counterpart, is_told_edge, is_told_value, is_told_var, none_twice};

use crate::names::{is_line, is_word};
use crate::values::{is_missing, is_value_of};
use dk_base::{Arena, NoMemory, Value, View, escape, same_bytes};
use dk_blocks::{is_comment, is_declaration, is_list_of_implementors};
use dk_decl::{EdgeDecl, Header, ParentVar, PointDecl, VarDecl};
use std::alloc::Global;

// Whether the spelling of a name stands as a line.
fn is_name(alloc: Global, name: &[u8]) -> Result<bool, NoMemory>
    ensures { IfOk result (λ is. is ≡ is_line_of (escaped name.now)) }
{
    let spelled = escape(alloc, name)?;
    Ok(is_line(spelled.as_slice()))
}

// Whether the spelling of a name stands as a word.
fn is_name_word(alloc: Global, name: &[u8]) -> Result<bool, NoMemory>
    ensures { IfOk result (λ is. is ≡ is_word_of (escaped name.now)) }
{
    let spelled = escape(alloc, name)?;
    Ok(is_word(spelled.as_slice()))
}

fn is_known_edge(edge: &EdgeDecl, others: &[EdgeDecl]) -> bool
    ensures { result ≡ is_known_edge edge.now others.now }
{
    for other in others {
        if same_bytes(other.parent.as_slice(), edge.parent.as_slice()) && other.id == edge.id {
            return true;
        }
    }
    false
}

fn is_known_var(var: &VarDecl, others: &[VarDecl]) -> bool
    ensures { result ≡ is_known_var var.now others.now }
{
    for other in others {
        if same_bytes(var.name.as_slice(), other.name.as_slice()) {
            return true;
        }
    }
    false
}

#[tactic(auto, using(crate::proofs::Loops::twice_more, crate::proofs::Loops::twice_found))]
fn no_edge_twice(edges: &[EdgeDecl]) -> bool
    ensures { result ≡ none_twice is_known_edge [] edges.now }
{
    for i in 0..edges.len() {
        if is_known_edge(&edges[i], &edges[..i]) {
            return false;
        }
    }
    true
}

#[tactic(auto, using(crate::proofs::Loops::twice_more, crate::proofs::Loops::twice_found))]
fn no_var_twice(vars: &[VarDecl]) -> bool
    ensures { result ≡ none_twice is_known_var [] vars.now }
{
    for i in 0..vars.len() {
        if is_known_var(&vars[i], &vars[..i]) {
            return false;
        }
    }
    true
}

fn are_told_edges(alloc: Global, edges: &[EdgeDecl]) -> Result<bool, NoMemory>
    ensures { IfOk result (λ are. are ≡ list_all is_told_edge edges.now) }
{
    for edge in edges {
        if !is_name_word(alloc, edge.parent.as_slice())? {
            return Ok(false);
        }
    }
    Ok(true)
}

fn is_told_counterpart(
    alloc: Global,
    edges: &[EdgeDecl],
    counterpart: &ParentVar,
) -> Result<bool, NoMemory>
    ensures { IfOk result (λ is. is ≡ is_told_counterpart edges.now counterpart.now) }
{
    let is_word = is_name_word(alloc, counterpart.name.as_slice())?;
    Ok(edges.get(counterpart.edge as usize).is_some() && is_word)
}

fn are_told_counterparts(
    alloc: Global,
    edges: &[EdgeDecl],
    counterparts: &[ParentVar],
) -> Result<bool, NoMemory>
    ensures { IfOk result (λ are. are ≡ list_all (is_told_counterpart edges.now) counterparts.now) }
{
    for counterpart in counterparts {
        if !is_told_counterpart(alloc, edges, counterpart)? {
            return Ok(false);
        }
    }
    Ok(true)
}

// Whether a variable of a kind can have this constant, if it is there.
fn has_constant(alloc: Global, var: &VarDecl) -> Result<bool, NoMemory>
    ensures { IfOk result (λ has. has ≡ has_constant var.now.kind var.now.constant_line var.now.constant) }
{
    if !var.constant_line || var.kind.is_none() {
        return Ok(var.constant.is_none());
    }
    match &var.constant {
        None => Ok(false),
        Some(value) => {
            let arena = Arena::new(alloc);
            let view = value.place(&arena)?;
            let is_value = is_value_of(alloc, var.kind, view)?;
            Ok(!is_missing(view) && is_value)
        }
    }
}

fn is_told_var(alloc: Global, edges: &[EdgeDecl], var: &VarDecl) -> Result<bool, NoMemory>
    ensures { IfOk result (λ is. is ≡ is_told_var edges.now var.now) }
{
    let is_name = is_name(alloc, var.name.as_slice())?;
    let has_constant = has_constant(alloc, var)?;
    let are_told = are_told_counterparts(alloc, edges, var.parents.as_slice())?;
    Ok(is_name && has_constant && are_told)
}

fn are_told_vars(alloc: Global, edges: &[EdgeDecl], vars: &[VarDecl]) -> Result<bool, NoMemory>
    ensures { IfOk result (λ are. are ≡ list_all (is_told_var edges.now) vars.now) }
{
    for var in vars {
        if !is_told_var(alloc, edges, var)? {
            return Ok(false);
        }
    }
    Ok(true)
}

/// Whether the lines of a declaration tell it: the spellings of its names stand as lines, and among words as words, no edge and no variable
/// comes twice, counterparts are at its edges, and constants are values of their kinds.
#[tactic(auto, unfolding(crate::specs::Writable::can_declare))]
pub fn can_declare(alloc: Global, decl: &PointDecl) -> Result<bool, NoMemory>
    ensures { IfOk result (λ can. can ≡ can_declare decl.now) }
{
    let edges = decl.edges.as_slice();
    let vars = decl.vars.as_slice();
    let is_name = is_name(alloc, decl.name.as_slice())?;
    let are_edges = are_told_edges(alloc, edges)?;
    let are_vars = are_told_vars(alloc, edges, vars)?;
    Ok(is_name && (no_edge_twice(edges) && are_edges) && (no_var_twice(vars) && are_vars))
}

fn is_header_line(line: &[u8]) -> bool
    ensures { result ≡ is_some (header_line first_header line.now) }
{
    let mut header = Header::new();
    match header.line(line) {
        Ok(is_header) => is_header,
        Err(_) => true,
    }
}

// Whether a record begins at this line.
#[tactic(auto, unfolding(crate::specs::Writable::begins_record))]
fn begins_record(line: &[u8]) -> bool
    ensures { result ≡ begins_record line.now }
{
    !is_comment(line)
        && !is_header_line(line)
        && !is_declaration(line)
        && !is_list_of_implementors(line)
}

// Whether the name's line stands in front of a nonce.
fn is_nonce_name(alloc: Global, var: &VarDecl) -> Result<bool, NoMemory>
    ensures { IfOk result (λ is. is ≡ is_nonce_name var.now) }
{
    let spelled = escape(alloc, var.name.as_slice())?;
    Ok(same_bytes(spelled.as_slice(), b"this_invocation_nonce"))
}

fn is_told_value(alloc: Global, var: &VarDecl, view: View<'_>) -> Result<bool, NoMemory>
    ensures { IfOk result (λ is. is ≡ is_told_value (var.now, value_of view.entry)) }
{
    let is_nonce = is_nonce_name(alloc, var)?;
    let is_value = is_value_of(alloc, var.kind, view)?;
    Ok(var.constant_line || (!is_nonce && is_value))
}

fn are_told_values(alloc: Global, vars: &[VarDecl], values: &[View<'_>]) -> Result<bool, NoMemory>
    ensures { IfOk result (λ are. are ≡ list_all is_told_value (zip vars.now (values_of values.now))) }
{
    for i in 0..vars.len().min(values.len()) {
        if !is_told_value(alloc, &vars[i], values[i])? {
            return Ok(false);
        }
    }
    Ok(true)
}

/// Whether the lines of a record of a declared point tell it: its first line is no comment, no header line and no other block's first line,
/// there is a value for each variable, each is one that the variable can have, and no variable is named as the line in front of a nonce.
#[tactic(auto, unfolding(crate::specs::Writable::can_record))]
pub fn can_record(
    alloc: Global,
    decl: &PointDecl,
    nonce: Option<i64>,
    values: &[View<'_>],
) -> Result<bool, NoMemory>
    ensures { let recorded : Recorded = record { decl = decl.now; nonce = nonce; values = values_of values.now } in IfOk result (λ can. can ≡ can_record recorded) }
{
    let vars = decl.vars.as_slice();
    let spelled = escape(alloc, decl.name.as_slice())?;
    let are_values = are_told_values(alloc, vars, values)?;
    Ok(begins_record(spelled.as_slice()) && (vars.len() == values.len() && are_values))
}
