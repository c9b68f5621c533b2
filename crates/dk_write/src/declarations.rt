// The lines of a declaration.
ghost use Rattle.std.specs.Prelude.{◌≡◌, ◌++◌, ◌∷◌, [], OnOk, flat_map, map};
ghost use Rattle.dk_lines.specs.Passing.{joined};
ghost use Rattle.dk_write.specs.Declarations.{compar_line, compar_text, constant_lines, counterpart_line, counterpart_lines, declaration_lines, edge_line, point_line, rep_line, rep_text, var_lines, variable_line};

use crate::names::push_escaped;
use crate::values::push_constant;
use dk_base::{Compar, Kind, NoMemory, Text};
use dk_decl::{EdgeDecl, ParentVar, PointDecl, VarDecl};
use std::alloc::Global;

/// The rep-type of a kind; that of an opaque variable is `double`.
pub fn rep_text(kind: Option<Kind>) -> &'static [u8]
    ensures { result.now ≡ rep_text kind }
{
    match kind {
        None => b"double",
        Some(Kind::Bool) => b"boolean",
        Some(Kind::Int) => b"int",
        Some(Kind::Hash) => b"hashcode",
        Some(Kind::Str) => b"java.lang.String",
        Some(Kind::BoolSeq) => b"boolean[]",
        Some(Kind::IntSeq) => b"int[]",
        Some(Kind::HashSeq) => b"hashcode[]",
        Some(Kind::StrSeq) => b"java.lang.String[]",
    }
}

fn push_point(text: &mut Text, name: &[u8]) -> Result<(), NoMemory>
    ensures { OnOk result (text.new ≡ text.old ++ joined (point_line name.now ∷ [])) }
{
    text.append(b"ppt ")?;
    push_escaped(text, name)?;
    text.append(b"\n")
}

fn push_edge(text: &mut Text, edge: &EdgeDecl) -> Result<(), NoMemory>
    ensures { OnOk result (text.new ≡ text.old ++ joined (edge_line edge.now ∷ [])) }
{
    text.append(b"parent parent ")?;
    push_escaped(text, edge.parent.as_slice())?;
    text.append(b" ")?;
    text.append_number(edge.id)?;
    text.append(b"\n")
}

fn push_edges(text: &mut Text, edges: &[EdgeDecl]) -> Result<(), NoMemory>
    ensures { OnOk result (text.new ≡ text.old ++ joined (map edge_line edges.now)) }
{
    for edge in edges {
        push_edge(text, edge)?;
    }
    Ok(())
}

fn push_variable(text: &mut Text, name: &[u8]) -> Result<(), NoMemory>
    ensures { OnOk result (text.new ≡ text.old ++ joined (variable_line name.now ∷ [])) }
{
    text.append(b"variable ")?;
    push_escaped(text, name)?;
    text.append(b"\n")
}

fn push_rep_type(text: &mut Text, kind: Option<Kind>) -> Result<(), NoMemory>
    ensures { OnOk result (text.new ≡ text.old ++ joined (rep_line kind ∷ [])) }
{
    text.append(b"rep-type ")?;
    text.append(rep_text(kind))?;
    text.append(b"\n")
}

// `E[I]`
fn push_compar(text: &mut Text, compar: Compar) -> Result<(), NoMemory>
    ensures { OnOk result (text.new ≡ text.old ++ compar_text compar) }
{
    text.append_number(compar.elem)?;
    text.append(b"[")?;
    text.append_number(compar.index)?;
    text.append(b"]")
}

fn push_comparability(text: &mut Text, compar: Compar) -> Result<(), NoMemory>
    ensures { OnOk result (text.new ≡ text.old ++ joined (compar_line compar ∷ [])) }
{
    text.append(b"comparability ")?;
    push_compar(text, compar)?;
    text.append(b"\n")
}

fn push_constant_line(alloc: Global, text: &mut Text, var: &VarDecl) -> Result<(), NoMemory>
    ensures { OnOk result (text.new ≡ text.old ++ joined (constant_lines var.now)) }
{
    if !var.constant_line {
        return Ok(());
    }
    text.append(b"constant ")?;
    push_constant(alloc, text, &var.constant)?;
    text.append(b"\n")
}

// The line of a counterpart of this name at an edge.
fn push_counterpart_line(text: &mut Text, name: &[u8], edge: &EdgeDecl) -> Result<(), NoMemory>
    ensures { OnOk result (text.new ≡ text.old ++ joined (counterpart_line name.now edge.now ∷ [])) }
{
    text.append(b"parent ")?;
    push_escaped(text, edge.parent.as_slice())?;
    text.append(b" ")?;
    text.append_number(edge.id)?;
    text.append(b" ")?;
    push_escaped(text, name)?;
    text.append(b"\n")
}

fn push_counterpart(
    text: &mut Text,
    edges: &[EdgeDecl],
    counterpart: &ParentVar,
) -> Result<(), NoMemory>
    ensures { OnOk result (text.new ≡ text.old ++ joined (counterpart_lines edges.now counterpart.now)) }
{
    match edges.get(counterpart.edge as usize) {
        Some(edge) => push_counterpart_line(text, counterpart.name.as_slice(), edge),
        None => Ok(()),
    }
}

fn push_counterparts(
    text: &mut Text,
    edges: &[EdgeDecl],
    counterparts: &[ParentVar],
) -> Result<(), NoMemory>
    ensures { OnOk result (text.new ≡ text.old ++ joined (flat_map (counterpart_lines edges.now) counterparts.now)) }
{
    for counterpart in counterparts {
        push_counterpart(text, edges, counterpart)?;
    }
    Ok(())
}

// The lines of a variable of a declaration with these edges.
fn push_var(
    alloc: Global,
    text: &mut Text,
    edges: &[EdgeDecl],
    var: &VarDecl,
) -> Result<(), NoMemory>
    ensures { OnOk result (text.new ≡ text.old ++ joined (var_lines edges.now var.now)) }
{
    push_variable(text, var.name.as_slice())?;
    push_rep_type(text, var.kind)?;
    push_comparability(text, var.compar)?;
    push_constant_line(alloc, text, var)?;
    push_counterparts(text, edges, var.parents.as_slice())
}

fn push_vars(
    alloc: Global,
    text: &mut Text,
    edges: &[EdgeDecl],
    vars: &[VarDecl],
) -> Result<(), NoMemory>
    ensures { OnOk result (text.new ≡ text.old ++ joined (flat_map (var_lines edges.now) vars.now)) }
{
    for var in vars {
        push_var(alloc, text, edges, var)?;
    }
    Ok(())
}

/// The lines of a declaration, behind the text: `ppt NAME`, a line for each edge, and for each variable its name, rep-type and comparability,
/// its constant, if it has one, and its counterparts. No blank line stands behind them. After an error the text may hold a part of it.
pub fn push_declaration(alloc: Global, text: &mut Text, decl: &PointDecl) -> Result<(), NoMemory>
    ensures { OnOk result (text.new ≡ text.old ++ joined (declaration_lines decl.now)) }
{
    push_point(text, decl.name.as_slice())?;
    push_edges(text, decl.edges.as_slice())?;
    push_vars(alloc, text, decl.edges.as_slice(), decl.vars.as_slice())
}
