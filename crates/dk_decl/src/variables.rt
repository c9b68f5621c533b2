// The lines of a variable in a `ppt` block.
ghost use Rattle.std.specs.Prelude.{◌≡◌, map, option_map};
ghost use Rattle.dk_decl.specs.Outcomes.{AnswerAgrees};
ghost use Rattle.dk_decl.specs.Variables.{at_edge, counterparts, open_var, var_decl_of, var_line, with_counterparts};

use crate::brackets::compar_of;
use crate::decls::{EdgeDecl, ParentVar, VarDecl};
use crate::heads::{edge_at, id_of};
use crate::line_words::{begins, operand, operands};
use crate::outcomes::{bad_variable, in_memory, or_bad_variable};
use crate::types::{Placed, RepType, constant_at, rep_kind, rep_type_of};
use crate::vars::Vars;
use dk_base::{BlockFault, Compar, List, Text, unescape};
use std::alloc::Global;

/// A variable whose lines are being read.
#[derive(Drop)]
pub(crate) struct OpenVar {
    pub(crate) line: u64,
    pub(crate) name: Text,
    pub(crate) rep: Option<RepType>,
    pub(crate) compar: Compar,
    pub(crate) constant: Option<Placed>,
    pub(crate) parents: List<ParentVar>,
}

/// Of a variable without a comparability line, or under the word `none`.
pub(crate) const NO_COMPAR: Compar = Compar {
    elem: -1,
    index: -1,
};

/// The variable that a `variable` line opens.
#[tactic(auto, unfolding(crate::specs::Variables::open_var))]
pub(crate) fn open_var(
    alloc: Global,
    vars: &Vars,
    line: u64,
    bytes: &[u8],
) -> Result<OpenVar, BlockFault>
    ensures { AnswerAgrees result (open_var vars.now (record { number = line; bytes = bytes.now })) }
{
    let rest = operand(bytes);
    if rest.is_empty() {
        return Err(bad_variable(line));
    }
    let name = in_memory(unescape(alloc, rest))?;
    if vars.has(name.as_slice()) {
        return Err(bad_variable(line));
    }
    Ok(OpenVar {
        line,
        name,
        rep: None,
        compar: NO_COMPAR,
        constant: None,
        parents: List::new(alloc),
    })
}

fn with_counterpart(
    edges: &List<EdgeDecl>,
    mut parents: List<ParentVar>,
    line: u64,
    parent: &[u8],
    name: Text,
    id: Option<u32>,
) -> Result<List<ParentVar>, BlockFault>
    ensures { AnswerAgrees result (with_counterparts parents line (option_map (at_edge edges.now parent.now name) id)) }
{
    match id {
        None => Err(bad_variable(line)),
        Some(id) => match edge_at(edges, parent, id) {
            None => Ok(parents),
            Some(edge) => {
                in_memory(parents.push(ParentVar {
                    edge: edge as u64,
                    name,
                }))?;
                Ok(parents)
            }
        },
    }
}

#[tactic(auto, unfolding(crate::specs::Variables::counterparts))]
fn with_counterparts(
    alloc: Global,
    edges: &List<EdgeDecl>,
    own: &Text,
    parents: List<ParentVar>,
    line: u64,
    words: &[&[u8]],
) -> Result<List<ParentVar>, BlockFault>
    ensures { AnswerAgrees result (with_counterparts parents line (counterparts edges.now own.now (map (λ word. word.now) words.now))) }
{
    match words {
        [parent, id] => {
            let parent = in_memory(unescape(alloc, parent))?;
            let name = in_memory(Text::from_slice(alloc, own.as_slice()))?;
            with_counterpart(edges, parents, line, parent.as_slice(), name, id_of(id))
        }
        [parent, id, name] => {
            let parent = in_memory(unescape(alloc, parent))?;
            let name = in_memory(unescape(alloc, name))?;
            with_counterpart(edges, parents, line, parent.as_slice(), name, id_of(id))
        }
        _ => Err(bad_variable(line)),
    }
}

/// A variable with one line more.
#[tactic(auto, unfolding(crate::specs::Variables::var_line))]
pub(crate) fn var_line(
    alloc: Global,
    implicit: bool,
    edges: &List<EdgeDecl>,
    current: OpenVar,
    line: u64,
    bytes: &[u8],
) -> Result<OpenVar, BlockFault>
    ensures { AnswerAgrees result (var_line implicit edges.now current (record { number = line; bytes = bytes.now })) }
{
    if begins(b"rep-type", bytes) {
        let rep = or_bad_variable(rep_type_of(operand(bytes)), line)?;
        Ok(OpenVar {
            rep: Some(rep),
            ..current
        })
    } else if begins(b"comparability", bytes) && implicit {
        let compar = in_memory(compar_of(alloc, operand(bytes)))?;
        let compar = or_bad_variable(compar, line)?;
        Ok(OpenVar { compar, ..current })
    } else if begins(b"constant", bytes) {
        let text = in_memory(Text::from_slice(alloc, operand(bytes)))?;
        Ok(OpenVar {
            constant: Some(Placed { line, text }),
            ..current
        })
    } else if begins(b"parent", bytes) {
        let words = in_memory(operands(alloc, bytes))?;
        let OpenVar {
            line: begun,
            name,
            rep,
            compar,
            constant,
            parents,
        } = current;
        let parents = with_counterparts(alloc, edges, &name, parents, line, words.as_slice())?;
        Ok(OpenVar {
            line: begun,
            name,
            rep,
            compar,
            constant,
            parents,
        })
    } else {
        Ok(current)
    }
}

/// The variable, judged when it ends.
#[tactic(auto, unfolding(crate::specs::Variables::var_decl_of))]
pub(crate) fn close_var(alloc: Global, current: OpenVar) -> Result<VarDecl, BlockFault>
    ensures { AnswerAgrees result (var_decl_of current) }
{
    let OpenVar {
        line,
        name,
        rep,
        compar,
        constant,
        parents,
    } = current;
    let rep = or_bad_variable(rep, line)?;
    let value = constant_at(alloc, rep, &constant)?;
    Ok(VarDecl {
        name,
        kind: rep_kind(rep),
        compar,
        constant: value,
        constant_line: constant.is_some(),
        parents,
    })
}
