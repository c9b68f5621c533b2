// The lines of a `ppt` block in front of its first variable.
ghost use Rattle.std.specs.Prelude.{◌≡◌, map};
ghost use Rattle.std.specs.Char.{to_ascii_lowercase};
ghost use Rattle.std.specs.List.{list_any, position};
ghost use Rattle.std.specs.Str.{bytes_eq};
ghost use Rattle.dk_decl.specs.Heads.{head_line, id_of, is_edge, is_point_type, parent_line, with_edge, with_relation};
ghost use Rattle.dk_decl.specs.Outcomes.{AnswerAgrees};

use crate::decls::EdgeDecl;
use crate::line_words::{begins, operand, operands};
use crate::outcomes::{bad_point, in_memory};
use dk_base::{BlockFault, List, Text, parse_natural, same_bytes, unescape};
use std::alloc::Global;

/// A decimal number below 2^32.
#[tactic(auto, unfolding(crate::specs::Heads::id_of))]
pub(crate) fn id_of(text: &[u8]) -> Option<u32>
    ensures { result ≡ id_of text.now }
{
    match parse_natural(text) {
        Some(id) => if id < 1 << 32 { Some(id as u32) } else { None },
        None => None,
    }
}

/// The place of an edge of the block.
pub(crate) fn edge_at(edges: &List<EdgeDecl>, parent: &[u8], id: u32) -> Option<usize>
    ensures { result ≡ position (is_edge parent.now id) edges.now }
{
    edges
        .as_slice()
        .iter()
        .position(|e| same_bytes(e.parent.as_slice(), parent) && e.id == id)
}

fn has_edge(edges: &List<EdgeDecl>, parent: &[u8], id: u32) -> bool
    ensures { result ≡ list_any (is_edge parent.now id) edges.now }
{
    edges
        .as_slice()
        .iter()
        .any(|e| same_bytes(e.parent.as_slice(), parent) && e.id == id)
}

fn with_edge(
    mut edges: List<EdgeDecl>,
    line: u64,
    parent: Text,
    id: Option<u32>,
) -> Result<List<EdgeDecl>, BlockFault>
    ensures { AnswerAgrees result (with_edge edges line parent id) }
{
    match id {
        None => Err(bad_point(line)),
        Some(id) => {
            if has_edge(&edges, parent.as_slice(), id) {
                return Err(bad_point(line));
            }
            in_memory(edges.push(EdgeDecl { parent, id }))?;
            Ok(edges)
        }
    }
}

fn with_relation(
    edges: List<EdgeDecl>,
    line: u64,
    relation: &[u8],
    parent: Text,
    id: Option<u32>,
) -> Result<List<EdgeDecl>, BlockFault>
    ensures { AnswerAgrees result (with_relation edges line relation.now parent id) }
{
    if same_bytes(relation, b"parent") {
        with_edge(edges, line, parent, id)
    } else if id.is_some() {
        Ok(edges)
    } else {
        Err(bad_point(line))
    }
}

#[tactic(auto, unfolding(crate::specs::Heads::parent_line))]
fn parent_line(
    alloc: Global,
    edges: List<EdgeDecl>,
    line: u64,
    words: &[&[u8]],
) -> Result<List<EdgeDecl>, BlockFault>
    ensures { AnswerAgrees result (parent_line edges line (map (λ word. word.now) words.now)) }
{
    match words {
        [relation, parent, id] => {
            let parent = in_memory(unescape(alloc, parent))?;
            with_relation(edges, line, relation, parent, id_of(id))
        }
        _ => Err(bad_point(line)),
    }
}

fn is_in_any_case(text: &[u8], word: &[u8]) -> bool
    ensures { result ≡ bytes_eq (map to_ascii_lowercase text.now) (map to_ascii_lowercase word.now) }
{
    text.eq_ignore_ascii_case(word)
}

#[tactic(auto, unfolding(crate::specs::Heads::is_point_type))]
fn is_point_type(text: &[u8]) -> bool
    ensures { result ≡ is_point_type text.now }
{
    is_in_any_case(text, b"point")
        || is_in_any_case(text, b"class")
        || is_in_any_case(text, b"object")
        || is_in_any_case(text, b"enter")
        || is_in_any_case(text, b"exit")
        || is_in_any_case(text, b"subexit")
}

/// The edges with one more line in front of the first variable.
#[tactic(auto, unfolding(crate::specs::Heads::head_line))]
pub(crate) fn head_line(
    alloc: Global,
    edges: List<EdgeDecl>,
    line: u64,
    bytes: &[u8],
) -> Result<List<EdgeDecl>, BlockFault>
    ensures { AnswerAgrees result (head_line edges (record { number = line; bytes = bytes.now })) }
{
    if begins(b"ppt-type", bytes) {
        if is_point_type(operand(bytes)) {
            Ok(edges)
        } else {
            Err(bad_point(line))
        }
    } else if begins(b"parent", bytes) {
        let words = in_memory(operands(alloc, bytes))?;
        parent_line(alloc, edges, line, words.as_slice())
    } else {
        Ok(edges)
    }
}
