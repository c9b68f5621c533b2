// Records that stand whole in the bytes at hand.
ghost use Rattle.std.specs.Prelude.{◌≡◌, ◌≢◌, ◌≤◌, ◌<◌, ◌++◌, ◌∷◌, ℕ, List, IfOk, IfSome, IsTrue, MatchOption, false, true, length};
ghost use Rattle.dk_base.specs.Values.{values_of as shown_by};
ghost use Rattle.dk_lines.specs.Passing.{HasNoLf};
ghost use Rattle.dk_points.specs.Bare.{have_bare_names, is_bare_name};
ghost use Rattle.dk_trace.specs.Answers.{shown_value};
ghost use Rattle.dk_trace.specs.Whole.{BodyStands, IsCut, IsPushed, IsTidy, MarkStands, NumberStands, StandsWhole, TextStands, ValuesStand, VariableStands};

use crate::marks::Unmarked;
use crate::reader::{point_named_by, var_decls_at};
use crate::recent::Recent;
use crate::sample::BaseSample;
use crate::values::{push_constant, push_shown};
use bumpalo::collections::into_bump_slice;
use dk_base::{Arena, BlockFault, Kind, NoMemory, View, parse_integer, same_bytes, short_number};
use dk_decl::VarDecl;
use dk_points::Points;
use memchr::memchr;
use std::alloc::Global;

/// A record that stands whole at the front of some bytes.
#[derive(Clone, Copy)]
pub struct Whole<'a> {
    pub sample: BaseSample<'a>,
    /// How many bytes its first line has, without the LF.
    pub first_len: usize,
    /// How many bytes its lines have, each with its LF, and the empty line behind them.
    pub used: usize,
    /// How many lines these are.
    pub count: u64,
}

/// The lines of a record behind its first.
#[derive(Clone, Copy)]
struct Body<'a, 'b> {
    nonce: Option<i64>,
    values: &'a [View<'a>],
    rest: &'b [u8],
    count: u64,
}

// What follows this line and its LF, if the bytes begin with them.
fn behind_line<'b>(bytes: &'b [u8], line: &[u8]) -> Option<&'b [u8]>
    ensures { MatchOption result ((rest : List ℕ) → bytes.now ≡ line.now ++ 10 ∷ rest → ⊥) (λ rest. bytes.now ≡ line.now ++ 10 ∷ rest.now) }
{
    let len = line.len();
    if bytes.len() <= len {
        return None;
    }
    if bytes[len] != b'\n' {
        return None;
    }
    if !same_bytes(&bytes[..len], line) {
        return None;
    }
    Some(&bytes[len + 1..])
}

fn is_blank_or_cr(byte: u8) -> bool
    ensures { result ≡ false → (byte ≢ 32) × (byte ≢ 9) × (byte ≢ 13) }
{
    byte == b' ' || byte == b'\t' || byte == b'\r'
}

// Whether a line without an LF is read as it stands.
fn is_tidy(line: &[u8]) -> bool
    ensures { IsTrue result → HasNoLf line.now → IsTidy line.now }
{
    let len = line.len();
    if len == 0 {
        return false;
    }
    if is_blank_or_cr(line[0]) {
        return false;
    }
    !is_blank_or_cr(line[len - 1])
}

// The first line, if it is read as it stands, and what follows its LF.
fn cut_line(bytes: &[u8]) -> Option<(&[u8], &[u8])>
    ensures { IfSome result (λ cut. IsCut bytes.now cut.0.now cut.1.now) }
{
    match memchr(b'\n', bytes) {
        None => None,
        Some(len) => {
            let line = &bytes[..len];
            if is_tidy(line) {
                Some((line, &bytes[len + 1..]))
            } else {
                None
            }
        }
    }
}

// The short whole number in the first line, if nothing else stands there; and what follows its LF.
fn number_line(bytes: &[u8]) -> Option<(i64, &[u8])>
    ensures { IfSome result (λ r. NumberStands bytes.now r.0 r.1.now) }
{
    let Some((number, behind)) = short_number(bytes) else {
        return None;
    };
    match behind {
        [b'\n', rest @ ..] => Some((number, rest)),
        _ => None,
    }
}

// What the text in the first line says, if the kind is that of whole numbers and it writes a short one; and what follows its LF.
fn read_number<'a, 'b>(kind: Option<Kind>, bytes: &'b [u8]) -> Option<(Unmarked<'a>, &'b [u8])>
    ensures { IfSome result (λ r. TextStands kind bytes.now r.0 r.1.now) }
{
    match kind {
        Some(Kind::Int) => match number_line(bytes) {
            Some((number, rest)) => Some((Unmarked::Value(View::Int(number)), rest)),
            None => None,
        },
        _ => None,
    }
}

// What the text in the first line says of a variable of this kind, if the line is read as it stands; and what follows its LF.
fn read_text<'a, 'b>(
    arena: &'a Arena,
    kind: Option<Kind>,
    bytes: &'b [u8],
) -> Result<Option<(Unmarked<'a>, &'b [u8])>, NoMemory>
    ensures { IfOk result (λ read. IfSome read (λ r. TextStands kind bytes.now r.0 r.1.now)) }
{
    match cut_line(bytes) {
        None => Ok(None),
        Some((text, rest)) => match Unmarked::read(arena, kind, 0, text) {
            Ok(unmarked) => Ok(Some((unmarked, rest))),
            Err(fault) => Err(fault),
        },
    }
}

// The byte of a first line that has only one, and what follows its LF.
fn one_byte(bytes: &[u8]) -> Option<(u8, &[u8])>
    ensures { IfSome result (λ r. bytes.now ≡ r.0 ∷ 10 ∷ r.1.now) }
{
    match bytes {
        [byte, b'\n', rest @ ..] => Some((*byte, rest)),
        _ => None,
    }
}

// The value with the mark in the first line, if that gives one, and what follows its LF.
fn read_mark<'a, 'b>(
    unmarked: Unmarked<'a>,
    bytes: &'b [u8],
) -> Option<(Option<View<'a>>, &'b [u8])>
    ensures { IfSome result (λ r. MarkStands unmarked.entry bytes.now (shown_value r.0) r.1.now) }
{
    let Some((mark, rest)) = one_byte(bytes) else {
        return None;
    };
    if mark == b'2' {
        return Some((unmarked.missing(), rest));
    }
    if mark != b'0' && mark != b'1' {
        return None;
    }
    match unmarked.value() {
        Ok(value) => Some((value, rest)),
        Err(_) => None,
    }
}

// The values with that of a text whose mark is in the first line, if that gives one; and what follows its LF.
#[inline(always)]
fn push_marked<'a, 'b>(
    unmarked: Unmarked<'a>,
    bytes: &'b [u8],
    values: &mut Vec<View<'a>, &'a Arena>,
) -> Result<Option<&'b [u8]>, NoMemory>
    ensures { IfOk result (λ read. IfSome read (λ rest. IsPushed unmarked.entry bytes.now (shown_by values.old.items) (shown_by values.new.items) rest.now)) }
{
    let Some((value, rest)) = read_mark(unmarked, bytes) else {
        return Ok(None);
    };
    push_shown(values, value)?;
    Ok(Some(rest))
}

// The values with that of a variable, if the bytes begin with its three lines; and what follows these. Whole numbers, which most values
// are, have a way of their own, which meets that of others only at the end.
fn read_variable<'a, 'b>(
    arena: &'a Arena,
    var: &VarDecl,
    bytes: &'b [u8],
    values: &mut Vec<View<'a>, &'a Arena>,
) -> Result<Option<&'b [u8]>, NoMemory>
    requires { is_bare_name var.now.name ≡ true }
    ensures { IfOk result (λ read. IfSome read (λ rest. VariableStands var.now bytes.now (shown_by values.old.items) (shown_by values.new.items) rest.now)) }
{
    let Some(text) = behind_line(bytes, var.name.as_slice()) else {
        return Ok(None);
    };
    if let Some((unmarked, mark)) = read_number(var.kind, text) {
        return push_marked(unmarked, mark, values);
    }
    let (unmarked, mark) = match read_text(arena, var.kind, text) {
        Ok(Some(read)) => read,
        Ok(None) => return Ok(None),
        Err(fault) => return Err(fault),
    };
    let Some((value, rest)) = read_mark(unmarked, mark) else {
        return Ok(None);
    };
    push_shown(values, value)?;
    Ok(Some(rest))
}

// The values of a record, if the bytes begin with their lines and an empty one; what follows these, and how many lines the values have.
fn read_values<'a, 'b>(
    arena: &'a Arena,
    vars: &[VarDecl],
    bytes: &'b [u8],
) -> Result<Option<(&'a [View<'a>], &'b [u8], u64)>, NoMemory>
    requires { have_bare_names vars.now ≡ true }
    ensures { IfOk result (λ read. IfSome read (λ r. ValuesStand vars.now bytes.now (shown_by r.0.now) r.1.now r.2)) }
{
    let mut values: Vec<View<'a>, &'a Arena> = Vec::with_capacity(arena, vars.len())?;
    let mut left = bytes;
    let mut count: u64 = 0;
    for var in vars {
        if var.constant_line {
            push_constant(arena, &mut values, &var.constant)?;
        } else {
            match read_variable(arena, var, left, &mut values) {
                Ok(Some(rest)) => {
                    left = rest;
                    count += 3;
                }
                Ok(None) => return Ok(None),
                Err(fault) => return Err(fault),
            }
        }
    }
    match left {
        [b'\n', rest @ ..] => Ok(Some((into_bump_slice(values), rest, count))),
        _ => Ok(None),
    }
}

// The lines of a record behind its first, if the bytes begin with them and an empty one.
fn read_body<'a, 'b>(
    arena: &'a Arena,
    vars: &[VarDecl],
    bytes: &'b [u8],
) -> Result<Option<Body<'a, 'b>>, NoMemory>
    requires { have_bare_names vars.now ≡ true }
    ensures { IfOk result (λ read. IfSome read (λ b. BodyStands vars.now bytes.now b.nonce (shown_by b.values.now) b.rest.now b.count)) }
{
    let Some(number) = behind_line(bytes, b"this_invocation_nonce") else {
        return match read_values(arena, vars, bytes) {
            Ok(Some((values, rest, count))) => Ok(Some(Body {
                nonce: None,
                values,
                rest,
                count,
            })),
            Ok(None) => Ok(None),
            Err(fault) => Err(fault),
        };
    };
    let Some((text, behind)) = cut_line(number) else {
        return Ok(None);
    };
    let Some(nonce) = parse_integer(text) else {
        return Ok(None);
    };
    match read_values(arena, vars, behind) {
        Ok(Some((values, rest, count))) => Ok(Some(Body {
            nonce: Some(nonce),
            values,
            rest,
            count: count + 2,
        })),
        Ok(None) => Ok(None),
        Err(fault) => Err(fault),
    }
}

/// The record that stands whole at the front of the bytes, the first line of which has this number, with the empty line behind it. Where
/// none is given, one may stand there all the same; only its lines tell then. A record is given only where each of its lines is read as it
/// stands, and its variables have bare names. The points of the records before are tried first.
pub fn read_whole<'a>(
    alloc: Global,
    points: &Points,
    recent: Recent,
    arena: &'a Arena,
    line: u64,
    bytes: &[u8],
) -> Result<Option<Whole<'a>>, NoMemory>
    ensures { IfOk result (λ read. IfSome read (StandsWhole points.now line bytes.now)) }
{
    let Some((first, rest)) = cut_line(bytes) else {
        return Ok(None);
    };
    let point = match point_named_by(alloc, points, recent.likely(points, first), line, first) {
        Ok(point) => point,
        Err(BlockFault::NoMemory) => return Err(NoMemory),
        Err(BlockFault::Refused { .. }) => return Ok(None),
    };
    if !points.has_bare_names(point) {
        return Ok(None);
    }
    let body = match read_body(arena, var_decls_at(points, point), rest) {
        Ok(Some(body)) => body,
        Ok(None) => return Ok(None),
        Err(fault) => return Err(fault),
    };
    Ok(Some(Whole {
        sample: BaseSample {
            point,
            line,
            nonce: body.nonce,
            values: body.values,
        },
        first_len: first.len(),
        used: bytes.len() - body.rest.len(),
        count: body.count + 2,
    }))
}
