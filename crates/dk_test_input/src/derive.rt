// What no clause says: that the calls succeed with ample memory; and tables of variables with what is derived of them.
ghost use Rattle.std.specs.Prelude.{◌<◌, IfSome, length};

use crate::reading::{numbered_lines, table};
use bumpalo::collections::into_bump_slice;
use dk_base::{
    Arena, BlockFault, Kind, NoMemory, PointId, Text, ValueFault, VarId, VarInfo, View,
    parse_value, spell,
};
use dk_derive::*;
use dk_graph::Edge;
use dk_points::Points;
use std::alloc::Global;
use std::test::Fail;

fn last_point(points: &Points) -> Option<PointId>
    ensures { IfSome result (λ p. p.0 < length points.now) }
{
    match points.len().checked_sub(1) {
        None => None,
        Some(last) => Some(PointId(last)),
    }
}

/// Blocks, and what is derived of the variables of the last point: names, and numbers of comparability.
static NAMES: [(&'static [u8], &'static [u8]); 4] = [
    (
        b"ppt P\nvariable this.a[..]\nrep-type String[]\ncomparability 2[3]\nvariable n\nrep-type int\ncomparability 5",
        b"size(this.a[..]) 3 -1; this.a[0] 2 -1; this.a[-1] 2 -1; this.a[n] 2 -1; this.a[0..n] 2 3; this.a[0..n-1] 2 3; this.a[n..] 2 3; this.a[n+1..] 2 3; ",
    ),
    // names end in different ways; hash codes, truth values and opaque variables are no indices
    (
        b"ppt P\nvariable h\nrep-type hashcode\nvariable b[]\nrep-type boolean[]\nvariable d\nrep-type double\nvariable c\nrep-type hashcode[]\nvariable e[][..]\nrep-type int[]\nvariable f[..][]\nrep-type int[]\nvariable t\nrep-type boolean",
        b"size(b[]) -1 -1; b[0] -1 -1; b[-1] -1 -1; size(c) -1 -1; c[0] -1 -1; c[-1] -1 -1; size(e[][..]) -1 -1; e[][0] -1 -1; e[][-1] -1 -1; size(f[..][]) -1 -1; f[..][0] -1 -1; f[..][-1] -1 -1; ",
    ),
    // two sequences and two whole numbers
    (
        b"ppt P\nvariable i\nrep-type int\nvariable a\nrep-type int[]\nvariable b\nrep-type int[]\nvariable j\nrep-type int",
        b"size(a) -1 -1; a[0] -1 -1; a[-1] -1 -1; a[i] -1 -1; a[0..i] -1 -1; a[0..i-1] -1 -1; a[i..] -1 -1; a[i+1..] -1 -1; a[j] -1 -1; a[0..j] -1 -1; a[0..j-1] -1 -1; a[j..] -1 -1; a[j+1..] -1 -1; size(b) -1 -1; b[0] -1 -1; b[-1] -1 -1; b[i] -1 -1; b[0..i] -1 -1; b[0..i-1] -1 -1; b[i..] -1 -1; b[i+1..] -1 -1; b[j] -1 -1; b[0..j] -1 -1; b[0..j-1] -1 -1; b[j..] -1 -1; b[j+1..] -1 -1; ",
    ),
    // plain and orig ones don't mix
    (
        b"ppt M:::ENTER\nvariable a[..]\nrep-type int[]\nvariable i\nrep-type int\n\nppt M:::EXIT\nvariable a[..]\nrep-type int[]\ncomparability 2[3]\nvariable i\nrep-type int\ncomparability 3",
        b"size(a[..]) 3 -1; a[0] 2 -1; a[-1] 2 -1; a[i] 2 -1; a[0..i] 2 3; a[0..i-1] 2 3; a[i..] 2 3; a[i+1..] 2 3; orig(size(a[..])) 3 -1; orig(a[0]) 2 -1; orig(a[-1]) 2 -1; orig(a[i]) 2 -1; orig(a[0..i]) 2 3; orig(a[0..i-1]) 2 3; orig(a[i..]) 2 3; orig(a[i+1..]) 2 3; ",
    ),
];

fn show_var(alloc: Global, shown: &mut Text, var: &VarInfo) -> Result<(), NoMemory> {
    shown.append(var.name.as_slice())?;
    let elem = var.compar.elem;
    let index = var.compar.index;
    shown.append(format!(in alloc; " {elem} {index}; ")?.as_bytes())
}

fn derived_names(alloc: Global, points: &Points) -> Result<Text, BlockFault> {
    let mut shown = Text::new(alloc);
    let Some(p) = last_point(points) else {
        return Ok(shown);
    };
    let base = points.vars(p);
    let vars = derive(alloc, base)?;
    for var in vars.as_slice().iter().skip(base.len()) {
        show_var(alloc, &mut shown, var)?;
    }
    Ok(shown)
}

fn names_of(alloc: Global, blocks: &[u8]) -> Result<Text, BlockFault> {
    let (points, _) = table(alloc, blocks)?;
    derived_names(alloc, &points)
}

#[test]
fn derived_variables_have_names(rt: HostRuntime) -> Result<(), Fail> {
    for (blocks, expected) in &NAMES {
        assert_eq!(&rt; names_of(rt.alloc(), blocks)?.as_slice(), *expected);
    }
    Ok(())
}

/// A rep-type of a sequence; a sequence and a whole number, one a line; and the values that are derived of them: the size, the first
/// and the last element, the element at the number, and the elements up to it, before it, from it on and after it.
static VALUES: [(&'static [u8], &'static [u8], &'static [u8]); 20] = [
    (
        b"int[]",
        b"[1 2]\n2",
        b"2; 1; 2; missing; missing; [1 2]; []; missing; ",
    ),
    (
        b"int[]",
        b"[1 2]\n-1",
        b"2; 1; 2; missing; []; missing; missing; [1 2]; ",
    ),
    (b"int[]", b"[1 2]\n0", b"2; 1; 2; 1; [1]; []; [1 2]; [2]; "),
    (b"int[]", b"[1 2]\n1", b"2; 1; 2; 2; [1 2]; [1]; [2]; []; "),
    (
        b"int[]",
        b"[1 2]\n-2",
        b"2; 1; 2; missing; missing; missing; missing; missing; ",
    ),
    (
        b"int[]",
        b"[1 2]\n3",
        b"2; 1; 2; missing; missing; missing; missing; missing; ",
    ),
    (
        b"int[]",
        b"[1 2]\n9223372036854775807",
        b"2; 1; 2; missing; missing; missing; missing; missing; ",
    ),
    (
        b"int[]",
        b"[1 2]\n-9223372036854775808",
        b"2; 1; 2; missing; missing; missing; missing; missing; ",
    ),
    // no element, and one
    (
        b"int[]",
        b"[]\n0",
        b"0; missing; missing; missing; missing; []; []; missing; ",
    ),
    (
        b"int[]",
        b"[]\n-1",
        b"0; missing; missing; missing; []; missing; missing; []; ",
    ),
    (
        b"int[]",
        b"[]\n1",
        b"0; missing; missing; missing; missing; missing; missing; missing; ",
    ),
    (b"int[]", b"[7]\n0", b"1; 7; 7; 7; [7]; []; [7]; []; "),
    // a missing base
    (
        b"int[]",
        b"missing\n0",
        b"missing; missing; missing; missing; missing; missing; missing; missing; ",
    ),
    (
        b"int[]",
        b"[1 2]\nmissing",
        b"2; 1; 2; missing; missing; missing; missing; missing; ",
    ),
    (
        b"int[]",
        b"null\nuninit",
        b"missing; missing; missing; missing; missing; missing; missing; missing; ",
    ),
    // other elements
    (
        b"boolean[]",
        b"[true false true]\n1",
        b"3; true; true; false; [true false]; [true]; [false true]; [true]; ",
    ),
    (
        b"hashcode[]",
        b"[0x1f null]\n1",
        b"2; 0x1f; null; null; [0x1f null]; [0x1f]; [null]; []; ",
    ),
    (
        b"String[]",
        b"[\"a b\" null \"c\"]\n1",
        b"3; \"a b\"; \"c\"; null; [\"a b\" null]; [\"a b\"]; [null \"c\"]; [\"c\"]; ",
    ),
    (
        b"String[]",
        b"[]\n-1",
        b"0; missing; missing; missing; []; missing; missing; []; ",
    ),
    (
        b"String[]",
        b"[\"\"]\n1",
        b"1; \"\"; \"\"; missing; missing; [\"\"]; []; missing; ",
    ),
];

fn value_of_text<'a>(arena: &'a Arena, kind: Kind, text: &[u8]) -> Result<View<'a>, NoMemory> {
    match parse_value(arena, kind, text) {
        Ok(value) => Ok(value),
        Err(ValueFault::Bad) => Err(NoMemory),
        Err(ValueFault::NoMemory) => Err(NoMemory),
    }
}

fn with_value<'a>(
    mut values: Vec<View<'a>, &'a Arena>,
    value: View<'a>,
) -> Result<Vec<View<'a>, &'a Arena>, NoMemory> {
    values.push(value)?;
    Ok(values)
}

// The values of the base variables, one a line.
fn base_values<'a>(
    alloc: Global,
    arena: &'a Arena,
    base: &[VarInfo],
    text: &[u8],
) -> Result<&'a [View<'a>], NoMemory> {
    let mut values: Vec<View<'a>, &'a Arena> = Vec::new(arena);
    for (var, (_, line)) in base.iter().zip(numbered_lines(alloc, 1, text)?.as_slice()) {
        values = with_value(values, value_of_text(arena, var.kind, line)?)?;
    }
    Ok(into_bump_slice(values))
}

fn derived_values(alloc: Global, points: &Points, text: &[u8]) -> Result<Text, BlockFault> {
    let mut shown = Text::new(alloc);
    let Some(p) = last_point(points) else {
        return Ok(shown);
    };
    let base = points.vars(p);
    let vars = derive(alloc, base)?;
    let arena = Arena::new(alloc);
    let given = base_values(alloc, &arena, base, text)?;
    let values = extend(&arena, vars.as_slice(), given)?;
    for value in values.iter().skip(given.len()) {
        shown.append(spell(alloc, *value)?.as_slice())?;
        shown.append(b"; ")?;
    }
    Ok(shown)
}

fn block_of(alloc: Global, rep_type: &[u8]) -> Result<Text, NoMemory> {
    let mut text = Text::from_slice(alloc, b"ppt P\nvariable a[..]\nrep-type ")?;
    text.append(rep_type)?;
    text.append(b"\nvariable i\nrep-type int")?;
    Ok(text)
}

fn values_of(alloc: Global, rep_type: &[u8], values: &[u8]) -> Result<Text, BlockFault> {
    let block = block_of(alloc, rep_type)?;
    let (points, _) = table(alloc, block.as_slice())?;
    derived_values(alloc, &points, values)
}

#[test]
fn derived_variables_have_values(rt: HostRuntime) -> Result<(), Fail> {
    for (rep_type, values, expected) in &VALUES {
        let shown = values_of(rt.alloc(), rep_type, values)?;
        assert_eq!(&rt; shown.as_slice(), *expected);
    }
    Ok(())
}

/// Blocks, and the partners through the first edge into the last point, for each of its variables.
static PARTNERS: [(&'static [u8], &'static [u8]); 5] = [
    (
        b"ppt C\nparent parent Q 1\nvariable t[..]\nrep-type int[]\nparent Q 1 s[..]\nvariable m\nrep-type int\nparent Q 1 n\nvariable k\nrep-type int\n\nppt Q\nvariable s[..]\nrep-type int[]\nvariable n\nrep-type int",
        b"0 1 3 4 5 6 7 8 9 10 ",
    ),
    (
        b"ppt C\nparent parent Q 1\nvariable k\nrep-type int\nvariable t[..]\nrep-type int[]\nparent Q 1 s[..]\nvariable m\nrep-type int\nparent Q 1 n\n\nppt Q\nvariable n\nrep-type int\nvariable s[..]\nrep-type int[]",
        b"2 1 3 4 5 11 12 13 14 15 ",
    ),
    // an index without a partner, and a sequence of another kind
    (
        b"ppt C\nparent parent Q 1\nvariable t[..]\nrep-type int[]\nparent Q 1 s[..]\n\nppt Q\nvariable s[..]\nrep-type int[]\nvariable n\nrep-type int",
        b"0 - 1 2 3 - - - - - ",
    ),
    (
        b"ppt C\nparent parent Q 1\nvariable t[..]\nrep-type String[]\nparent Q 1 s[..]\nvariable n\nrep-type int\nparent Q 1\n\nppt Q\nvariable s[..]\nrep-type int[]\nvariable n\nrep-type int",
        b"- 1 - - - - - - - - ",
    ),
    // what is derived of orig variables
    (
        b"ppt A:::ENTER\nvariable a\nrep-type int[]\n\nppt A:::EXIT\nparent parent B:::EXIT 1\nvariable a\nrep-type int[]\nparent B:::EXIT 1 b\n\nppt B:::ENTER\nvariable b\nrep-type int[]\n\nppt B:::EXIT\nvariable b\nrep-type int[]",
        b"0 1 2 3 4 5 6 7 ",
    ),
];

fn show_partner(alloc: Global, shown: &mut Text, partner: Option<VarId>) -> Result<(), NoMemory> {
    match partner {
        None => shown.append(b"- "),
        Some(v) => {
            let place = v.0;
            shown.append(format!(in alloc; "{place} ")?.as_bytes())
        }
    }
}

// The partners of all variables of the edge's parent.
fn partners(alloc: Global, points: &Points, edge: Edge) -> Result<Text, NoMemory>
    requires child { edge.child.0 < length points.now }
    requires parent { edge.parent.0 < length points.now }
{
    let parent = derive(alloc, points.vars(edge.parent))?;
    let child = derive(alloc, points.vars(edge.child))?;
    let mut shown = Text::new(alloc);
    for w in 0..parent.len() {
        let found = partner(
            points,
            edge,
            parent.as_slice(),
            child.as_slice(),
            VarId(w as u32),
        );
        show_partner(alloc, &mut shown, found)?;
    }
    Ok(shown)
}

fn first_partners(alloc: Global, points: &Points) -> Result<Text, BlockFault> {
    let Some(p) = last_point(points) else {
        return Ok(Text::new(alloc));
    };
    match points.into(p) {
        [] => Ok(Text::new(alloc)),
        [edge, ..] => Ok(partners(alloc, points, *edge)?),
    }
}

fn partners_of(alloc: Global, blocks: &[u8]) -> Result<Text, BlockFault> {
    let (points, _) = table(alloc, blocks)?;
    first_partners(alloc, &points)
}

#[test]
fn derived_variables_have_partners(rt: HostRuntime) -> Result<(), Fail> {
    for (blocks, expected) in &PARTNERS {
        assert_eq!(&rt; partners_of(rt.alloc(), blocks)?.as_slice(), *expected);
    }
    Ok(())
}
