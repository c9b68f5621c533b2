// What no clause says: that the calls succeed with ample memory; and tables of declarations with the points that they make.
ghost use Rattle.std.specs.Prelude.{◌<◌, length};

use crate::reading::{show_fault, table};
use dk_base::{BlockFault, NoMemory, PointId, Text, VarId};
use dk_points::*;
use std::alloc::Global;
use std::process::Abort;
use std::test::Fail;

/// Blocks, and what they come to: a line for each point with its depth, its entry if it has one, its variables, its edges to
/// parents as `>PARENT.NUMBER` and from children as `<CHILD.NUMBER` with the partner of each variable; then what the last
/// declaration was; or the first refusal, by the number of its block.
type Case = (&'static [u8], &'static [u8]);

static CASES: [Case; 21] = [
    // an exit without its combined exit makes it
    (
        b"ppt M:::ENTER\nvariable x\nrep-type int\n\nppt M:::EXIT1\nvariable x\nrep-type int",
        b"M:::ENTER 0: x\nM:::EXIT implicit 1 of 0: x orig(x) <2.0(0 1)\nM:::EXIT1 0 of 0: x orig(x) >1.0\nnew 2",
    ),
    // two edges to one parent, which is declared later
    (
        b"ppt C\nparent parent Q 1\nparent parent Q 2\nvariable a\nrep-type int\nparent Q 1 n\nvariable b\nrep-type int\nparent Q 2 n\n\nppt Q\nvariable n\nrep-type int",
        b"C 0: a b >1.0 >1.1\nQ 1: n <0.0(0) <0.1(1)\nnew 1",
    ),
    // children with fewer variables, or with variables of other kinds
    (
        b"ppt O\nvariable f\nrep-type int\nvariable g\nrep-type int\n\nppt E1\nparent parent O 1\nvariable f\nrep-type int\nparent O 1\nvariable g\nrep-type int\nparent O 1\n\nppt E2\nparent parent O 1\nvariable f\nrep-type int\nparent O 1\n\nppt E3\nparent parent O 1\nvariable f\nrep-type boolean\nparent O 1\nvariable g\nrep-type double\nparent O 1\nvariable h\nrep-type int\nparent O 1 g",
        b"O 1: f g <1.0(0 1) <2.0(0 -) <3.0(- -)\nE1 0: f g >0.0\nE2 0: f >0.0\nE3 0: f h >0.0\nnew 3",
    ),
    // the second subexit has of two edges the one that the implicit exit has not
    (
        b"ppt O\nvariable x\nrep-type int\n\nppt M:::EXIT1\nparent parent O 1\nparent parent M:::EXIT 7\nvariable x\nrep-type int\nparent O 1\n\nppt M:::EXIT2\nparent parent O 1\nparent parent O 2\nvariable x\nrep-type int\nparent O 1\nparent O 2",
        b"O 2: x <1.0(0) <3.0(0)\nM:::EXIT implicit 1: x >0.0 <2.0(0) <3.1(0)\nM:::EXIT1 0: x >1.0\nM:::EXIT2 0: x >0.0 >1.1\nnew 3",
    ),
    // an orig variable's partner is that of the partner
    (
        b"ppt B:::ENTER\nvariable n\nrep-type int\n\nppt B:::EXIT\nvariable n\nrep-type int\n\nppt A:::ENTER\nvariable a\nrep-type int\n\nppt A:::EXIT\nparent parent B:::EXIT 1\nvariable a\nrep-type int\nparent B:::EXIT 1 n",
        b"B:::ENTER 0: n\nB:::EXIT 1 of 0: n orig(n) <3.0(0 1)\nA:::ENTER 0: a\nA:::EXIT 0 of 2: a orig(a) >1.0\nnew 3",
    ),
    // an exit has no orig of a variable of another kind, and none without an entry in front of it
    (
        b"ppt M:::EXIT\nvariable x\nrep-type int\n\nppt M:::ENTER\nvariable x\nrep-type int\nvariable y\nrep-type int\nvariable z\nrep-type double\n\nppt M:::EXIT3\nvariable y\nrep-type int[]\nvariable x\nrep-type int\nvariable z\nrep-type double",
        b"M:::EXIT 1: x <2.0(1)\nM:::ENTER 0: x y\nM:::EXIT3 0 of 1: y x orig(x) >0.0\nnew 2",
    ),
    // a parent between others comes last
    (
        b"ppt c\nparent parent p 1\nparent parent q 2\nparent parent r 3\n\nppt p\n\nppt r\n\nppt q",
        b"c 0: >1.0 >3.1 >2.2\np 1: <0.0()\nr 1: <0.2()\nq 1: <0.1()\nnew 3",
    ),
    // two links to one parent
    (
        b"ppt c\nparent parent p 1\nparent parent x 2\nparent parent p 3\n\nppt p",
        b"c 0: >1.0 >1.2\np 1: <0.0() <0.2()\nnew 1",
    ),
    // children in the order of their coming, before and after the parent
    (
        b"ppt a\nparent parent p 1\n\nppt b\nparent parent p 1\nparent parent p 2\n\nppt p\n\nppt c\nparent parent p 1",
        b"a 0: >2.0\nb 0: >2.0 >2.1\np 1: <0.0() <1.0() <1.1() <3.0()\nc 0: >2.0\nnew 3",
    ),
    // the longest path counts, and parents of parents are raised
    (
        b"ppt t\n\nppt m\nparent parent t 1\n\nppt b\nparent parent m 1\nparent parent t 2",
        b"t 2: <1.0() <2.1()\nm 1: >0.0 <2.0()\nb 0: >1.0 >0.1\nnew 2",
    ),
    (
        b"ppt b\nparent parent m 1\nparent parent t 2\n\nppt m\nparent parent t 1\n\nppt t",
        b"b 0: >1.0 >2.1\nm 1: >2.0 <0.0()\nt 2: <0.1() <1.0()\nnew 2",
    ),
    // parents in a cycle
    (
        b"ppt A\nparent parent B 1\n\nppt B\nparent parent A 1",
        b"2: 6 CyclicParents",
    ),
    (
        b"ppt M:::EXIT1\nparent parent M:::EXIT1 1",
        b"1: 6 CyclicParents",
    ),
    (
        b"ppt a\nparent parent b 1\n\nppt b\nparent parent c 1\n\nppt c\nparent parent a 1",
        b"3: 6 CyclicParents",
    ),
    (
        b"ppt b\nparent parent c 1\n\nppt c\nparent parent a 1\n\nppt t\n\nppt a\nparent parent b 1\nparent parent t 2",
        b"4: 6 CyclicParents",
    ),
    // a block again, with its constant spelled in another way, and one that differs
    (
        b"ppt P\nvariable h\nrep-type hashcode\nconstant 0x1f\n\nppt P\nvariable h\nrep-type hashcode\nconstant 31",
        b"P 0: h\nsame 0",
    ),
    (
        b"ppt P\nvariable h\nrep-type hashcode\nconstant 0x1f\n\nppt P\nvariable h\nrep-type hashcode\nconstant 32",
        b"2: 5 DuplicatePoint",
    ),
    (
        b"ppt P\nvariable x\nrep-type int\n\nppt P\nvariable x\nrep-type boolean",
        b"2: 5 DuplicatePoint",
    ),
    (b"ppt P\n\nppt P\nparent parent P 1", b"2: 5 DuplicatePoint"),
    // the name of an implicit exit
    (b"ppt M:::EXIT1\n\nppt M:::EXIT", b"2: 5 DuplicatePoint"),
    (
        b"ppt M:::EXIT1\n\nppt M:::EXIT1",
        b"M:::EXIT implicit 1: <1.0()\nM:::EXIT1 0: >0.0\nsame 1",
    ),
];

fn show_vars(shown: &mut Text, points: &Points, p: PointId) -> Result<(), NoMemory>
    requires { p.0 < length points.now }
{
    for var in points.vars(p) {
        shown.push(b' ')?;
        shown.append(var.name.as_slice())?;
    }
    Ok(())
}

fn show_partners(
    alloc: Global,
    shown: &mut Text,
    points: &Points,
    edge: Edge,
) -> Result<(), NoMemory>
    requires child { edge.child.0 < length points.now }
    requires parent { edge.parent.0 < length points.now }
{
    let count = points.vars(edge.parent).len();
    for w in 0..count {
        if w > 0 {
            shown.push(b' ')?;
        }
        match points.partner(edge, VarId(w as u32)) {
            None => shown.push(b'-')?,
            Some(v) => {
                let place = v.0;
                shown.append(format!(in alloc; "{place}")?.as_bytes())?;
            }
        }
    }
    Ok(())
}

fn show_edges(alloc: Global, shown: &mut Text, points: &Points, p: PointId) -> Result<(), NoMemory>
    requires { p.0 < length points.now }
{
    for edge in points.from(p) {
        let parent = edge.parent.0;
        let number = edge.number;
        shown.append(format!(in alloc; " >{parent}.{number}")?.as_bytes())?;
    }
    for edge in points.into(p) {
        let child = edge.child.0;
        let number = edge.number;
        shown.append(format!(in alloc; " <{child}.{number}(")?.as_bytes())?;
        show_partners(alloc, shown, points, *edge)?;
        shown.push(b')')?;
    }
    Ok(())
}

fn show_point(alloc: Global, shown: &mut Text, points: &Points, p: PointId) -> Result<(), NoMemory>
    requires { p.0 < length points.now }
{
    shown.append(points.name(p))?;
    if points.is_implicit(p) && points.decl(p).is_none() {
        shown.append(b" implicit")?;
    }
    let depth = points.depth(p);
    shown.append(format!(in alloc; " {depth}")?.as_bytes())?;
    if let Some(entry) = points.entry(p) {
        let place = entry.0;
        shown.append(format!(in alloc; " of {place}")?.as_bytes())?;
    }
    shown.push(b':')?;
    show_vars(shown, points, p)?;
    show_edges(alloc, shown, points, p)?;
    shown.push(b'\n')
}

fn show(alloc: Global, points: &Points, last: Declared) -> Result<Text, NoMemory> {
    let mut shown = Text::new(alloc);
    for p in 0..points.len() {
        show_point(alloc, &mut shown, points, PointId(p))?;
    }
    let text = match last {
        Declared::New(p) => {
            let place = p.0;
            format!(in alloc; "new {place}")?
        }
        Declared::Same(p) => {
            let place = p.0;
            format!(in alloc; "same {place}")?
        }
    };
    shown.append(text.as_bytes())?;
    Ok(shown)
}

fn show_outcome(
    alloc: Global,
    outcome: Result<(Points, Declared), BlockFault>,
) -> Result<Text, NoMemory> {
    match outcome {
        Ok((points, last)) => show(alloc, &points, last),
        Err(fault) => show_fault(alloc, fault),
    }
}

#[test]
fn declarations_make_their_points(rt: HostRuntime) -> Result<(), Fail> {
    for (blocks, expected) in &CASES {
        let shown = show_outcome(rt.alloc(), table(rt.alloc(), blocks))?;
        assert_eq!(&rt; shown.as_slice(), *expected);
    }
    Ok(())
}

fn check_names(rt: &impl Abort, points: &Points) {
    assert!(rt; points.find(b"M:::EXIT") == Some(PointId(1)) && points.find(b"B").is_none());
    assert!(rt; points.len() == 3);
    assert!(rt; points.decl(PointId(1)).is_none() && points.decl(PointId(2)).is_some());
}

#[test]
fn names_are_found(rt: HostRuntime) -> Result<(), Fail> {
    let (points, _) = table(rt.alloc(), b"ppt A\n\nppt M:::EXIT1")?;
    check_names(&rt, &points);
    Ok(())
}
