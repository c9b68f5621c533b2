// The text of a trace by the formats' document, and what is refused.
use dk_base::{Compar, Kind, List, NoMemory, Text, Value, View};
use dk_decl::{EdgeDecl, ParentVar, PointDecl, VarDecl};
use dk_io::{MemorySinks, Stream};
use dk_write::{WriteFault, Writer};
use std::alloc::Global;
use std::test::Fail;

const NO_COMPAR: Compar = Compar {
    elem: -1,
    index: -1,
};

/// A parent with a variable of each sort, its child, and records of both.
const TRACE: &str =
    "decl-version 2.0\nvar-comparability implicit\n\nppt A\\_b\nvariable s\nrep-type java.lang.String\ncomparability 4[5]\nvariable k\\\\\nrep-type int\ncomparability -1[-1]\nconstant 7\n\nppt C\nparent parent A\\_b 3\nvariable t\nrep-type java.lang.String\ncomparability -1[-1]\nparent A\\_b 3 s\n\nA\\_b\nthis_invocation_nonce\n-2\ns\n\"a b\"\n1\n\nC\nt\nnonsensical\n2\n\n";

fn text(alloc: Global, bytes: &str) -> Result<Text, NoMemory> {
    Text::from_slice(alloc, bytes.as_bytes())
}

fn var(alloc: Global, name: &str, kind: Kind, compar: Compar) -> Result<VarDecl, NoMemory> {
    Ok(VarDecl {
        name: text(alloc, name)?,
        kind: Some(kind),
        compar,
        constant: None,
        constant_line: false,
        parents: List::new(alloc),
    })
}

fn point(alloc: Global, name: &str) -> Result<PointDecl, NoMemory> {
    Ok(PointDecl {
        name: text(alloc, name)?,
        edges: List::new(alloc),
        vars: List::new(alloc),
    })
}

fn parent(alloc: Global) -> Result<PointDecl, NoMemory> {
    let mut decl = point(alloc, "A b")?;
    decl.vars
        .push(var(alloc, "s", Kind::Str, Compar { elem: 4, index: 5 })?)?;
    let mut constant = var(alloc, "k\\", Kind::Int, NO_COMPAR)?;
    constant.constant = Some(Value::Int(7));
    constant.constant_line = true;
    decl.vars.push(constant)?;
    Ok(decl)
}

fn child(alloc: Global) -> Result<PointDecl, NoMemory> {
    let mut decl = point(alloc, "C")?;
    decl.edges.push(EdgeDecl {
        parent: text(alloc, "A b")?,
        id: 3,
    })?;
    let mut own = var(alloc, "t", Kind::Str, NO_COMPAR)?;
    own.parents.push(ParentVar {
        edge: 0,
        name: text(alloc, "s")?,
    })?;
    decl.vars.push(own)?;
    Ok(decl)
}

fn sinks(alloc: Global) -> Result<MemorySinks, NoMemory> {
    MemorySinks::new(alloc, List::new(alloc), 5, 10_000)
}

fn write_both(alloc: Global, sinks: &mut MemorySinks) -> Result<(), WriteFault> {
    let mut writer = Writer::begin(alloc, sinks)?;
    let first = writer.declare(sinks, parent(alloc)?)?;
    let second = writer.declare(sinks, child(alloc)?)?;
    writer.record(
        sinks,
        first,
        Some(-2),
        &[View::Str(b"\"a b\""), View::Missing],
    )?;
    writer.record(sinks, second, None, &[View::Missing])
}

#[test]
fn blocks_stand_in_order(rt: HostRuntime) -> Result<(), Fail> {
    let alloc = rt.alloc();
    let mut sinks = sinks(alloc)?;
    assert!(rt; write_both(alloc, &mut sinks).is_ok());
    assert!(rt; sinks.written(Stream::Report) == TRACE.as_bytes());
    Ok(())
}

/// Whether a record of this point and this variable is written, with this value.
fn is_recorded(
    alloc: Global,
    point_name: &str,
    var_name: &str,
    kind: Kind,
    view: View<'_>,
) -> Result<bool, WriteFault> {
    let mut sinks = sinks(alloc)?;
    let mut writer = Writer::begin(alloc, &mut sinks)?;
    let mut decl = point(alloc, point_name)?;
    decl.vars.push(var(alloc, var_name, kind, NO_COMPAR)?)?;
    let place = writer.declare(&mut sinks, decl)?;
    match writer.record(&mut sinks, place, None, &[view]) {
        Ok(()) => Ok(true),
        Err(WriteFault::Unwritable) => Ok(false),
        Err(fault) => Err(fault),
    }
}

#[test]
fn records_are_no_other_blocks(rt: HostRuntime) -> Result<(), Fail> {
    let alloc = rt.alloc();
    assert!(rt; is_recorded(alloc, "P", "x", Kind::Int, View::Int(-3)).ok() == Some(true));
    assert!(rt; is_recorded(alloc, "#P", "x", Kind::Int, View::Int(1)).ok() == Some(false));
    assert!(rt; is_recorded(alloc, "DECLARE", "x", Kind::Int, View::Int(1)).ok() == Some(false));
    assert!(rt; is_recorded(alloc, "ppt\tP", "x", Kind::Int, View::Int(1)).ok() == Some(false));
    assert!(rt;
        is_recorded(alloc, "VarComparability", "x", Kind::Int, View::Int(1)).ok() == Some(false)
    );
    assert!(rt;
        is_recorded(alloc, "P", "this_invocation_nonce", Kind::Int, View::Int(1)).ok()
            == Some(false)
    );
    assert!(rt; is_recorded(alloc, "P", "x", Kind::Int, View::Bool(true)).ok() == Some(false));
    assert!(rt;
        is_recorded(alloc, "P", "x", Kind::Str, View::Str(b"\"a\nb\"")).ok() == Some(false)
    );
    Ok(())
}
