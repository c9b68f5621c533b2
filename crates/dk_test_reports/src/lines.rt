// Each call once, with memory enough.
use dk_base::{Compar, Form, Kind, List, NoMemory, Text, VarId, VarInfo, Why};
use dk_engine::Counts;
use dk_filters::{Candidate, Facts};
use dk_print::{fault, instance, push_fault, push_instance, push_stats, section, stats};
use dk_template::{RowId, State, Tuple};
use std::alloc::Global;
use std::test::Fail;

const SECTION: &[u8] =
    b"===========================================================================\nP  [3]\na b <= 7  [2]\n";

const COUNTS: Counts = Counts {
    samples: 4,
    leaders: 1,
    constants: 0,
    patterns: 1,
    slots: 4,
};

const NO_FACTS: Facts = Facts {
    few: false,
    incomparable: false,
    member: false,
    implied: false,
    constant: false,
    parent: false,
};

fn infos(alloc: Global, names: &[&[u8]]) -> Result<List<VarInfo>, NoMemory> {
    let mut infos = List::new(alloc);
    for name in names {
        infos.push(VarInfo {
            name: Text::from_slice(alloc, name)?,
            kind: Kind::Int,
            form: Form::Declared,
            compar: Compar { elem: 1, index: 1 },
        })?;
    }
    Ok(infos)
}

// That the first variable is at most 7, in two samples.
fn bounded(alloc: Global) -> Result<List<Candidate>, NoMemory> {
    let mut list = List::new(alloc);
    list.push(Candidate {
        row: RowId(3),
        vars: Tuple::of(&[VarId(0)]),
        state: State::Greatest(7),
        count: 2,
        facts: NO_FACTS,
    })?;
    Ok(list)
}

#[test]
fn each_call_writes_after_the_text(rt: HostRuntime) -> Result<(), Fail> {
    let alloc = rt.alloc();
    let vars = infos(alloc, &[b"a b", b"c"])?;
    let pair = [VarId(0), VarId(1)];
    let mut text = instance(
        alloc,
        RowId(68),
        vars.as_slice(),
        &pair,
        &State::Offset { k: -3 },
    )?;
    text.append(b"\n")?;
    push_instance(&mut text, RowId(7), vars.as_slice(), &pair, &State::Code(0))?;
    text.append(b"\n")?;
    push_stats(&mut text, b"P", COUNTS)?;
    push_fault(&mut text, b"t", 9, Why::Truncated)?;
    assert!(rt;
        text.as_slice()
            == b"c == a b - 3 (elementwise)\na b == null\nstats P: samples 4, leaders 1, constants 0, patterns 1, slots 4\ndaikon: t:9: 12 Truncated\n".as_slice()
    );
    let line = stats(alloc, b"P", COUNTS)?;
    assert!(rt;
        line.as_slice()
            == b"stats P: samples 4, leaders 1, constants 0, patterns 1, slots 4\n".as_slice()
    );
    let list = bounded(alloc)?;
    let whole = section(alloc, b"P", 3, vars.as_slice(), list.as_slice())?;
    assert!(rt; whole.as_slice() == SECTION);
    let message = fault(alloc, b"a", 3, Why::TooManyVariables)?;
    assert!(rt; message.as_slice() == b"daikon: a:3: 16 TooManyVariables\n".as_slice());
    Ok(())
}
