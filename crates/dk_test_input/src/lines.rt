// Lines however the bytes are cut, both limits, a failed read, and a second file after each end.
use dk_base::{List, NoMemory, Text};
use dk_io::MemoryInputs;
use dk_lines::{Limits, LineFault, Lines};
use std::alloc::Global;
use std::process::Abort;
use std::test::Fail;

/// A file's lines, each with a slash behind it, and how they end.
type Ends = (&'static str, Result<(), LineFault>);

/// What the lines of a first file of these bytes, and then of one with the byte `z`, come to in pieces of some sizes, where a call
/// fails.
struct Case {
    bytes: &'static str,
    failing: u64,
    least: usize,
    below: usize,
    first: Ends,
    second: Ends,
}

const LIMITS: Limits = Limits { line: 4, total: 10 };

static CASES: [Case; 7] = [
    Case {
        bytes: "abcd\nefghi",
        failing: 0,
        least: 1,
        below: 9,
        first: ("abcd/", Err(LineFault::LongLine { line: 2 })),
        second: ("", Err(LineFault::TooLong { line: 1 })),
    },
    Case {
        bytes: "ab\nab\nab\nab\n",
        failing: 0,
        least: 1,
        below: 9,
        first: ("ab/ab/ab/", Err(LineFault::TooLong { line: 4 })),
        second: ("", Err(LineFault::TooLong { line: 1 })),
    },
    Case {
        bytes: "a\r\n\r\nb",
        failing: 0,
        least: 1,
        below: 9,
        first: ("a//b/", Ok(())),
        second: ("z/", Ok(())),
    },
    Case {
        bytes: "",
        failing: 0,
        least: 1,
        below: 9,
        first: ("", Ok(())),
        second: ("z/", Ok(())),
    },
    Case {
        bytes: "ab\ncd\n",
        failing: 3,
        least: 2,
        below: 3,
        first: ("", Err(LineFault::Read)),
        second: ("z/", Ok(())),
    },
    Case {
        bytes: "ab\ncd\n",
        failing: 3,
        least: 3,
        below: 6,
        first: ("ab/", Err(LineFault::Read)),
        second: ("z/", Ok(())),
    },
    Case {
        bytes: "ab\ncd\n",
        failing: 3,
        least: 6,
        below: 9,
        first: ("ab/cd/", Err(LineFault::Read)),
        second: ("z/", Ok(())),
    },
];

// The lines of the started file, each with a slash behind it, and how they end.
fn read_lines(
    rt: &impl Abort,
    lines: &mut Lines,
    inputs: &mut MemoryInputs,
    all: &mut Text,
) -> Result<Result<(), LineFault>, NoMemory> {
    for _ in 0..9 {
        assert!(rt; lines.is_started());
        match lines.next(inputs) {
            Ok(Some(line)) => {
                all.append(line.bytes)?;
                all.push(b'/')?;
            }
            Ok(None) => return Ok(Ok(())),
            Err(fault) => return Ok(Err(fault)),
        }
    }
    Ok(Ok(()))
}

fn check_file(
    rt: &impl Abort,
    alloc: Global,
    lines: &mut Lines,
    inputs: &mut MemoryInputs,
    name: &str,
    ends: Ends,
) -> Result<(), NoMemory> {
    let started = lines.start(inputs, name);
    assert!(rt; started.is_ok());
    let mut all = Text::new(alloc);
    let end = read_lines(rt, lines, inputs, &mut all)?;
    assert!(rt; all.as_slice() == ends.0.as_bytes(), "the lines of {name}");
    assert_eq!(rt; end, ends.1, "the end of {name}");
    assert!(rt; !lines.is_started());
    Ok(())
}

fn inputs_of(
    rt: &impl Abort,
    alloc: Global,
    bytes: &str,
    failing: u64,
    piece: usize,
) -> Result<MemoryInputs, NoMemory> {
    let mut files = List::new(alloc);
    for (name, bytes) in [("t", bytes), ("u", "z")] {
        let name = Text::from_slice(alloc, name.as_bytes())?;
        files.push((name, Text::from_slice(alloc, bytes.as_bytes())?))?;
    }
    assert!(rt; piece > 0);
    let failing = List::from_slice(alloc, [failing].as_slice())?;
    Ok(MemoryInputs::new(files, failing, piece))
}

fn check_case(rt: &impl Abort, alloc: Global, case: &Case, piece: usize) -> Result<(), NoMemory> {
    let mut inputs = inputs_of(rt, alloc, case.bytes, case.failing, piece)?;
    let mut lines = Lines::new(alloc, LIMITS)?;
    check_file(rt, alloc, &mut lines, &mut inputs, "t", case.first)?;
    check_file(rt, alloc, &mut lines, &mut inputs, "u", case.second)
}

#[test]
fn lines_however_cut(rt: HostRuntime) -> Result<(), Fail> {
    for case in &CASES {
        for piece in case.least..case.below {
            check_case(&rt, rt.alloc(), case, piece)?;
        }
    }
    Ok(())
}
