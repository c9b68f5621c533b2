// Every public call once, and what comes of listed calls, absent names and used up room.
ghost use Rattle.std.specs.Prelude.{◌<◌};

use dk_base::{List, NoMemory, Text};
use dk_host::{FileInputs, HostSinks};
use dk_io::{
    AllFault, Failed, Inputs, MemoryInputs, MemorySinks, Sinks, SteadyInputs, SteadySinks, Stream,
    read_all, write_all,
};
use std::alloc::Global;
use std::process::Abort;
use std::test::Fail;

// Two files of one name, and an empty one.
fn some_files(alloc: Global) -> Result<List<(Text, Text)>, NoMemory> {
    let mut files = List::new(alloc);
    for (name, bytes) in [("t", "0123456789"), ("t", "another"), ("u", "")] {
        let name = Text::from_slice(alloc, name.as_bytes())?;
        let bytes = Text::from_slice(alloc, bytes.as_bytes())?;
        files.push((name, bytes))?;
    }
    Ok(files)
}

fn inputs_of(alloc: Global, failing: &[u64], piece: usize) -> Result<MemoryInputs, NoMemory>
    requires { 0 < piece }
{
    let failing = List::from_slice(alloc, failing)?;
    Ok(MemoryInputs::new(some_files(alloc)?, failing, piece))
}

/// What each read answers in turn, with its bytes.
static READS: [(Result<usize, Failed>, &'static str); 5] = [
    (Err(Failed), ""),
    (Ok(8), "01234567"),
    (Ok(2), "89"),
    (Err(Failed), ""),
    (Ok(0), ""),
];

fn check_read(
    rt: &impl Abort,
    inputs: &mut MemoryInputs,
    want: Result<usize, Failed>,
    bytes: &str,
) {
    let mut buf = [0u8; 9];
    let answer = inputs.read(&mut buf);
    assert_eq!(rt; answer, want);
    if let Ok(count) = answer {
        assert!(rt; &buf[..count] == bytes.as_bytes());
    }
}

#[test]
fn inputs_in_memory(rt: HostRuntime) -> Result<(), Fail> {
    let mut inputs = inputs_of(rt.alloc(), [2, 5].as_slice(), 8)?;
    assert_eq!(rt; inputs.start("t"), Ok(()));
    for (want, bytes) in &READS {
        check_read(&rt, &mut inputs, *want, bytes);
    }
    assert_eq!(rt; inputs.start("v"), Err(Failed));
    assert_eq!(rt; inputs.start("u"), Ok(()));
    check_read(&rt, &mut inputs, Ok(0), "");
    Ok(())
}

/// The call that fails, the limit, and what reading the whole file answers.
static WHOLE: [(u64, u64, Result<&'static str, AllFault>); 5] = [
    (9, 9, Err(AllFault::TooLong)),
    (9, 10, Ok("0123456789")),
    (9, 11, Ok("0123456789")),
    (4, 11, Err(AllFault::Read)),
    (4, 5, Err(AllFault::TooLong)),
];

fn check_whole<I: Inputs>(
    rt: &impl Abort,
    alloc: Global,
    inputs: &mut I,
    name: &str,
    limit: u64,
    want: Result<&str, AllFault>,
) {
    assert!(rt; inputs.start(name).is_ok());
    match read_all(alloc, inputs, limit) {
        Ok(text) => assert!(rt; want.is_ok_and(|bytes| text.as_slice() == bytes.as_bytes())),
        Err(fault) => assert!(rt; want.err() == Some(fault)),
    }
}

#[test]
fn whole_files(rt: HostRuntime) -> Result<(), Fail> {
    let alloc = rt.alloc();
    for (failing, limit, want) in &WHOLE {
        let mut inputs = inputs_of(alloc, [*failing].as_slice(), 3)?;
        check_whole(&rt, alloc, &mut inputs, "t", *limit, *want);
    }
    let mut steady = SteadyInputs::new(some_files(alloc)?, 3);
    check_whole(&rt, alloc, &mut steady, "t", 10, Ok("0123456789"));
    check_whole(&rt, alloc, &mut steady, "v", 10, Ok(""));
    Ok(())
}

/// What is written in turn, and what each write answers.
static WRITES: [(Stream, &'static str, Result<usize, Failed>); 5] = [
    (Stream::Report, "abcdef", Ok(3)),
    (Stream::Report, "def", Err(Failed)),
    (Stream::Report, "def", Ok(2)),
    (Stream::Report, "f", Err(Failed)),
    (Stream::Messages, "xy", Ok(2)),
];

#[test]
fn sinks_in_memory(rt: HostRuntime) -> Result<(), Fail> {
    let alloc = rt.alloc();
    let mut sinks = MemorySinks::new(alloc, List::from_slice(alloc, [2].as_slice())?, 3, 5)?;
    for (stream, bytes, want) in &WRITES {
        assert!(rt; !bytes.as_bytes().is_empty());
        assert!(rt;
            sinks.write(*stream, bytes.as_bytes()) == *want,
            "at {bytes}"
        );
    }
    assert!(rt; write_all(&mut sinks, Stream::State, b"012345".as_slice()).is_err());
    assert!(rt; sinks.written(Stream::Report) == b"abcde".as_slice());
    assert!(rt; sinks.written(Stream::Messages) == b"xy".as_slice());
    assert!(rt; sinks.written(Stream::State) == b"01234".as_slice());
    let mut steady = SteadySinks::new();
    assert!(rt; write_all(&mut steady, Stream::Report, b"abc".as_slice()).is_ok());
    assert_eq!(rt; steady.count(), 3);
    Ok(())
}

#[test]
fn real_streams(rt: HostRuntime) {
    let mut inputs = FileInputs::new(rt);
    assert_eq!(rt; inputs.start("no such file"), Err(Failed));
    let mut sinks = HostSinks::new(rt, rt.stdout(), rt.stderr());
    for stream in [Stream::Report, Stream::Messages] {
        assert_eq!(rt; write_all(&mut sinks, stream, b"text\n".as_slice()), Ok(()));
    }
    assert_eq!(rt; sinks.finish(3), 3);
}
