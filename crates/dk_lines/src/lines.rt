// Lines, one after another.
ghost use Rattle.std.specs.Prelude.{◌≡◌, ◌≤◌, ◌<◌, ◌+◌, ◌-◌, ◌^◌, ◌⊎◌, ℕ, List, [], length, take, drop, true, false, OnOk, OnErr, IfOk, IsErrOf, is_ok};
ghost use Rattle.dk_io.specs.Outside.{Absent, Rose, Starts};
ghost use Rattle.dk_lines.specs.Left.{without_cr};
ghost use Rattle.dk_lines.specs.Passing.{AreLines, PassesLines, ready_of};

use crate::ahead::Ahead;
use crate::gather::{Stopped, Upcoming, gather};
use dk_base::NoMemory;
use dk_io::{Failed, Inputs};
use std::alloc::Global;
use std::marker::Model;
use thiserror::Error;

/// How many bytes are read at a time.
const PIECE: usize = 65_536;

/// How many bytes a line may have in front of its LF, and how many all lines may have together, each with its LF.
#[derive(Clone, Copy, Debug, PartialEq, Eq)]
pub struct Limits {
    pub line: u64,
    pub total: u64,
}

impl Limits {
    /// The limits of the program: 2^24 and 2^40.
    pub const STANDARD: Limits = Limits {
        line: 16_777_216,
        total: 1_099_511_627_776,
    };
}

/// A line, without its LF and one CR in front of it. Lines are numbered from 1 in each file.
#[derive(Clone, Copy, Debug)]
pub struct Line<'a> {
    pub number: u64,
    pub bytes: &'a [u8],
}

/// Why there is no next line.
#[derive(Clone, Copy, Debug, PartialEq, Eq, Error)]
pub enum LineFault {
    /// A read failed.
    #[error("the file could not be read")]
    Read,
    /// This line has more bytes in front of its LF than a line may have.
    #[error("line {line} is too long")]
    LongLine { line: u64 },
    /// All lines together have more bytes than they may have, and the first that is too many is in this line.
    #[error("the files are too long at line {line}")]
    TooLong { line: u64 },
    /// Memory could not be had.
    #[error("out of memory")]
    NoMemory,
}

/// Reads the lines of one file after another. A file is cut at LF; bytes behind the last LF are a line, if there are any.
/// The bytes of all files count towards the limit of all lines.
#[derive(Drop)]
pub struct Lines {
    limits: Limits,
    is_started: bool,
    number: u64,
    total: u64,
    ahead: Ahead,
    line: Vec<u8>,
}

impl Model for Lines {
    ghost use Rattle.std.specs.Prelude.{◌≤◌, ◌<◌, ◌+◌, ◌-◌, ◌^◌};
    ghost use Rattle.dk_lines.specs.Reading.{Reading};
    ghost use Rattle.dk_lines.specs.Gathering.{gathered_line};

    ghost Value = { Reading };

    ghost view = { λ l. record { limits = l.limits; is_started = l.is_started; number = l.number; total = l.total; ahead = l.ahead.bytes; line = gathered_line l.line.items l.ahead.line } };

    ghost invariant = { λ l. (l.limits.total < 2 ^ 64 - 1) × (l.total ≤ l.limits.total + 1) × (l.number ≤ l.total) × (l.number ≤ l.limits.total) };
}

impl Lines {
    ghost use Rattle.std.specs.Borrow.{sem};
    ghost use Rattle.std.specs.Io.BufRead.{Rests};
    ghost use Rattle.dk_lines.specs.Reading.{left_of};
    ghost use Rattle.dk_lines.specs.Answers.{heard, IsNextLine};
    ghost use Rattle.dk_lines.specs.Gathering.{next_answer};
    ghost use Rattle.dk_lines.specs.contracts.lines.Lines.{the_row};

    /// No file is started.
    pub fn new(alloc: Global, limits: Limits) -> Result<Lines, NoMemory>
        requires { limits.total < 2 ^ 64 - 1 }
        ensures { IfOk result (λ lines. lines ≡ record { limits = limits; is_started = false; number = 0; total = 0; ahead = []; line = [] }) }
    {
        Ok(Lines {
            limits,
            is_started: false,
            number: 0,
            total: 0,
            ahead: Ahead::new(alloc, PIECE)?,
            line: Vec::new(alloc),
        })
    }

    /// Starts a file: the next line is its line 1. What was read ahead of an earlier one is given up, and the total goes on.
    /// After a failed call no file is started.
    pub fn start<I: Inputs>(&mut self, inputs: &mut I, name: &str) -> Result<(), Failed>
        ensures lines { self.new ≡ record self.old { is_started = is_ok result; number = 0; ahead = []; line = [] } }
        ensures files { I.file inputs.new ≡ I.file inputs.old }
        ensures rest { OnOk result (Starts (I.file inputs.old name.now) (I.rest inputs.new)) }
        ensures err { OnErr result (I.rest inputs.new ≡ I.rest inputs.old) }
        ensures later { I.faults inputs.old ≤ I.faults inputs.new }
        ensures cause { OnErr result ((I.file inputs.old name.now ≡ Absent) ⊎ Rose (I.faults inputs.old) (I.faults inputs.new)) }
    {
        self.is_started = false;
        self.number = 0;
        self.ahead.clear();
        self.line.clear();
        inputs.start(name)?;
        self.is_started = true;
        Ok(())
    }

    /// The next line, or None at the file's end. After None or a fault no file is started.
    ///
    /// A fault of a limit comes at the first byte that is too many. At one byte the limit of the line stands before that of all lines.
    /// A line that was read to its end is answered in place of a failed read behind it.
    pub fn next<I: Inputs>(&mut self, inputs: &mut I) -> Result<Option<Line<'_>>, LineFault>
        requires { self.old.is_started ≡ true }
        ensures* next { sem 𝓛 (Rests the_row self.entry (λ new.
            IsNextLine self.old (left_of self.old (I.rest inputs.old)) (heard result) new (left_of new (I.rest inputs.new)))) }
        ensures files { I.file inputs.new ≡ I.file inputs.old }
        ensures later { I.faults inputs.old ≤ I.faults inputs.new }
        ensures cause { IsErrOf result LineFault.Read → Rose (I.faults inputs.old) (I.faults inputs.new) }
    {
        if !self.advance(inputs)? {
            return Ok(None);
        }
        Ok(Some(self.current()))
    }

    /// Whether a file is started.
    pub fn is_started(&self) -> bool
        ensures { result ≡ self.now.is_started }
    {
        self.is_started
    }

    /// The number that the next line would have.
    pub fn next_number(&self) -> u64
        ensures { result ≡ self.now.number + 1 }
    {
        self.number + 1
    }

    /// The bytes at hand, as far as lines in them can keep the limits. There may be none, and then `next` reads more.
    pub fn ready(&self) -> &[u8]
        ensures { result.now ≡ ready_of self.now }
    {
        let room = self.limits.total.saturating_sub(self.total);
        let bytes = self.ahead.bytes();
        let len = (bytes.len() as u64).min(self.limits.line).min(room);
        &bytes[..len as usize]
    }

    /// Uses so many bytes of those at hand, which are so many lines with their LFs. It does what reading them one by one would do.
    pub fn pass(&mut self, used: usize, count: u64)
        requires within { used ≤ length (ready_of self.old) }
        requires lines { (ls : List (List ℕ)) × AreLines ls (take used self.old.ahead) count }
        ensures state { self.new ≡ record self.old { number = self.old.number + count; total = self.old.total + used; ahead = drop used self.old.ahead; line = [] } }
        ensures passes { (ls : List (List ℕ)) → AreLines ls (take used self.old.ahead) count → PassesLines self.old ls self.new }
    {
        self.ahead.pass(used);
        self.line.clear();
        self.number += count;
        self.total += used as u64;
    }

    // The line that was read last.
    fn current(&self) -> Line<'_>
        ensures number { result.number ≡ self.now.number }
        ensures bytes { result.bytes.now ≡ without_cr self.now.line }
    {
        let line = if self.line.is_empty() {
            self.ahead.line()
        } else {
            self.line.as_slice()
        };
        Line {
            number: self.number,
            bytes: drop_cr(line),
        }
    }

    // Goes to the next line, where there is one.
    fn advance<I: Inputs>(&mut self, inputs: &mut I) -> Result<bool, LineFault>
        requires { self.old.is_started ≡ true }
        ensures next { IsNextLine self.old (left_of self.old (I.rest inputs.old)) (next_answer self.new result) self.new (left_of self.new (I.rest inputs.new)) }
        ensures files { I.file inputs.new ≡ I.file inputs.old }
        ensures later { I.faults inputs.old ≤ I.faults inputs.new }
        ensures cause { IsErrOf result LineFault.Read → Rose (I.faults inputs.old) (I.faults inputs.new) }
    {
        let limit = self.limits.line;
        let room = self.limits.total.saturating_sub(self.total);
        let found = gather(inputs, &mut self.ahead, &mut self.line, limit, room);
        self.is_started = false;
        match found {
            Ok(Upcoming::Line(used)) => {
                self.is_started = true;
                self.number += 1;
                self.total += used;
                Ok(true)
            }
            Ok(Upcoming::End) => Ok(false),
            Ok(Upcoming::Long) => {
                self.total = self
                    .total
                    .saturating_add(limit + 1)
                    .min(self.limits.total + 1);
                Err(LineFault::LongLine {
                    line: self.number + 1,
                })
            }
            Ok(Upcoming::Many) => {
                self.total = self.limits.total + 1;
                Err(LineFault::TooLong {
                    line: self.number + 1,
                })
            }
            Err(Stopped::Read) => {
                self.total += self.line.len() as u64;
                Err(LineFault::Read)
            }
            Err(Stopped::Memory) => Err(LineFault::NoMemory),
        }
    }
}

// Leaves one CR at the end out.
fn drop_cr(line: &[u8]) -> &[u8]
    ensures { result.now ≡ without_cr line.now }
{
    match line {
        [front @ .., b'\r'] => front,
        _ => line,
    }
}
