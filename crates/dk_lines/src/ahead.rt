// Bytes that were read ahead.
ghost use Rattle.std.specs.Prelude.{◌≡◌, ◌≤◌, ◌<◌, ◌+◌, [], length, take, drop, IfOk, OnOk, OnErr, IsTrue, Ok, false};
ghost use Rattle.std.specs.Io.KnownBytes.{prepend_known, IsAtEnd};
ghost use Rattle.dk_io.specs.Outside.{HasCause};
ghost use Rattle.dk_lines.specs.Gathering.{CutLine};

use dk_base::NoMemory;
use dk_io::{Failed, Inputs};
use std::alloc::Global;
use std::marker::Model;

/// A piece of a file: bytes that were read and not yet used, and the line that was cut from them last.
#[derive(Drop)]
pub(crate) struct Ahead {
    piece: Vec<u8>,
    from: usize,
    to: usize,
    line_from: usize,
    line_to: usize,
}

impl Model for Ahead {
    ghost use Rattle.std.specs.Prelude.{◌≤◌, ◌<◌, ◌-◌, length, take, drop};
    ghost use Rattle.dk_lines.specs.Gathering.{CutLine};

    ghost Value = { CutLine };

    ghost view = { λ a. record { bytes = take (a.to - a.from) (drop a.from a.piece.items); line = take (a.line_to - a.line_from) (drop a.line_from a.piece.items) } };

    ghost invariant = { λ a. (a.from ≤ a.to) × (a.to ≤ length a.piece.items) × (a.line_from ≤ a.line_to) × (a.line_to ≤ length a.piece.items) × (0 < length a.piece.items) };
}

impl Ahead {
    /// Nothing was read. A read gives at most this many bytes.
    pub(crate) fn new(alloc: Global, size: usize) -> Result<Ahead, NoMemory>
        requires { 0 < size }
        ensures { IfOk result (λ ahead. ahead ≡ record { bytes = []; line = [] }) }
    {
        Ok(Ahead {
            piece: vec![in alloc; 0; size]?,
            from: 0,
            to: 0,
            line_from: 0,
            line_to: 0,
        })
    }

    /// What was read ahead is given up.
    pub(crate) fn clear(&mut self)
        ensures { self.new ≡ record { bytes = []; line = [] } }
    {
        self.from = 0;
        self.to = 0;
        self.line_from = 0;
        self.line_to = 0;
    }

    /// The bytes that were not yet used.
    pub(crate) fn bytes(&self) -> &[u8]
        ensures { result.now ≡ self.now.bytes }
    {
        &self.piece[self.from..self.to]
    }

    /// The line that was cut off last.
    pub(crate) fn line(&self) -> &[u8]
        ensures { result.now ≡ self.now.line }
    {
        &self.piece[self.line_from..self.line_to]
    }

    /// Uses the first bytes.
    pub(crate) fn skip(&mut self, count: usize)
        requires { count ≤ length self.old.bytes }
        ensures { self.new ≡ record self.old { bytes = drop count self.old.bytes } }
    {
        self.from += count;
    }

    /// Uses the first bytes, and gives up the line that was cut off last.
    pub(crate) fn pass(&mut self, count: usize)
        requires { count ≤ length self.old.bytes }
        ensures { self.new ≡ record { bytes = drop count self.old.bytes; line = [] } }
    {
        self.skip(count);
        self.line_from = 0;
        self.line_to = 0;
    }

    /// Cuts off a line of this length, and the LF behind it.
    pub(crate) fn cut(&mut self, len: usize)
        requires { len < length self.old.bytes }
        ensures { self.new ≡ record { bytes = drop (len + 1) self.old.bytes; line = take len self.old.bytes } }
    {
        self.line_from = self.from;
        self.line_to = self.from + len;
        self.from += len + 1;
    }

    /// Whether bytes are there. Where none are, the next piece is read; none come only at the end.
    pub(crate) fn ready<I: Inputs>(&mut self, inputs: &mut I) -> Result<bool, Failed>
        ensures files { I.file inputs.new ≡ I.file inputs.old }
        ensures left { OnOk result (prepend_known self.old.bytes (I.rest inputs.old) ≡ prepend_known self.new.bytes (I.rest inputs.new)) }
        ensures some { IfOk result (λ is_ready. IsTrue is_ready → 0 < length self.new.bytes) }
        ensures end { result ≡ Ok false → (self.new.bytes ≡ []) × IsAtEnd (I.rest inputs.new) }
        ensures none { OnErr result ((self.old.bytes ≡ []) × (self.new.bytes ≡ [])) }
        ensures err { OnErr result (I.rest inputs.new ≡ I.rest inputs.old) }
        ensures cause { HasCause (I.faults inputs.old) (I.faults inputs.new) result }
    {
        if self.bytes().is_empty() {
            self.fill(inputs)?;
        }
        Ok(!self.bytes().is_empty())
    }

    /// Reads the next piece in place of what was there. Nothing comes only at the end.
    fn fill<I: Inputs>(&mut self, inputs: &mut I) -> Result<(), Failed>
        ensures files { I.file inputs.new ≡ I.file inputs.old }
        ensures bytes { OnOk result (I.rest inputs.old ≡ prepend_known self.new.bytes (I.rest inputs.new)) }
        ensures end { OnOk result (self.new.bytes ≡ [] → IsAtEnd (I.rest inputs.new)) }
        ensures err { OnErr result (I.rest inputs.new ≡ I.rest inputs.old) }
        ensures none { OnErr result (self.new.bytes ≡ []) }
        ensures cause { HasCause (I.faults inputs.old) (I.faults inputs.new) result }
    {
        self.from = 0;
        self.to = 0;
        self.line_from = 0;
        self.line_to = 0;
        self.to = inputs.read(&mut self.piece)?;
        Ok(())
    }
}
