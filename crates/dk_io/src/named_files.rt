// Files by name, which the inputs in memory read from.
ghost use Rattle.std.specs.Prelude.{◌≡◌, ◌≤◌, ◌<◌, ◌++◌, [], length, take, min, MatchOption};
ghost use Rattle.std.specs.Bool.{OnTrue, OnFalse};
ghost use Rattle.dk_io.specs.Outside.{Absent, Holds};
ghost use Rattle.dk_io.specs.NamedFiles.{Files, named_file, bytes_at};

use dk_base::{List, Text};
use std::marker::Model;

/// Files by name, one of which is read from its front on, at most a piece at a time.
#[derive(Drop)]
pub(crate) struct NamedFiles {
    named: List<(Text, Text)>,
    piece: usize,
    started: usize,
    from: usize,
}

impl Model for NamedFiles {
    ghost use Rattle.std.specs.Prelude.{◌≤◌, ◌<◌, length, drop};
    ghost use Rattle.dk_io.specs.NamedFiles.{Files, bytes_at};

    ghost Value = { Files };

    ghost view = { λ f. record { named = f.named; piece = f.piece; rest = drop f.from (bytes_at f.named f.started) } };

    ghost invariant = { λ f. (0 < f.piece) × (f.from ≤ length (bytes_at f.named f.started)) };
}

// The place of the first file of a name.
fn place_of(files: &[(Text, Text)], name: &[u8]) -> Option<usize>
    ensures { MatchOption result (named_file files.now name.now ≡ Absent) (λ place. named_file files.now name.now ≡ Holds (bytes_at files.now place)) }
{
    let mut rest = files;
    let mut place = 0usize;
    while let [file, others @ ..] = rest {
        if file.0.as_slice() == name {
            return Some(place);
        }
        rest = others;
        place += 1;
    }
    None
}

// The bytes of the file at a place, and none behind the last.
fn bytes_at_place(files: &[(Text, Text)], place: usize) -> &[u8]
    ensures { result.now ≡ bytes_at files.now place }
{
    if place < files.len() {
        files[place].1.as_slice()
    } else {
        &[]
    }
}

impl NamedFiles {
    /// No file is started.
    pub(crate) fn new(named: List<(Text, Text)>, piece: usize) -> NamedFiles
        requires { 0 < piece }
        ensures { result ≡ record { named = named; piece = piece; rest = [] } }
    {
        let started = named.as_slice().len();
        NamedFiles {
            named,
            piece,
            started,
            from: 0,
        }
    }

    /// Goes to the front of the first file of the name. False where there is none, and then nothing changes.
    pub(crate) fn start(&mut self, name: &[u8]) -> bool
        ensures found { OnTrue result (named_file self.old.named name.now ≡ Holds self.new.rest) }
        ensures absent { OnFalse result (named_file self.old.named name.now ≡ Absent) }
        ensures same { OnFalse result (self.new ≡ self.old) }
        ensures stays { self.new ≡ record self.old { rest = self.new.rest } }
    {
        match place_of(self.named.as_slice(), name) {
            Some(place) => {
                self.started = place;
                self.from = 0;
                true
            }
            None => false,
        }
    }

    /// Goes to the front of an empty file.
    pub(crate) fn start_empty(&mut self)
        ensures { self.new ≡ record self.old { rest = [] } }
    {
        self.started = self.named.as_slice().len();
        self.from = 0;
    }

    /// Moves bytes from the front of what is left to the front of the buffer: as many as the piece, the buffer and the rest allow.
    pub(crate) fn read(&mut self, buf: &mut [u8]) -> usize
        requires { 0 < length buf.old }
        ensures count { result ≡ min self.old.piece (min (length buf.old) (length self.old.rest)) }
        ensures bytes { self.old.rest ≡ take result buf.new ++ self.new.rest }
        ensures end { result ≡ 0 → self.new.rest ≡ [] }
        ensures stays { self.new ≡ record self.old { rest = self.new.rest } }
    {
        let bytes = bytes_at_place(self.named.as_slice(), self.started);
        let rest = &bytes[self.from..];
        let count = self.piece.min(buf.len()).min(rest.len());
        buf[..count].copy_from_slice(&rest[..count]);
        self.from += count;
        count
    }
}
