// Sinks in memory, some of whose calls fail, and whose room is limited.
ghost use Rattle.std.specs.Prelude.{◌≡◌, ◌≤◌, ◌<◌, ◌-◌, ◌↔◌, ◌++◌, [], false, length, take, min, IsTrue, IfOk, OnOk, OnErr, IsErr, vec_capacity};
ghost use Rattle.dk_io.specs.Outside.{Rose, HasCause};
ghost use Rattle.dk_io.specs.Streams.{with_bytes};
ghost use Rattle.dk_io.specs.Calls.{uncalled, counted};
ghost use Rattle.dk_io.specs.InMemory.{kept_of, longer, texts_of, write_fails};

use crate::listed_calls::ListedCalls;
use crate::{Failed, Sinks, Stream};
use dk_base::{List, NoMemory};
use std::alloc::Global;
use std::marker::Model;

/// Streams in memory. The calls with the listed numbers fail, counted from 1, and those to a stream whose room is used up;
/// each other write takes as many bytes as the piece and the room allow.
#[derive(Drop)]
pub struct MemorySinks {
    report: Vec<u8>,
    messages: Vec<u8>,
    state: Vec<u8>,
    piece: usize,
    room: usize,
    calls: ListedCalls,
}

impl Model for MemorySinks {
    ghost use Rattle.std.specs.Prelude.{◌≤◌, ◌<◌, vec_capacity};
    ghost use Rattle.dk_io.specs.InMemory.{Kept};

    ghost Value = { Kept };

    ghost view = { λ m. record { report = m.report.items; messages = m.messages.items; state = m.state.items; piece = m.piece; room = m.room; calls = m.calls } };

    ghost invariant = { λ m. (0 < m.piece) × (m.room ≤ vec_capacity m.report) × (m.room ≤ vec_capacity m.messages) × (m.room ≤ vec_capacity m.state) };
}

// Adds as many of the bytes as the piece and the room allow.
fn add_part(kept: &mut Vec<u8>, room: usize, piece: usize, bytes: &[u8]) -> usize
    requires { room ≤ vec_capacity kept.old }
    ensures count { result ≡ min piece (min (length bytes.now) (room - length kept.old.items)) }
    ensures bound { result ≤ length bytes.now }
    ensures bytes { kept.new.items ≡ kept.old.items ++ take result bytes.now }
    ensures room { room ≤ vec_capacity kept.new }
{
    let left = room.saturating_sub(kept.len());
    let count = piece.min(bytes.len().min(left));
    if count > 0 {
        kept.extend_from_slice(&bytes[..count]).unwrap();
    }
    count
}

impl MemorySinks {
    /// Nothing is written, and no call was made. It takes the room for each stream at once, so no write takes memory.
    pub fn new(
        alloc: Global,
        failing: List<u64>,
        piece: usize,
        room: usize,
    ) -> Result<MemorySinks, NoMemory>
        requires { 0 < piece }
        ensures { IfOk result (λ sinks. sinks ≡ record { report = []; messages = []; state = []; piece = piece; room = room; calls = uncalled failing }) }
    {
        let report = Vec::with_capacity(alloc, room)?;
        let messages = Vec::with_capacity(alloc, room)?;
        let state = Vec::with_capacity(alloc, room)?;
        Ok(MemorySinks {
            report,
            messages,
            state,
            piece,
            room,
            calls: ListedCalls::new(failing),
        })
    }

    /// All bytes of a stream.
    pub fn written(&self, stream: Stream) -> &[u8]
        ensures { result.now ≡ kept_of self.now stream }
    {
        match stream {
            Stream::Report => self.report.as_slice(),
            Stream::Messages => self.messages.as_slice(),
            Stream::State => self.state.as_slice(),
        }
    }

    // Counts a write to a stream, and says whether it fails.
    fn count(&mut self, stream: Stream) -> bool
        ensures fails { result ≡ write_fails self.old stream }
        ensures counted { self.new ≡ record self.old { calls = counted result self.old.calls } }
        ensures later { self.old.calls.faults ≤ self.new.calls.faults }
        ensures rose { IsTrue result → Rose self.old.calls.faults self.new.calls.faults }
        ensures calm { result ≡ false → self.new.calls.faults ≡ self.old.calls.faults }
    {
        let fails = self.calls.next_fails() || self.room <= self.written(stream).len();
        self.calls.count(fails);
        fails
    }
}

impl Sinks for MemorySinks {
    ghost written = { texts_of };

    ghost faults = { λ m. m.calls.faults };

    fn write(&mut self, stream: Stream, bytes: &[u8]) -> Result<usize, Failed>
        requires { 0 < length bytes.now }
        ensures some { IfOk result (λ n. 0 < n) }
        ensures bound { IfOk result (λ n. n ≤ length bytes.now) }
        ensures bytes { IfOk result (λ n. texts_of self.new ≡ with_bytes (texts_of self.old) stream (take n bytes.now)) }
        ensures err { OnErr result (texts_of self.new ≡ texts_of self.old) }
        ensures calm { OnOk result (self.new.calls.faults ≡ self.old.calls.faults) }
        ensures cause { HasCause self.old.calls.faults self.new.calls.faults result }

        // The call fails exactly where it is listed or the stream's room is used up, and the count of faults rises exactly there.
        ensures fails { IsErr result ↔ IsTrue (write_fails self.old stream) }
        ensures counted { self.new.calls ≡ counted (write_fails self.old stream) self.old.calls }
        ensures moved { IfOk result (λ n. n ≡ min self.old.piece (min (length bytes.now) (self.old.room - length (kept_of self.old stream)))) }
        ensures stays { IfOk result (λ n. self.new ≡ record (longer self.old stream (take n bytes.now)) { calls = self.new.calls }) }
        ensures nothing { OnErr result (self.new ≡ record self.old { calls = self.new.calls }) }
    {
        if self.count(stream) {
            return Err(Failed);
        }
        Ok(match stream {
            Stream::Report => add_part(&mut self.report, self.room, self.piece, bytes),
            Stream::Messages => add_part(&mut self.messages, self.room, self.piece, bytes),
            Stream::State => add_part(&mut self.state, self.room, self.piece, bytes),
        })
    }
}
