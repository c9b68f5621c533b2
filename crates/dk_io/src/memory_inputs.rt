// Inputs in memory, some of whose calls fail.
ghost use Rattle.std.specs.Prelude.{◌≡◌, ◌≤◌, ◌<◌, ◌⊎◌, ◌↔◌, [], length, take, min, Some, IsTrue, IfOk, OnOk, OnErr, IsErr};
ghost use Rattle.std.specs.Io.KnownBytes.{prepend_known, IsAtEnd};
ghost use Rattle.dk_io.specs.Outside.{Absent, Rose, HasCause, Starts};
ghost use Rattle.dk_io.specs.NamedFiles.{named_file};
ghost use Rattle.dk_io.specs.Calls.{uncalled, next_fails, counted};

use crate::listed_calls::ListedCalls;
use crate::named_files::NamedFiles;
use crate::{Failed, Inputs};
use dk_base::{List, Text};
use std::marker::Model;

/// Files in memory. Of two files of one name the first counts. The calls with the listed numbers fail, counted from 1;
/// each other read moves as many bytes as the piece, the buffer and the rest of the file allow.
#[derive(Drop)]
pub struct MemoryInputs {
    files: NamedFiles,
    calls: ListedCalls,
}

impl Model for MemoryInputs {
    ghost use Rattle.dk_io.specs.InMemory.{InMemory};

    ghost Value = { InMemory };

    ghost view = { λ m. record { files = m.files; calls = m.calls } };
}

impl MemoryInputs {
    /// No file is started, and no call was made.
    pub fn new(files: List<(Text, Text)>, failing: List<u64>, piece: usize) -> MemoryInputs
        requires { 0 < piece }
        ensures files { result.files ≡ record { named = files; piece = piece; rest = [] } }
        ensures calls { result.calls ≡ uncalled failing }
    {
        MemoryInputs {
            files: NamedFiles::new(files, piece),
            calls: ListedCalls::new(failing),
        }
    }

    // Counts a call, and says whether it fails.
    fn count(&mut self) -> bool
        ensures fails { result ≡ next_fails self.old.calls }
        ensures counted { self.new ≡ record self.old { calls = counted result self.old.calls } }
        ensures later { self.old.calls.faults ≤ self.new.calls.faults }
        ensures rose { IsTrue result → Rose self.old.calls.faults self.new.calls.faults }
    {
        let fails = self.calls.next_fails();
        self.calls.count(fails);
        fails
    }
}

impl Inputs for MemoryInputs {
    ghost file = { λ m. named_file m.files.named };

    ghost rest = { λ m. Some m.files.rest };

    ghost faults = { λ m. m.calls.faults };

    fn start(&mut self, name: &str) -> Result<(), Failed>
        ensures files { named_file self.new.files.named ≡ named_file self.old.files.named }
        ensures rest { OnOk result (Starts (named_file self.old.files.named name.now) (Some self.new.files.rest)) }
        ensures err { OnErr result (Some self.new.files.rest ≡ Some self.old.files.rest) }
        ensures later { self.old.calls.faults ≤ self.new.calls.faults }
        ensures cause { OnErr result ((named_file self.old.files.named name.now ≡ Absent) ⊎ Rose self.old.calls.faults self.new.calls.faults) }

        // The call is refused exactly where it is listed or the name is absent. The count of faults rises exactly where it is listed.
        ensures listed { IsTrue (next_fails self.old.calls) → IsErr result }
        ensures fails { IsErr result → IsTrue (next_fails self.old.calls) ⊎ (named_file self.old.files.named name.now ≡ Absent) }
        ensures counted { self.new.calls ≡ counted (next_fails self.old.calls) self.old.calls }
        ensures stays { self.new.files ≡ record self.old.files { rest = self.new.files.rest } }
    {
        if self.count() {
            return Err(Failed);
        }
        if self.files.start(name.as_bytes()) {
            Ok(())
        } else {
            Err(Failed)
        }
    }

    fn read(&mut self, buf: &mut [u8]) -> Result<usize, Failed>
        requires { 0 < length buf.old }
        ensures files { named_file self.new.files.named ≡ named_file self.old.files.named }
        ensures bound { IfOk result (λ n. n ≤ length buf.new) }
        ensures bytes { IfOk result (λ n. Some self.old.files.rest ≡ prepend_known (take n buf.new) (Some self.new.files.rest)) }
        ensures end { IfOk result (λ n. n ≡ 0 → IsAtEnd (Some self.new.files.rest)) }
        ensures err { OnErr result (Some self.new.files.rest ≡ Some self.old.files.rest) }
        ensures cause { HasCause self.old.calls.faults self.new.calls.faults result }

        // The call fails exactly where it is listed, and the count of faults rises exactly there.
        ensures listed { IsErr result ↔ IsTrue (next_fails self.old.calls) }
        ensures counted { self.new.calls ≡ counted (next_fails self.old.calls) self.old.calls }
        ensures moved { IfOk result (λ n. n ≡ min self.old.files.piece (min (length buf.old) (length self.old.files.rest))) }
        ensures stays { self.new.files ≡ record self.old.files { rest = self.new.files.rest } }
    {
        if self.count() {
            return Err(Failed);
        }
        Ok(self.files.read(buf))
    }
}
