// The real files. They count each error, and tell no bytes.
ghost use Rattle.std.specs.Prelude.{◌≡◌, ◌≤◌, ◌<◌, ◌⊎◌, length, None, IfOk, OnErr, is_ok, if◌then◌else◌};
ghost use Rattle.dk_io.specs.Calls.{one_more};
ghost use Rattle.dk_io.specs.Outside.{Untold, Absent, Rose, HasCause};

use dk_io::{Failed, Inputs};
use std::fs;
use std::io::Read;
use std::marker::Model;
use std::rt::Files;

/// Real files. Each error of the system is a fault. Contracts see the count of faults.
#[derive(Drop)]
pub struct FileInputs<R: Files> {
    rt: R,
    open: Option<R::File>,
    faults: u64,
}

impl<R: Files> Model for FileInputs<R> {
    ghost use Rattle.std.specs.Prelude.{ℕ};

    ghost Value = { ℕ };

    ghost view = { λ f. f.faults };
}

impl<R: Files> FileInputs<R> {
    /// No file is started, and no fault was met.
    pub fn new(rt: R) -> FileInputs<R>
        ensures { result ≡ 0 }
    {
        FileInputs {
            rt,
            open: None,
            faults: 0,
        }
    }
}

impl<R: Files> Inputs for FileInputs<R> {
    ghost file = { λ _ _. Untold };

    ghost rest = { λ _. None };

    ghost faults = { λ faults. faults };

    fn start(&mut self, name: &str) -> Result<(), Failed>
        ensures later { self.old ≤ self.new }
        ensures cause { OnErr result ((Untold ≡ Absent) ⊎ Rose self.old self.new) }
        ensures counted { self.new ≡ (if is_ok result then self.old else one_more self.old) }
    {
        match fs::open(&self.rt, name) {
            Ok(file) => {
                self.open = Some(file);
                Ok(())
            }
            Err(_) => {
                self.faults = self.faults.saturating_add(1);
                Err(Failed)
            }
        }
    }

    fn read(&mut self, buf: &mut [u8]) -> Result<usize, Failed>
        requires { 0 < length buf.old }
        ensures bound { IfOk result (λ n. n ≤ length buf.new) }
        ensures cause { HasCause self.old self.new result }
        ensures counted { self.new ≡ (if is_ok result then self.old else one_more self.old) }
    {
        let Some(file) = &mut self.open else {
            return Ok(0);
        };
        match file.read(buf) {
            Ok(count) => Ok(count),
            Err(_) => {
                self.faults = self.faults.saturating_add(1);
                Err(Failed)
            }
        }
    }
}
