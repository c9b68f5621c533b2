// What stands behind values in records.
ghost use Rattle.std.specs.Prelude.{◌≡◌, ◌++◌, IfOk, OnOk};
ghost use Rattle.dk_table.specs.Writing.Forms.{tail_of};

use dk_base::{NoMemory, Text};
use std::alloc::Global;

/// What stands behind a value's text in a record, its mark and what follows; and the lines of a missing value with the same behind them.
#[derive(Drop)]
pub(crate) struct Tail {
    told: Text,
    untold: Text,
}

impl Tail {
    /// The tail of a value that this follows.
    pub(crate) fn new(alloc: Global, next: &[u8]) -> Result<Tail, NoMemory>
        ensures { IfOk result (λ tail. tail ≡ tail_of next.now) }
    {
        let mut told = Text::from_slice(alloc, b"\n1\n")?;
        told.append(next)?;
        let mut untold = Text::from_slice(alloc, b"nonsensical\n2\n")?;
        untold.append(next)?;
        Ok(Tail { told, untold })
    }

    /// What stands behind a value's text.
    pub(crate) fn push(&self, text: &mut Vec<u8>) -> Result<(), NoMemory>
        ensures { OnOk result (text.new.items ≡ text.old.items ++ self.now.told) }
    {
        text.extend_from_slice(self.told.as_slice())?;
        Ok(())
    }

    /// A value with this text, and what follows.
    pub(crate) fn push_told(&self, text: &mut Vec<u8>, told: &[u8]) -> Result<(), NoMemory>
        ensures { OnOk result (text.new.items ≡ text.old.items ++ (told.now ++ self.now.told)) }
    {
        text.extend_from_slice(told)?;
        self.push(text)
    }

    /// A missing value, and what follows.
    pub(crate) fn push_untold(&self, text: &mut Vec<u8>) -> Result<(), NoMemory>
        ensures { OnOk result (text.new.items ≡ text.old.items ++ self.now.untold) }
    {
        text.extend_from_slice(self.untold.as_slice())?;
        Ok(())
    }
}
