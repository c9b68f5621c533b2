// A writer of traces.
ghost use Rattle.std.specs.Prelude.{◌≡◌, ◌<◌, [], IfOk, IsErrOf, OnOk, false, true, length, slice_get, Some};
ghost use Rattle.dk_base.specs.Values.{values_of};
ghost use Rattle.dk_io.specs.Outside.{Rose};
ghost use Rattle.dk_decl.specs.declared.decls.PointDecl.{PointDecl};
ghost use Rattle.dk_write.specs.Records.{Recorded};
ghost use Rattle.dk_write.specs.Texts.{block_text, Begins, Declares, Records};
ghost use Rattle.dk_write.specs.Writable.{can_declare as can_declare_of, can_record as can_record_of};
ghost use Rattle.dk_write.specs.Writing.{Adds, declared_with, knows};
ghost use Rattle.dk_write.specs.declared.writer.WriteFault.TheVariants.{NoMemory as OutOfMemory, Write as NotWritten};

use crate::declarations::push_declaration;
use crate::records::push_record;
use crate::writable::{can_declare, can_record};
use dk_base::{List, NoMemory, Text, View, same_bytes};
use dk_decl::PointDecl;
use dk_io::{Failed, Sinks, Stream, write_all};
use std::alloc::Global;
use std::marker::Model;
use thiserror::Error;

/// Why a block was not written.
#[derive(Clone, Copy, Debug, PartialEq, Eq, Error)]
pub enum WriteFault {
    /// Its lines don't tell it.
    #[error("no lines tell it")]
    Unwritable,
    /// A point of this name is declared.
    #[error("the point is declared")]
    Known,
    /// Writing failed; the stream may have a front of the block.
    #[error("the trace could not be written")]
    Write,
    /// Memory could not be had.
    #[error("out of memory")]
    NoMemory,
}

impl From<NoMemory> for WriteFault {
    ghost from_gives = { λ _ e. e ≡ OutOfMemory };

    fn from(_: NoMemory) -> Self {
        WriteFault::NoMemory
    }
}

impl From<Failed> for WriteFault {
    ghost from_gives = { λ _ e. e ≡ NotWritten };

    fn from(_: Failed) -> Self {
        WriteFault::Write
    }
}

const HEADER: &[u8] = b"decl-version 2.0\nvar-comparability implicit\n\n";

/// The text of the header lines with which a trace begins, and a blank line.
#[tactic(auto, unfolding(crate::specs::Texts::block_text))]
pub fn header_text() -> &'static [u8]
    ensures { result.now ≡ block_text Begins }
{
    HEADER
}

/// Writes a trace, block by block, to the stream of a report, and keeps the declarations that were written, which contracts see as a list.
#[derive(Debug, Drop)]
pub struct Writer {
    alloc: Global,
    decls: List<PointDecl>,
}

impl Model for Writer {
    ghost use Rattle.std.specs.Prelude.{List};
    ghost use Rattle.dk_decl.specs.declared.decls.PointDecl.{PointDecl};

    ghost Value = { List PointDecl };

    ghost view = { λ w. w.decls };
}

impl Writer {
    /// Begins a trace with its header lines. No point is declared yet.
    pub fn begin<S: Sinks>(alloc: Global, sinks: &mut S) -> Result<Writer, WriteFault>
        ensures none { IfOk result (λ writer. writer ≡ []) }
        ensures text { Adds (S.written sinks.old) (S.written sinks.new) (block_text Begins) result }
        ensures cause { IsErrOf result WriteFault.Write → Rose (S.faults sinks.old) (S.faults sinks.new) }
    {
        write_all(sinks, Stream::Report, header_text())?;
        Ok(Writer {
            alloc,
            decls: List::new(alloc),
        })
    }

    fn knows(&self, name: &[u8]) -> bool
        ensures { result ≡ knows name.now self.now }
    {
        let decls = self.decls.as_slice();
        for decl in decls {
            if same_bytes(decl.name.as_slice(), name) {
                return true;
            }
        }
        false
    }

    // The text of a declaration's block.
    #[tactic(auto, unfolding(crate::specs::Texts::block_text))]
    fn declaration_text(&self, decl: &PointDecl) -> Result<Text, NoMemory>
        ensures { IfOk result (λ text. text ≡ block_text (Declares decl.now)) }
    {
        let mut text = Text::new(self.alloc);
        push_declaration(self.alloc, &mut text, decl)?;
        text.push(b'\n')?;
        Ok(text)
    }

    /// Writes a declaration. Its place among the declared points comes back, by which records name it. It is refused as `Unwritable` where its
    /// lines don't tell it, and else as `Known` where a point of its name is declared.
    pub fn declare<S: Sinks>(&mut self, sinks: &mut S, decl: PointDecl) -> Result<usize, WriteFault>
        ensures place { IfOk result (λ place. place ≡ length self.old) }
        ensures text { Adds (S.written sinks.old) (S.written sinks.new) (block_text (Declares decl)) result }
        ensures kept { self.new ≡ declared_with self.old decl result }
        ensures can { OnOk result (can_declare_of decl ≡ true) }
        ensures new { OnOk result (knows decl.name self.old ≡ false) }
        ensures unwritable { IsErrOf result WriteFault.Unwritable → can_declare_of decl ≡ false }
        ensures known { IsErrOf result WriteFault.Known → knows decl.name self.old ≡ true }
        ensures cause { IsErrOf result WriteFault.Write → Rose (S.faults sinks.old) (S.faults sinks.new) }
    {
        if !can_declare(self.alloc, &decl)? {
            return Err(WriteFault::Unwritable);
        }
        if self.knows(decl.name.as_slice()) {
            return Err(WriteFault::Known);
        }
        let text = self.declaration_text(&decl)?;
        let place = self.decls.len();
        self.decls.push(decl)?;
        write_all(sinks, Stream::Report, text.as_slice())?;
        Ok(place)
    }

    // The text of a record's block.
    #[tactic(auto, unfolding(crate::specs::Texts::block_text))]
    fn record_text(
        &self,
        decl: &PointDecl,
        nonce: Option<i64>,
        values: &[View<'_>],
    ) -> Result<Text, NoMemory>
        ensures { let recorded : Recorded = record { decl = decl.now; nonce = nonce; values = values_of values.now } in IfOk result (λ text. text ≡ block_text (Records recorded)) }
    {
        let mut text = Text::new(self.alloc);
        push_record(self.alloc, &mut text, decl, nonce, values)?;
        text.push(b'\n')?;
        Ok(text)
    }

    /// Writes a sample record of a declared point. There is a value for each declared variable, in order. It is refused as `Unwritable` where
    /// its lines don't tell it. Whether an exit has its entry is not asked.
    pub fn record<S: Sinks>(
        &self,
        sinks: &mut S,
        place: usize,
        nonce: Option<i64>,
        values: &[View<'_>],
    ) -> Result<(), WriteFault>
        requires { place < length self.now }
        ensures text { (d : PointDecl) → slice_get self.now place ≡ Some d →
            let recorded : Recorded = record { decl = d; nonce = nonce; values = values_of values.now } in
            Adds (S.written sinks.old) (S.written sinks.new) (block_text (Records recorded)) result }
        ensures can { (d : PointDecl) → slice_get self.now place ≡ Some d →
            let recorded : Recorded = record { decl = d; nonce = nonce; values = values_of values.now } in OnOk result (can_record_of recorded ≡ true) }
        ensures unwritable { (d : PointDecl) → slice_get self.now place ≡ Some d →
            let recorded : Recorded = record { decl = d; nonce = nonce; values = values_of values.now } in
            IsErrOf result WriteFault.Unwritable → can_record_of recorded ≡ false }
        ensures known { IsErrOf result WriteFault.Known → ⊥ }
        ensures cause { IsErrOf result WriteFault.Write → Rose (S.faults sinks.old) (S.faults sinks.new) }
    {
        let decl = &self.decls.as_slice()[place];
        if !can_record(self.alloc, decl, nonce, values)? {
            return Err(WriteFault::Unwritable);
        }
        let text = self.record_text(decl, nonce, values)?;
        write_all(sinks, Stream::Report, text.as_slice())?;
        Ok(())
    }
}
