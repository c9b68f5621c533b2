// What is kept while files are read: the events of their blocks, and what takes them.
ghost use Rattle.std.specs.Prelude.{◌≡◌, ◌≤◌, ◌<◌, [], List, length, not, IfOk, IfSome, IsErrOf, OnOk, ℕ, false};
ghost use Rattle.dk_blocks.specs.History.{History, file_ended, no_history};
ghost use Rattle.dk_blocks.specs.Standing.{left_with_answer};
ghost use Rattle.dk_derive.specs.Laws.{all_vars_of};
ghost use Rattle.dk_events.specs.Standing.{ignores_of, over_of};
ghost use Rattle.dk_io.specs.Outside.{Rose};
ghost use Rattle.dk_lines.specs.Reading.{left_of};
ghost use Rattle.dk_driver.specs.Consuming.{Record, nothing_told};
ghost use Rattle.dk_driver.specs.Standing.{StandsFor, points_of};
ghost use Rattle.dk_driver.specs.Steps.{NextBlock, NextCounts};

use crate::Consumer;
use bumpalo::Bump;
use dk_base::{Fault, NoMemory, PointId, VarInfo};
use dk_events::Events;
use dk_io::Inputs;
use dk_lines::Lines;
use dk_points::Points;
use std::alloc::Global;

/// The blocks of files, one after another, with the consumer that takes what they do.
#[derive(Drop)]
pub struct Feed<C> {
    pub(crate) alloc: Global,
    pub(crate) events: Events,
    pub(crate) consumer: C,
}

/// How many bytes of an arena may be kept for the values of the next block.
const KEPT: usize = 65_536;

// Gives up what the arena held. It keeps memory for the next block, if it has not taken much.
fn empty(alloc: Global, arena: &mut Bump) {
    if arena.allocated_bytes() > KEPT || arena.reset().is_err() {
        *arena = Bump::new(alloc);
    }
}

impl<C: Consumer> Feed<C> {
    // In front of all blocks. Exits without an entry are left out, or refused.
    pub(crate) fn new(
        alloc: Global,
        ignore_missing_entry: bool,
        consumer: C,
    ) -> Result<Feed<C>, NoMemory>
        requires fits { C.fits consumer [] }
        requires stands { C.stands consumer nothing_told }
        ensures fits { IfOk result (λ feed. C.fits feed.consumer (points_of feed)) }
        ensures stands { IfOk result (λ feed. StandsFor C.stands feed no_history []) }
        ensures given { IfOk result (λ feed. C.given feed.consumer ≡ C.given consumer) }
        ensures counts { IfOk result (λ feed. (ignores_of feed.events ≡ ignore_missing_entry) × (over_of feed.events ≡ false)) }
    {
        let events = Events::new(alloc, ignore_missing_entry)?;
        Ok(Feed {
            alloc,
            events,
            consumer,
        })
    }

    // Reads the next block of the started file, which has this place among the files, and hands it on: whether there is one. What the arena
    // held is given up first. After a fault nothing is said of what is kept.
    pub(crate) fn next<I: Inputs>(
        &mut self,
        place: usize,
        arena: &mut Bump,
        inputs: &mut I,
        lines: &mut Lines,
    ) -> Result<bool, Fault>
        requires fits { C.fits self.old.consumer (points_of self.old) }
        requires started { lines.old.is_started ≡ not (over_of self.old.events) }
        ensures fits { OnOk result (C.fits self.new.consumer (points_of self.new)) }
        ensures gives { (h : History) (records : List Record) → StandsFor C.stands self.old h records → IfSome (left_of lines.old (I.rest inputs.old))
            (λ xs. NextBlock C.stands self.old place h records lines.old xs (left_with_answer self.new result) lines.new (left_of lines.new (I.rest inputs.new))) }
        ensures given { OnOk result (C.given self.new.consumer ≡ C.given self.old.consumer) }
        ensures counts { NextCounts self.old lines.old (left_with_answer self.new result) lines.new }
        // Where reading failed, no byte that was read is held.
        ensures emptied { (file : ℕ) → IsErrOf result (Fault.Read file) → lines.new.ahead ≡ [] }
        ensures files { I.file inputs.new ≡ I.file inputs.old }
        ensures later { I.faults inputs.old ≤ I.faults inputs.new }
        ensures cause { (file : ℕ) → IsErrOf result (Fault.Read file) → Rose (I.faults inputs.old) (I.faults inputs.new) }
    {
        empty(self.alloc, arena);
        match self.events.next(arena, inputs, lines)? {
            Some(event) => match self.consumer.take(self.events.points(), place, event) {
                Ok(()) => Ok(true),
                Err(NoMemory) => Err(Fault::NoMemory),
            },
            None => Ok(false),
        }
    }

    // Without what ends with a file. The next block is of the next file.
    pub(crate) fn end_file(self) -> Feed<C>
        ensures consumer { result.consumer ≡ self.consumer }
        ensures points { points_of result ≡ points_of self }
        ensures stands { (h : History) (records : List Record) → StandsFor C.stands self h records → StandsFor C.stands result (file_ended h) records }
        ensures counts { (ignores_of result.events ≡ ignores_of self.events) × (over_of result.events ≡ false) }
    {
        let Feed {
            alloc,
            events,
            consumer,
        } = self;
        Feed {
            alloc,
            events: events.end_file(),
            consumer,
        }
    }

    /// The points that the files declare.
    pub fn points(&self) -> &Points
        ensures points { result.now ≡ points_of self.now }
        ensures table { (h : History) (records : List Record) → StandsFor C.stands self.now h records → result.now ≡ h.table }
    {
        self.events.points()
    }

    /// The variables of the point, derived ones included.
    pub fn vars(&self, p: PointId) -> &[VarInfo]
        requires { p.0 < length (points_of self.now) }
        ensures { result.now ≡ all_vars_of (points_of self.now) p.0 }
    {
        self.events.vars(p)
    }

    /// The points with what is known of them, and what took the samples.
    pub fn into_parts(self) -> (Events, C)
        ensures { result ≡ (self.events, self.consumer) }
    {
        (self.events, self.consumer)
    }

    /// What took the samples.
    pub fn consumer(&self) -> &C
        ensures { result.now ≡ self.now.consumer }
    {
        &self.consumer
    }
}
