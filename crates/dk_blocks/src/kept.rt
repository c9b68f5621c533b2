// What a reader of blocks keeps from block to block.
ghost use Rattle.std.specs.Prelude.{◌≡◌, ◌<◌, ◌∷◌, [], IfOk, IfSome, OnErr, OnOk, Bool, List, ℕ, Option, Some, false, is_some, length, true};
ghost use Rattle.dk_base.specs.Reading.{Line};
ghost use Rattle.dk_base.specs.Values.{values_of};
ghost use Rattle.dk_calls.specs.Records.{call_of};
ghost use Rattle.dk_calls.specs.Standing.{CallsStandForRecords as CallsStandFor, WaitAlike};
ghost use Rattle.dk_calls.specs.Waiting.{Call};
ghost use Rattle.dk_decl.specs.Headers.{is_implicit};
ghost use Rattle.dk_points.specs.Vars.{entry_of};
ghost use Rattle.dk_template.specs.declared.grammar.Grammar.{Grammar};
ghost use Rattle.dk_trace.specs.Answers.{Shows};
ghost use Rattle.dk_trace.specs.RecordsResumed.{shown};
ghost use Rattle.dk_blocks.specs.AtHand.{BeginsRecord, IsAtHand};
ghost use Rattle.dk_blocks.specs.Fitting.{ConstantsFit, Extends, FitAt, HasFittingConstants};
ghost use Rattle.dk_blocks.specs.Finding.{FoundFits};
ghost use Rattle.dk_blocks.specs.History.{History, after_declaration, after_record, after_sample, base_values, effect_of, file_ended, nothing_by, with_declaration, with_record, without_record};
ghost use Rattle.dk_blocks.specs.Refusing.{unmatched_answer};

use crate::block::{Block, State, is_comment, is_declaration, is_list_of_implementors};
use crate::first_lines::is_plainly_sample;
use crate::found::Found;
use bumpalo::Bump;
use dk_base::{BlockFault, NoMemory, View};
use dk_calls::{Calls, is_entry};
use dk_decl::{DeclBlock, Header, PointDecl};
use dk_points::{Declared, Points};
use dk_trace::{BaseSample, Recent, RecordReader, Whole, read_whole};
use std::alloc::Global;
use std::marker::Model;
use std::mem::replace;

/// What a reader keeps from block to block: the table of points, what the header lines have put in force, the entries of the file that
/// wait, and the points that had a record last.
#[derive(Drop)]
pub(crate) struct ReaderParts {
    alloc: Global,
    points: Points,
    header: Header,
    calls: Calls,
    recent: Recent,
}

impl Model for ReaderParts {
    ghost use Rattle.std.specs.Coded.{codes};
    ghost use Rattle.dk_calls.specs.contracts.calls.Calls as waiting;
    ghost use Rattle.dk_blocks.specs.Keeping.{IsSound, Keeping};

    ghost Value = { Keeping };

    ghost coded = { Prim.hlevel (codes, waiting.the_row.coded) };

    ghost view = { λ k. record { points = k.points; header = k.header; calls = k.calls } };

    ghost invariant = { λ k. IsSound (record { points = k.points; header = k.header; calls = k.calls }) };
}

// An entry waits from here on. A record that is neither an entry nor an exit that must match one changes nothing.
fn wait(points: &Points, calls: &mut Calls, sample: &BaseSample<'_>) -> Result<(), NoMemory>
    requires within { sample.now.point.0 < length points.now }
    requires no_exit { is_some (entry_of points.now sample.now.point.0) ≡ false }
    ensures ok { OnOk result ((earlier : List Call) → CallsStandFor calls.old earlier → CallsStandFor calls.new (call_of points.now (shown sample.now) ∷ earlier)) }
    ensures err { OnErr result (WaitAlike calls.old calls.new) }
{
    if is_entry(points, sample.point) {
        return calls.enter(points, sample);
    }
    Ok(())
}

// The base values of a record: its own, and those that an exit's entry had. An entry waits from here on, and an exit takes its entry.
#[tactic(auto, unfolding(crate::specs::History::base_values))]
fn base_values<'a>(
    points: &Points,
    calls: &mut Calls,
    arena: &'a Bump,
    sample: &BaseSample<'a>,
) -> Result<&'a [View<'a>], BlockFault>
    requires { sample.now.point.0 < length points.now }
    ensures values { (earlier : List Call) → CallsStandFor calls.old earlier
        → Shows (λ views. values_of views.now) result (base_values points.now (shown sample.now) earlier) }
    ensures ok { OnOk result ((earlier : List Call) → CallsStandFor calls.old earlier → CallsStandFor calls.new (call_of points.now (shown sample.now) ∷ earlier)) }
    ensures err { OnErr result (WaitAlike calls.old calls.new) }
{
    if points.entry(sample.point).is_some() {
        return calls.exit(points, arena, sample);
    }
    wait(points, calls, sample)?;
    Ok(sample.values)
}

// What a record comes to that is refused, as an exit without an entry: where those are left out, its block counts, and does nothing.
fn or_left_out<'a>(ignores: bool, fault: BlockFault) -> Result<Option<Found<'a>>, BlockFault>
    ensures { result ≡ unmatched_answer ignores fault }
{
    match fault {
        BlockFault::Refused { .. } if ignores => Ok(Some(Found::Nothing)),
        fault => Err(fault),
    }
}

impl ReaderParts {
    ghost use Rattle.dk_blocks.specs.Standing.{Stands, Fits, BlockGoesOn, Closes, DeclaredAs, IsBetweenFiles, IsDeclared, left_behind, left_with_answer, block_resumed, resumed_by};

    /// What is kept before the first block: no points.
    #[tactic(auto, unfolding(crate::specs::Standing::Stands))]
    pub(crate) fn new(alloc: Global) -> Result<ReaderParts, NoMemory>
        ensures stands { IfOk result (λ kept. (grammar : Grammar) → Stands kept (nothing_by grammar)) }
        ensures points { IfOk result (λ kept. kept.points ≡ []) }
    {
        Ok(ReaderParts {
            alloc,
            points: Points::new(alloc)?,
            header: Header::new(),
            calls: Calls::new(alloc)?,
            recent: Recent::new(),
        })
    }

    /// These points, and this comparability word in force: `implicit`, or else `none`. No entry waits.
    pub(crate) fn of_table(
        alloc: Global,
        points: Points,
        implicit: bool,
        calls: Calls,
    ) -> ReaderParts
        requires constants { ConstantsFit points }
        requires calls { CallsStandFor calls [] }
        ensures stands { (h : History) → IsBetweenFiles h → points ≡ h.table → implicit ≡ is_implicit h.header → Stands result h }
        ensures points { result.points ≡ points }
        ensures word { is_implicit result.header ≡ implicit }
    {
        ReaderParts {
            alloc,
            points,
            header: Header::with_word(implicit),
            calls,
            recent: Recent::new(),
        }
    }

    /// A block of which no line was read.
    #[tactic(auto, unfolding(crate::specs::Standing::block_resumed, crate::specs::Standing::Stands, crate::specs::Standing::Fits, crate::specs::History::effect_of))]
    pub(crate) fn begin<'a>(&self, arena: &'a Bump) -> Block<'a>
        ensures resumes { (ignores : Bool) (h : History) → Stands self.now h → (ls : List Line) (close : Option ℕ) → block_resumed ignores h result ls close ≡ effect_of ignores h ls close }
        ensures fits { Fits self.now result }
    {
        Block {
            arena,
            header: self.header,
            state: State::Front { last: None },
        }
    }

    /// The next block begins in place of this one.
    #[tactic(auto, unfolding(crate::specs::Standing::block_resumed, crate::specs::Standing::Stands, crate::specs::Standing::Fits, crate::specs::History::effect_of))]
    pub(crate) fn begin_again<'a>(&self, block: &mut Block<'a>)
        ensures resumes { (ignores : Bool) (h : History) → Stands self.now h → (ls : List Line) (close : Option ℕ) → block_resumed ignores h block.new ls close ≡ effect_of ignores h ls close }
        ensures fits { Fits self.now block.new }
    {
        block.header = self.header;
        block.state = State::Front { last: None };
    }

    /// One line more, which is not blank. After a fault nothing is said of the block.
    pub(crate) fn line<'a>(
        &self,
        block: &mut Block<'a>,
        number: u64,
        bytes: &[u8],
    ) -> Result<(), BlockFault>
        requires { Fits self.now block.old }
        ensures goes_on { (ignores : Bool) (h : History) → Stands self.now h → BlockGoesOn ignores h (left_behind block.new result) (λ ls close. block_resumed ignores h block.old (record { number = number; bytes = bytes.now } ∷ ls) close) }
        ensures fits { OnOk result (Fits self.now block.new) }
    {
        match &mut block.state {
            State::Record { reader } => reader.line(&self.points, number, bytes),
            State::Front { last } => {
                let last = *last;
                self.front_line(block, last, number, bytes)
            }
            State::Declaration { line: _, reader: _ } => self.declaration_line(
                block, number, bytes,
            ),
            State::Implementors => Ok(()),
        }
    }

    // One more line of a block whose record has not begun.
    fn front_line<'a>(
        &self,
        block: &mut Block<'a>,
        last: Option<u64>,
        number: u64,
        bytes: &[u8],
    ) -> Result<(), BlockFault>
        ensures goes_on { (ignores : Bool) (h : History) → Stands self.now h → BlockGoesOn ignores h (left_behind block.new result) (λ ls close. resumed_by ignores (record h { header = block.old.header }) (State.Front last) (record { number = number; bytes = bytes.now } ∷ ls) close) }
        ensures fits { OnOk result (Fits self.now block.new) }
    {
        if is_comment(bytes) {
            block.state = State::Front { last };
            return Ok(());
        }
        if is_plainly_sample(&block.header, bytes) {
            return self.begun_record(block, number, bytes);
        }
        match block.header.line(bytes) {
            Ok(true) => {
                block.state = State::Front { last: Some(number) };
                Ok(())
            }
            Ok(false) => self.first_line(block, number, bytes),
            Err(why) => Err(BlockFault::Refused { line: number, why }),
        }
    }

    // The first line of a record.
    fn first_line<'a>(
        &self,
        block: &mut Block<'a>,
        number: u64,
        bytes: &[u8],
    ) -> Result<(), BlockFault>
        ensures goes_on { (ignores : Bool) (h : History) → Stands self.now h → BlockGoesOn ignores h (left_behind block.new result) (λ ls close. after_record ignores (record h { header = block.old.header }) (record { number = number; bytes = bytes.now }) ls close) }
        ensures fits { OnOk result (Fits self.now block.new) }
    {
        if is_declaration(bytes) {
            return self.begun_declaration(block, number, bytes);
        }
        if is_list_of_implementors(bytes) {
            block.state = State::Implementors;
            return Ok(());
        }
        self.begun_record(block, number, bytes)
    }

    // The first line of a declaration.
    #[inline(never)]
    fn begun_declaration<'a>(
        &self,
        block: &mut Block<'a>,
        number: u64,
        bytes: &[u8],
    ) -> Result<(), BlockFault>
        ensures goes_on { (ignores : Bool) (h : History) → BlockGoesOn ignores h (left_behind block.new result) (λ ls close. after_declaration (record h { header = block.old.header }) (record { number = number; bytes = bytes.now }) ls close) }
        ensures fits { OnOk result (Fits self.now block.new) }
    {
        match DeclBlock::begin(self.alloc, number, bytes, block.header.implicit()) {
            Ok(reader) => {
                block.state = State::Declaration {
                    line: number,
                    reader,
                };
                Ok(())
            }
            Err(fault) => Err(fault),
        }
    }

    // The first line of a sample record.
    fn begun_record<'a>(
        &self,
        block: &mut Block<'a>,
        number: u64,
        bytes: &[u8],
    ) -> Result<(), BlockFault>
        ensures goes_on { (ignores : Bool) (h : History) → Stands self.now h → BlockGoesOn ignores h (left_behind block.new result) (λ ls close. after_sample ignores (record h { header = block.old.header }) (record { number = number; bytes = bytes.now }) ls close) }
        ensures fits { OnOk result (Fits self.now block.new) }
    {
        match RecordReader::begin(self.alloc, &self.points, block.arena, number, bytes) {
            Ok(reader) => {
                block.state = State::Record { reader };
                Ok(())
            }
            Err(fault) => Err(fault),
        }
    }

    // One more line of a declaration.
    #[inline(never)]
    fn declaration_line<'a>(
        &self,
        block: &mut Block<'a>,
        number: u64,
        bytes: &[u8],
    ) -> Result<(), BlockFault>
        requires declared { IsDeclared block.old.state }
        requires fits { Fits self.now block.old }
        ensures goes_on { (ignores : Bool) (h : History) → BlockGoesOn ignores h (left_behind block.new result) (λ ls close. block_resumed ignores h block.old (record { number = number; bytes = bytes.now } ∷ ls) close) }
        ensures fits { OnOk result (Fits self.now block.new) }
    {
        match replace(&mut block.state, State::Implementors) {
            State::Declaration { line, reader } => match reader.line(number, bytes) {
                Ok(reader) => {
                    block.state = State::Declaration { line, reader };
                    Ok(())
                }
                Err(fault) => Err(fault),
            },
            _ => Ok(()),
        }
    }

    /// Takes the block, which ends here: what it comes to, if it is one. The line of this number ends it, or the file ends in front of that
    /// line. An exit without an entry is left out, or refused. A declaration is still to be taken. Nothing is said of the block behind it;
    /// after a fault nothing is said of the history.
    pub(crate) fn close<'a>(
        &mut self,
        block: &mut Block<'a>,
        number: u64,
        ignores: bool,
    ) -> Result<Option<Found<'a>>, BlockFault>
        requires { Fits self.old block.old }
        ensures closes { (h : History) → Stands self.old h → Closes (left_with_answer self.new result) (block_resumed ignores h block.old [] (Some number)) }
        ensures points { self.new.points ≡ self.old.points }
        ensures fits { IfOk result (λ found. FoundFits self.new.points found) }
    {
        self.header = block.header;
        match &mut block.state {
            State::Record { reader } => match reader.end(&self.points, number) {
                Ok(sample) => self.with_record(block.arena, &sample, ignores),
                Err(fault) => Err(fault),
            },
            State::Front { last } => {
                let last = *last;
                self.without_record(last)
            }
            State::Declaration { line: _, reader: _ } => self.declaration_end(block),
            State::Implementors => Ok(Some(Found::Nothing)),
        }
    }

    // A block ends whose last header line has this number, and that has no record.
    fn without_record<'a>(&self, last: Option<u64>) -> Result<Option<Found<'a>>, BlockFault>
        ensures closes { (h : History) → Stands self.now h → (close : ℕ) → Closes (left_with_answer self.now result) (without_record h last (Some close)) }
        ensures fits { IfOk result (λ found. FoundFits self.now.points found) }
    {
        let Some(line) = last else {
            return Ok(None);
        };
        let mut header = self.header;
        match header.end() {
            Ok(()) => Ok(Some(Found::Nothing)),
            Err(why) => Err(BlockFault::Refused { line, why }),
        }
    }

    // A declaration ends. What it does to the table is done behind the block.
    #[inline(never)]
    fn declaration_end<'a>(&self, block: &mut Block<'a>) -> Result<Option<Found<'a>>, BlockFault>
        requires declared { IsDeclared block.old.state }
        requires fits { Fits self.now block.old }
        ensures closes { (ignores : Bool) (h : History) → Stands self.now h → (close : ℕ) → Closes (left_with_answer self.now result) (resumed_by ignores h block.old.state [] (Some close)) }
        ensures fits { IfOk result (λ found. FoundFits self.now.points found) }
    {
        match replace(&mut block.state, State::Implementors) {
            State::Declaration { line, reader } => match reader.end() {
                Ok(decl) => Ok(Some(Found::Declaration { line, decl })),
                Err(fault) => Err(fault),
            },
            _ => Ok(Some(Found::Nothing)),
        }
    }

    /// With the sample of a record.
    pub(crate) fn with_record<'a>(
        &mut self,
        arena: &'a Bump,
        sample: &BaseSample<'a>,
        ignores: bool,
    ) -> Result<Option<Found<'a>>, BlockFault>
        requires within { sample.now.point.0 < length self.old.points }
        requires fits { FitAt self.old.points sample.now.point.0 (values_of sample.now.values.now) }
        ensures closes { (h : History) → Stands self.old h → Closes (left_with_answer self.new result) (with_record ignores h (shown sample.now)) }
        ensures some { IfOk result (λ found. is_some found ≡ true) }
        ensures points { self.new.points ≡ self.old.points }
        ensures fits { IfOk result (λ found. FoundFits self.new.points found) }
    {
        self.recent = self.recent.with_record_of(sample.point);
        match base_values(&self.points, &mut self.calls, arena, sample) {
            Ok(values) => Ok(Some(Found::Sample {
                point: sample.point,
                line: sample.line,
                values,
            })),
            Err(fault) => or_left_out(ignores, fault),
        }
    }

    /// With a declaration, whose block begins at this line, and what it was to the table.
    pub(crate) fn with_declaration(
        self,
        line: u64,
        decl: PointDecl,
    ) -> Result<(ReaderParts, Declared), BlockFault>
        requires { HasFittingConstants decl }
        ensures gives { (h : History) → Stands self h → DeclaredAs result (with_declaration h line decl) }
        ensures points { IfOk result (λ r. Extends self.points r.0.points) }
    {
        let ReaderParts {
            alloc,
            points,
            header,
            calls,
            recent,
        } = self;
        match points.declare(decl, line) {
            Ok((points, declared)) => Ok((
                ReaderParts {
                    alloc,
                    points,
                    header,
                    calls,
                    recent,
                },
                declared,
            )),
            Err(fault) => Err(fault),
        }
    }

    /// Without what ends with a file: no entry waits any more.
    #[tactic(auto, unfolding(crate::specs::Standing::Stands, crate::specs::History::file_ended))]
    pub(crate) fn end_file(&mut self)
        ensures stands { (h : History) → Stands self.old h → Stands self.new (file_ended h) }
        ensures points { self.new.points ≡ self.old.points }
    {
        self.calls.clear();
    }

    // Whether a block of this first line is a sample record, and has neither comments nor header lines in front of it.
    #[tactic(auto, unfolding(crate::specs::History::effect_of, crate::specs::Standing::Stands))]
    fn begins_record(&self, first: &[u8]) -> bool
        ensures { result ≡ true → BeginsRecord self.now first.now }
    {
        if is_comment(first) {
            return false;
        }
        if is_plainly_sample(&self.header, first) {
            return true;
        }
        let mut header = self.header;
        match header.line(first) {
            Ok(false) => !is_declaration(first) && !is_list_of_implementors(first),
            Ok(true) => false,
            Err(_) => false,
        }
    }

    /// The block that stands whole at the front of these bytes, the first line of which has this number, if it is a sample record that is
    /// read where it lies.
    pub(crate) fn whole_record<'a>(
        &self,
        arena: &'a Bump,
        number: u64,
        bytes: &[u8],
    ) -> Result<Option<Whole<'a>>, NoMemory>
        ensures { IfOk result (λ found. IfSome found (IsAtHand self.now number bytes.now)) }
    {
        match read_whole(self.alloc, &self.points, self.recent, arena, number, bytes) {
            Ok(Some(whole)) => {
                if self.begins_record(&bytes[..whole.first_len]) {
                    Ok(Some(whole))
                } else {
                    Ok(None)
                }
            }
            Ok(None) => Ok(None),
            Err(fault) => Err(fault),
        }
    }

    /// The table of points.
    #[tactic(auto, unfolding(crate::specs::Standing::Stands))]
    pub(crate) fn points(&self) -> &Points
        ensures points { result.now ≡ self.now.points }
        ensures table { (h : History) → Stands self.now h → result.now ≡ h.table }
    {
        &self.points
    }

    /// Whether the comparability word in force is `implicit`, and not `none`.
    #[tactic(auto, unfolding(crate::specs::Standing::Stands))]
    pub(crate) fn implicit(&self) -> bool
        ensures word { result ≡ is_implicit self.now.header }
        ensures history { (h : History) → Stands self.now h → result ≡ is_implicit h.header }
    {
        self.header.implicit()
    }
}
