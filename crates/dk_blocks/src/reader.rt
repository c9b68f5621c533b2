// A reader of blocks.
ghost use Rattle.std.specs.Prelude.{◌≡◌, ◌≤◌, ◌<◌, ◌+◌, ◌-◌, ◌^◌, min, not, ◌∷◌, [], Bool, List, ℕ, Option, Some, None, IfErr, IfOk, OnOk, IfSome, IsErrOf, Ok, is_some, length, true, false};
ghost use Rattle.dk_calls.specs.Standing.{CallsStandForRecords as CallsStandFor};
ghost use Rattle.dk_decl.specs.Headers.{is_implicit};
ghost use Rattle.dk_io.specs.Outside.{Rose};
ghost use Rattle.dk_lines.specs.Passing.{ready_of};
ghost use Rattle.dk_lines.specs.Reading.{left_of};
ghost use Rattle.dk_template.specs.declared.grammar.Grammar.{Grammar};
ghost use Rattle.dk_blocks.specs.AtHand.{HandCounts, HandGives, IsAtHand};
ghost use Rattle.dk_blocks.specs.Finding.{FoundFits};
ghost use Rattle.dk_blocks.specs.Fitting.{ConstantsFit, Extends, HasFittingConstants};
ghost use Rattle.dk_blocks.specs.History.{History, effect_of, file_ended, nothing_by, with_declaration};
ghost use Rattle.dk_blocks.specs.Standing.{Fits, IsBetweenFiles, ReaderStandsFor, Stands, block_resumed, file_of, implicit_of, left_behind, left_with_answer, over_of, points_of};
ghost use Rattle.dk_blocks.specs.LineSteps.{LineGives, EndGives, BlankGives, WordsGive, block_fault_in, fault_in_file, BlockGives, BlockCounts, LineShape, EndShape, ShapeAt, ClosesAt, LineStep, LineStepShape, StepShape, StepGives, StepCounts, line_turn, stop_of_fault, stop_of_unread};
ghost use Rattle.dk_blocks.specs.Steps.{DeclareGives, IsInFile, NextBlock, ReaderCounts};
ghost use Rattle.dk_blocks.specs.Turns.{AfterFits, ending_of, turn_of};

use crate::block::Block;
use crate::found::Found;
use crate::kept::ReaderParts;
use bumpalo::Bump;
use dk_base::{BlockFault, Fault, NoMemory, Why, trim_blanks};
use dk_calls::Calls;
use dk_decl::PointDecl;
use dk_io::Inputs;
use dk_lines::{LineFault, Lines};
use dk_points::{Declared, Points};
use dk_trace::Whole;
use std::alloc::Global;

/// Reads the blocks of files, one after another: what each does, by the points that are declared so far and the entries of its file that
/// wait. It keeps no samples.
#[derive(Drop)]
pub struct Reader {
    pub(crate) kept: ReaderParts,
    pub(crate) file: u32,
    pub(crate) is_over: bool,
}

/// Why a block is not read.
#[derive(Clone, Copy, Debug, PartialEq, Eq)]
pub(crate) enum Stop {
    Refused { line: u64, why: Why },
    Read,
    NoMemory,
}

/// The end of a block, or of a file without one.
#[derive(Drop)]
pub(crate) struct End<'a> {
    pub(crate) is_over: bool,
    pub(crate) found: Option<Found<'a>>,
}

/// What one line does.
#[derive(Clone, Copy, Debug, PartialEq, Eq)]
pub(crate) enum Step {
    /// The block has a line more.
    More,
    /// The block ends: at the blank line of this number, or where the file ends in front of it.
    Ended { number: u64, is_over: bool },
}

/// What comes of the end of a block's lines: they are no block, and the next one begins; or a block or the file ends.
#[derive(Drop)]
pub(crate) enum Closed<'a> {
    Goes,
    Ends(End<'a>),
}

fn stop_of(fault: BlockFault) -> Stop
    ensures { result ≡ stop_of_fault fault }
{
    match fault {
        BlockFault::Refused { line, why } => Stop::Refused { line, why },
        BlockFault::NoMemory => Stop::NoMemory,
    }
}

fn line_stop(fault: LineFault) -> Stop
    ensures { result ≡ stop_of_unread fault }
{
    match fault {
        LineFault::Read => Stop::Read,
        LineFault::LongLine { line } => Stop::Refused {
            line,
            why: Why::LongLine,
        },
        LineFault::TooLong { line } => Stop::Refused {
            line,
            why: Why::TooLong,
        },
        LineFault::NoMemory => Stop::NoMemory,
    }
}

// The line is blank.
fn at_blank<'a>(
    kept: &mut ReaderParts,
    block: &mut Block<'a>,
    number: u64,
    ignores: bool,
) -> Result<Closed<'a>, Stop>
    requires { Fits kept.old block.old }
    ensures shape { LineShape (turn_of kept.new block.new result) }
    ensures points { kept.new.points ≡ kept.old.points }
    ensures fits { AfterFits kept.new.points result }
    ensures gives { (h : History) → Stands kept.old h → BlankGives ignores (block_resumed ignores h block.old) number (turn_of kept.new block.new result) }
{
    match kept.close(block, number, ignores) {
        Ok(None) => {
            kept.begin_again(block);
            Ok(Closed::Goes)
        }
        Ok(Some(found)) => Ok(Closed::Ends(End {
            is_over: false,
            found: Some(found),
        })),
        Err(fault) => Err(stop_of(fault)),
    }
}

// The file ends in front of the line of this number.
fn at_end<'a>(
    kept: &mut ReaderParts,
    block: &mut Block<'a>,
    number: u64,
    ignores: bool,
) -> Result<Closed<'a>, Stop>
    requires { Fits kept.old block.old }
    ensures shape { EndShape (turn_of kept.new block.new result) }
    ensures points { kept.new.points ≡ kept.old.points }
    ensures fits { AfterFits kept.new.points result }
    ensures gives { (h : History) → Stands kept.old h → EndGives ignores (block_resumed ignores h block.old) number (turn_of kept.new block.new result) }
{
    match kept.close(block, number, ignores) {
        Ok(found) => Ok(Closed::Ends(End {
            is_over: true,
            found,
        })),
        Err(fault) => Err(stop_of(fault)),
    }
}

// The end of a block: at a blank line, or where the file ends in front of the line of this number.
fn close_block<'a>(
    kept: &mut ReaderParts,
    block: &mut Block<'a>,
    number: u64,
    is_over: bool,
    ignores: bool,
) -> Result<Closed<'a>, Stop>
    requires { Fits kept.old block.old }
    ensures shape { ShapeAt is_over (turn_of kept.new block.new result) }
    ensures points { kept.new.points ≡ kept.old.points }
    ensures fits { AfterFits kept.new.points result }
    ensures gives { (h : History) → Stands kept.old h → ClosesAt ignores is_over (block_resumed ignores h block.old) number (turn_of kept.new block.new result) }
{
    if is_over {
        at_end(kept, block, number, ignores)
    } else {
        at_blank(kept, block, number, ignores)
    }
}

// A line that is not blank.
fn at_words<'a>(
    kept: &ReaderParts,
    block: &mut Block<'a>,
    number: u64,
    bytes: &[u8],
) -> Result<(), Stop>
    requires { Fits kept.now block.old }
    ensures fits { OnOk result (Fits kept.now block.new) }
    ensures shape { LineShape (line_turn kept.now (left_behind block.new result)) }
    ensures gives { (ignores : Bool) (h : History) → Stands kept.now h → WordsGive ignores (block_resumed ignores h block.old) (record { number = number; bytes = bytes.now }) (line_turn kept.now (left_behind block.new result)) }
{
    match kept.line(block, number, bytes) {
        Ok(()) => Ok(()),
        Err(fault) => Err(stop_of(fault)),
    }
}

// A line of the file.
fn with_line<'a>(
    kept: &ReaderParts,
    block: &mut Block<'a>,
    number: u64,
    bytes: &[u8],
) -> Result<Step, Stop>
    requires { Fits kept.now block.old }
    ensures shape { LineStepShape kept.now block.old block.new result }
    ensures gives { (ignores : Bool) (h : History) → Stands kept.now h → LineStep ignores kept.now block.new (block_resumed ignores h block.old) (record { number = number; bytes = bytes.now }) result }
{
    let words = trim_blanks(bytes);
    if words.is_empty() {
        return Ok(Step::Ended {
            number,
            is_over: false,
        });
    }
    match at_words(kept, block, number, words) {
        Ok(()) => Ok(Step::More),
        Err(stop) => Err(stop),
    }
}

// Reads one line of a block and takes it.
fn take_line<'a, I: Inputs>(
    kept: &ReaderParts,
    block: &mut Block<'a>,
    inputs: &mut I,
    lines: &mut Lines,
) -> Result<Step, Stop>
    requires started { lines.old.is_started ≡ true }
    requires fits { Fits kept.now block.old }
    ensures shape { StepShape kept.now block.old block.new result }
    ensures gives { (ignores : Bool) (h : History) → Stands kept.now h → IfSome (left_of lines.old (I.rest inputs.old))
        (λ xs. StepGives ignores kept.now block.new (block_resumed ignores h block.old) lines.old xs result lines.new (left_of lines.new (I.rest inputs.new))) }
    ensures counts { StepCounts lines.old result lines.new }
    ensures emptied { IsErrOf result Stop.Read → lines.new.ahead ≡ [] }
    ensures files { I.file inputs.new ≡ I.file inputs.old }
    ensures later { I.faults inputs.old ≤ I.faults inputs.new }
    ensures cause { IsErrOf result Stop.Read → Rose (I.faults inputs.old) (I.faults inputs.new) }
{
    let next = lines.next_number();
    match lines.next(inputs) {
        Ok(Some(line)) => with_line(kept, block, line.number, line.bytes),
        Ok(None) => Ok(Step::Ended {
            number: next,
            is_over: true,
        }),
        Err(fault) => Err(line_stop(fault)),
    }
}

// Reads up to the end of the next block. The values of its record lie in the arena, which gives no memory before the first of them.
fn read_block<'a, I: Inputs>(
    kept: &mut ReaderParts,
    arena: &'a Bump,
    inputs: &mut I,
    lines: &mut Lines,
    ignores: bool,
) -> Result<End<'a>, Stop>
    requires { lines.old.is_started ≡ true }
    ensures gives { (h : History) → Stands kept.old h → IfSome (left_of lines.old (I.rest inputs.old))
        (λ xs. BlockGives ignores (effect_of ignores h) false lines.old xs (ending_of kept.new result) lines.new (left_of lines.new (I.rest inputs.new))) }
    ensures points { kept.new.points ≡ kept.old.points }
    ensures fits { IfOk result (λ end. FoundFits kept.new.points end.found) }
    ensures counts { BlockCounts lines.old (ending_of kept.new result) lines.new }
    ensures emptied { IsErrOf result Stop.Read → lines.new.ahead ≡ [] }
    ensures files { I.file inputs.new ≡ I.file inputs.old }
    ensures later { I.faults inputs.old ≤ I.faults inputs.new }
    ensures cause { IsErrOf result Stop.Read → Rose (I.faults inputs.old) (I.faults inputs.new) }
{
    let mut block = kept.begin(arena);
    'reading: loop {
        match take_line(kept, &mut block, inputs, lines) {
            Ok(Step::More) => continue 'reading,
            Ok(Step::Ended { number, is_over }) => match close_block(
                kept, &mut block, number, is_over, ignores,
            ) {
                Ok(Closed::Goes) => continue 'reading,
                Ok(Closed::Ends(end)) => return Ok(end),
                Err(stop) => return Err(stop),
            },
            Err(stop) => return Err(stop),
        }
    }
}

// Uses the record in the bytes at hand. Nothing is read.
fn take_record<'a>(
    kept: &mut ReaderParts,
    arena: &'a Bump,
    lines: &mut Lines,
    whole: &Whole<'a>,
    ignores: bool,
) -> Result<Option<Found<'a>>, Stop>
    requires { IsAtHand kept.old (lines.old.number + 1) (ready_of lines.old) whole.now }
    ensures gives { (h : History) → Stands kept.old h → (rest : Option (List ℕ)) → HandGives ignores h lines.old kept.new result lines.new rest }
    ensures some { IfOk result (λ found. is_some found ≡ true) }
    ensures points { kept.new.points ≡ kept.old.points }
    ensures fits { IfOk result (λ found. FoundFits kept.new.points found) }
    ensures counts { HandCounts lines.old result lines.new }
    ensures never { IsErrOf result Stop.Read → ⊥ }
{
    lines.pass(whole.used, whole.count);
    match kept.with_record(arena, &whole.sample, ignores) {
        Ok(found) => Ok(found),
        Err(fault) => Err(stop_of(fault)),
    }
}

// The next block, where it is a record that stands whole in the bytes at hand, and is read where it lies; else nothing is read.
fn record_at_hand<'a>(
    kept: &mut ReaderParts,
    arena: &'a Bump,
    lines: &mut Lines,
    ignores: bool,
) -> Result<Option<Found<'a>>, Stop>
    ensures gives { (h : History) → Stands kept.old h → (rest : Option (List ℕ)) → HandGives ignores h lines.old kept.new result lines.new rest }
    ensures none { result ≡ Ok None → (kept.new ≡ kept.old) × (lines.new ≡ lines.old) }
    ensures points { kept.new.points ≡ kept.old.points }
    ensures fits { IfOk result (λ found. FoundFits kept.new.points found) }
    ensures counts { HandCounts lines.old result lines.new }
    ensures never { IsErrOf result Stop.Read → ⊥ }
{
    match kept.whole_record(arena, lines.next_number(), lines.ready()) {
        Ok(Some(whole)) => take_record(kept, arena, lines, &whole, ignores),
        Ok(None) => Ok(None),
        Err(NoMemory) => Err(Stop::NoMemory),
    }
}

// Reads up to the end of the next block, in the bytes at hand where it is a record that stands whole there.
fn next_block<'a, I: Inputs>(
    kept: &mut ReaderParts,
    arena: &'a Bump,
    inputs: &mut I,
    lines: &mut Lines,
    ignores: bool,
) -> Result<End<'a>, Stop>
    requires { lines.old.is_started ≡ true }
    ensures gives { (h : History) → Stands kept.old h → IfSome (left_of lines.old (I.rest inputs.old))
        (λ xs. BlockGives ignores (effect_of ignores h) false lines.old xs (ending_of kept.new result) lines.new (left_of lines.new (I.rest inputs.new))) }
    ensures points { kept.new.points ≡ kept.old.points }
    ensures fits { IfOk result (λ end. FoundFits kept.new.points end.found) }
    ensures counts { BlockCounts lines.old (ending_of kept.new result) lines.new }
    ensures emptied { IsErrOf result Stop.Read → lines.new.ahead ≡ [] }
    ensures files { I.file inputs.new ≡ I.file inputs.old }
    ensures later { I.faults inputs.old ≤ I.faults inputs.new }
    ensures cause { IsErrOf result Stop.Read → Rose (I.faults inputs.old) (I.faults inputs.new) }
{
    match record_at_hand(kept, arena, lines, ignores) {
        Ok(Some(found)) => Ok(End {
            is_over: false,
            found: Some(found),
        }),
        Ok(None) => read_block(kept, arena, inputs, lines, ignores),
        Err(stop) => Err(stop),
    }
}

// The fault with the number of its file.
fn fault_of(file: u32, stop: Stop) -> Fault
    ensures { result ≡ fault_in_file file stop }
{
    match stop {
        Stop::Refused { line, why } => Fault::Refused { file, line, why },
        Stop::Read => Fault::Read { file },
        Stop::NoMemory => Fault::NoMemory,
    }
}

// The fault of a block with the number of its file.
fn in_file(file: u32, fault: BlockFault) -> Fault
    ensures { result ≡ block_fault_in file fault }
{
    match fault {
        BlockFault::Refused { line, why } => Fault::Refused { file, line, why },
        BlockFault::NoMemory => Fault::NoMemory,
    }
}

impl Reader {
    /// No blocks were read.
    pub fn new(alloc: Global) -> Result<Reader, NoMemory>
        ensures stands { IfOk result (λ reader. (grammar : Grammar) → ReaderStandsFor reader (nothing_by grammar)) }
        ensures counts { IfOk result (λ reader. (file_of reader ≡ 0) × (over_of reader ≡ false)) }
    {
        Ok(Reader {
            kept: ReaderParts::new(alloc)?,
            file: 0,
            is_over: false,
        })
    }

    /// These points are declared, and this comparability word is in force: `implicit`, or else `none`. No entry waits.
    pub fn of_table(alloc: Global, points: Points, implicit: bool) -> Result<Reader, NoMemory>
        requires { ConstantsFit points }
        ensures stands { IfOk result (λ reader. (h : History) → IsBetweenFiles h → points ≡ h.table → implicit ≡ is_implicit h.header → ReaderStandsFor reader h) }
        ensures points { IfOk result (λ reader. points_of reader ≡ points) }
        ensures word { IfOk result (λ reader. implicit_of reader ≡ implicit) }
        ensures counts { IfOk result (λ reader. (file_of reader ≡ 0) × (over_of reader ≡ false)) }
    {
        let calls = Calls::new(alloc)?;
        Ok(Reader {
            kept: ReaderParts::of_table(alloc, points, implicit, calls),
            file: 0,
            is_over: false,
        })
    }

    /// What the next block of the started file comes to; none where the file ends without one. The values of a sample lie in the arena. An exit
    /// without an entry is left out, or refused. A declaration is not taken yet: that is the next thing to do. After a fault nothing is said of
    /// the history.
    pub fn next<'a, I: Inputs>(
        &mut self,
        arena: &'a Bump,
        inputs: &mut I,
        lines: &mut Lines,
        ignores: bool,
    ) -> Result<Option<Found<'a>>, Fault>
        requires { lines.old.is_started ≡ not (over_of self.old) }
        ensures gives { (h : History) → ReaderStandsFor self.old h → IfSome (left_of lines.old (I.rest inputs.old))
            (λ xs. NextBlock ignores self.old h lines.old xs (left_with_answer self.new result) lines.new (left_of lines.new (I.rest inputs.new))) }
        ensures points { points_of self.new ≡ points_of self.old }
        ensures fits { IfOk result (λ found. FoundFits (points_of self.new) found) }
        ensures counts { ReaderCounts self.old lines.old (left_with_answer self.new result) lines.new }
        // At the file's end nothing is read.
        ensures over { over_of self.old ≡ true → (result ≡ Ok None) × (self.new ≡ self.old) × (inputs.new ≡ inputs.old) × (lines.new ≡ lines.old) }
        // Where reading failed, no byte that was read is held.
        ensures emptied { (file : ℕ) → IsErrOf result (Fault.Read file) → lines.new.ahead ≡ [] }
        ensures files { I.file inputs.new ≡ I.file inputs.old }
        ensures later { I.faults inputs.old ≤ I.faults inputs.new }
        ensures cause { (file : ℕ) → IsErrOf result (Fault.Read file) → Rose (I.faults inputs.old) (I.faults inputs.new) }
    {
        if self.is_over {
            return Ok(None);
        }
        match next_block(&mut self.kept, arena, inputs, lines, ignores) {
            Ok(end) => {
                self.is_over = end.is_over;
                Ok(end.found)
            }
            Err(stop) => Err(fault_of(self.file, stop)),
        }
    }

    /// Takes a declaration, whose block begins at this line: the reader with it, and what it was to the table. It is refused as
    /// `Points::declare` refuses it.
    pub fn declare(self, line: u64, decl: PointDecl) -> Result<(Reader, Declared), Fault>
        requires { HasFittingConstants decl }
        ensures gives { (h : History) → ReaderStandsFor self h → DeclareGives result (with_declaration h line decl) }
        ensures points { IfOk result (λ r. Extends (points_of self) (points_of r.0)) }
        ensures counts { IfOk result (λ r. (file_of r.0 ≡ file_of self) × (over_of r.0 ≡ over_of self)) }
        ensures file { IfErr result (IsInFile (file_of self)) }
        ensures unread { (file : ℕ) → IsErrOf result (Fault.Read file) → ⊥ }
    {
        let Reader {
            kept,
            file,
            is_over,
        } = self;
        match kept.with_declaration(line, decl) {
            Ok((kept, declared)) => Ok((
                Reader {
                    kept,
                    file,
                    is_over,
                },
                declared,
            )),
            Err(fault) => Err(in_file(file, fault)),
        }
    }

    /// Without what ends with a file. The next block is of the next file.
    pub fn end_file(&mut self)
        ensures stands { (h : History) → ReaderStandsFor self.old h → ReaderStandsFor self.new (file_ended h) }
        ensures points { points_of self.new ≡ points_of self.old }
        ensures counts { (file_of self.new ≡ min (file_of self.old + 1) (2 ^ 32 - 1)) × (over_of self.new ≡ false) }
    {
        self.kept.end_file();
        self.file = self.file.saturating_add(1);
        self.is_over = false;
    }

    /// The table of points.
    pub fn points(&self) -> &Points
        ensures points { result.now ≡ points_of self.now }
        ensures table { (h : History) → ReaderStandsFor self.now h → result.now ≡ h.table }
    {
        self.kept.points()
    }

    /// Whether the comparability word in force is `implicit`, and not `none`.
    pub fn implicit(&self) -> bool
        ensures word { result ≡ implicit_of self.now }
        ensures history { (h : History) → ReaderStandsFor self.now h → result ≡ is_implicit h.header }
    {
        self.kept.implicit()
    }
}
