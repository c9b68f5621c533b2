// Bytes that are held against a state, whose text is made line by line and not kept.
ghost use Rattle.std.specs.Prelude.{◌≡◌, All, OnOk, IfOk, Some, flat_map, map};
ghost use Rattle.std.specs.List.{enumerate_from};
ghost use Rattle.std.specs.Str.{bytes_eq};
ghost use Rattle.dk_classes.specs.Leaders.{own_leaders};
ghost use Rattle.dk_samples.specs.Leaders.{VarsAscend};
ghost use Rattle.dk_snapshot.specs.Patterns.{pattern_of, patterns_of};
ghost use Rattle.dk_state.specs.Kept.{pattern_line, slot_line};
ghost use Rattle.dk_state.specs.Matching.{is_end, left_behind};
ghost use Rattle.dk_state.specs.Saved.{kept_lines, saved_text};

use crate::declarations::push_points;
use crate::kept::{patterns_of, push_constants, push_opening, push_pattern, push_slots};
use crate::saving::push_head;
use dk_base::{NoMemory, Text, VarId};
use dk_engine::{Engine, Pattern, Slot};
use dk_points::Points;
use dk_presence::Held;
use dk_snapshot::{held_in_order, pattern_of};
use dk_template::Grammar;
use std::alloc::Global;
use std::marker::Model;

// What is left of bytes behind the pieces of a text with which they begin, or None where they begin otherwise.
#[derive(Drop)]
struct Rest<'a> {
    left: Option<&'a [u8]>,
}

impl<'a> Model for Rest<'a> {
    ghost use Rattle.std.specs.Prelude.{ℕ, List, Option, option_map};

    ghost Value = { Option (List ℕ) };

    ghost view = { λ r. option_map (λ bytes. bytes.now) r.left };
}

impl<'a> Rest<'a> {
    // Nothing of the bytes has been matched yet.
    fn of(bytes: &'a [u8]) -> Rest<'a>
        ensures { result ≡ Some bytes.now }
    {
        Rest { left: Some(bytes) }
    }

    // Passes the next piece of the text.
    fn pass(&mut self, piece: &[u8])
        ensures { self.new ≡ left_behind piece.now self.old }
    {
        if let Some(bytes) = self.left {
            self.left = bytes.strip_prefix(piece);
        }
    }

    // Whether the bytes are the text.
    fn is_end(&self) -> bool
        ensures { result ≡ is_end self.now }
    {
        matches!(self.left, Some([]))
    }
}

// Passes a pattern's line.
fn pass_pattern(alloc: Global, rest: &mut Rest<'_>, pattern: &Pattern) -> Result<(), NoMemory>
    ensures { OnOk result (rest.new ≡ left_behind (pattern_line pattern.now) rest.old) }
{
    let mut line = Text::new(alloc);
    push_pattern(&mut line, pattern)?;
    rest.pass(line.as_slice());
    Ok(())
}

// Passes the lines of patterns.
fn pass_patterns(alloc: Global, rest: &mut Rest<'_>, patterns: &[Pattern]) -> Result<(), NoMemory>
    ensures { OnOk result (rest.new ≡ left_behind (flat_map pattern_line patterns.now) rest.old) }
{
    for pattern in patterns {
        pass_pattern(alloc, rest, pattern)?;
    }
    Ok(())
}

// Passes the lines of patterns over these leaders, in the order in which they are held. One pattern is in memory at a time.
fn pass_held(
    alloc: Global,
    rest: &mut Rest<'_>,
    leaders: &[VarId],
    held: &[Held],
) -> Result<(), NoMemory>
    requires leaders { VarsAscend leaders.now }
    requires held { All (λ h. VarsAscend h.leaders) held.now }
    ensures { OnOk result (rest.new ≡ left_behind (flat_map pattern_line (map (pattern_of leaders.now) held.now)) rest.old) }
{
    for pattern in held {
        pass_pattern(alloc, rest, &pattern_of(alloc, leaders, pattern)?)?;
    }
    Ok(())
}

// Passes the lines of the engine's patterns. A loaded engine holds them in the order in which they are saved.
fn pass_own_patterns(alloc: Global, rest: &mut Rest<'_>, engine: &Engine) -> Result<(), NoMemory>
    ensures { OnOk result (rest.new ≡ left_behind (flat_map pattern_line (patterns_of (own_leaders engine.now.kept.leaders) engine.now.kept.held)) rest.old) }
{
    let kept = engine.kept();
    let leaders = kept.leaders.leaders();
    let held = kept.held.held();
    if held_in_order(alloc, leaders, held)? {
        return pass_held(alloc, rest, leaders, held);
    }
    pass_patterns(alloc, rest, patterns_of(alloc, engine)?.as_slice())
}

// How many slots' lines are made at a time.
const BLOCK: usize = 64;

// Passes the lines of some slots at once.
fn pass_block(alloc: Global, rest: &mut Rest<'_>, slots: &[Slot]) -> Result<(), NoMemory>
    ensures { OnOk result (rest.new ≡ left_behind (flat_map slot_line slots.now) rest.old) }
{
    let mut lines = Text::new(alloc);
    push_slots(alloc, &mut lines, slots)?;
    rest.pass(lines.as_slice());
    Ok(())
}

// Passes the lines of slots, block by block.
fn pass_slots(alloc: Global, rest: &mut Rest<'_>, slots: &[Slot]) -> Result<(), NoMemory>
    ensures { OnOk result (rest.new ≡ left_behind (flat_map slot_line slots.now) rest.old) }
{
    let mut left = slots;
    while !left.is_empty() {
        let (block, behind) = left.split_at(left.len().min(BLOCK));
        pass_block(alloc, rest, block)?;
        left = behind;
    }
    Ok(())
}

// Passes what the engine of the point at this place keeps, if it keeps anything of samples.
fn pass_engine(
    alloc: Global,
    rest: &mut Rest<'_>,
    point: usize,
    engine: &Engine,
) -> Result<(), NoMemory>
    ensures { OnOk result (rest.new ≡ left_behind (kept_lines (point, engine.now.kept)) rest.old) }
{
    if engine.counts().samples == 0 {
        return Ok(());
    }
    let mut opening = Text::new(alloc);
    push_opening(alloc, &mut opening, point, engine)?;
    rest.pass(opening.as_slice());
    pass_own_patterns(alloc, rest, engine)?;
    let mut constants = Text::new(alloc);
    push_constants(alloc, &mut constants, engine)?;
    rest.pass(constants.as_slice());
    pass_slots(alloc, rest, engine.slots())?;
    rest.pass(b"end\n");
    Ok(())
}

// Passes what the engines keep, one engine after another.
fn pass_engines(alloc: Global, rest: &mut Rest<'_>, engines: &[Engine]) -> Result<(), NoMemory>
    ensures { OnOk result (rest.new ≡ left_behind (flat_map kept_lines (enumerate_from 0 (map (λ engine. engine.kept) engines.now))) rest.old) }
{
    for (point, engine) in engines.iter().enumerate() {
        pass_engine(alloc, rest, point, engine)?;
    }
    Ok(())
}

/// Whether a state saves to these bytes: that of a table's declarations, the comparability word in force, and what the engines keep. Its
/// text is never whole in memory.
pub(crate) fn saves_to(
    alloc: Global,
    points: &Points,
    engines: &[Engine],
    implicit: bool,
    grammar: Grammar,
    bytes: &[u8],
) -> Result<bool, NoMemory>
    ensures { IfOk result (λ same. same ≡ bytes_eq (saved_text grammar points.now implicit (map (λ engine. engine.kept) engines.now)) bytes.now) }
{
    let mut rest = Rest::of(bytes);
    let mut front = Text::new(alloc);
    push_head(&mut front, points, implicit, grammar)?;
    push_points(alloc, &mut front, points)?;
    rest.pass(front.as_slice());
    pass_engines(alloc, &mut rest, engines)?;
    rest.pass(b"end-state\n");
    Ok(rest.is_end())
}
