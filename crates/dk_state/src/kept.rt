// What is kept of a point's samples, as it is saved.
ghost use Rattle.std.specs.Prelude.{◌≡◌, ◌++◌, ◌∷◌, [], IfOk, OnOk, flat_map};
ghost use Rattle.std.specs.Fmt.{decimal};
ghost use Rattle.dk_classes.specs.Leaders.{own_leaders};
ghost use Rattle.dk_engine.specs.Saved.{parts_of};
ghost use Rattle.dk_snapshot.specs.Classes.{classes_of};
ghost use Rattle.dk_snapshot.specs.Entries.{all_known_of};
ghost use Rattle.dk_snapshot.specs.Patterns.{patterns_of};
ghost use Rattle.dk_state.specs.Kept.{behind_classes, bits_of, class_line, if_any, known_line, opening_lines, parts_lines, pattern_line, slot_line};
ghost use Rattle.dk_state.specs.Lines.{fields_text, state_line};

use crate::fields::{end_line, push_number, push_value, push_vars};
use crate::states::push_state;
use dk_base::{List, NoMemory, Text, VarId};
use dk_engine::{Engine, Known, Pattern, Slot};
use dk_snapshot::{classes_in_order, known_in_order, patterns_in_order};
use std::alloc::Global;

fn push_class(text: &mut Text, members: &[VarId]) -> Result<(), NoMemory>
    ensures { OnOk result (text.new ≡ text.old ++ class_line members.now) }
{
    text.append(b"class")?;
    push_vars(text, members)?;
    end_line(text)
}

fn push_classes(text: &mut Text, classes: &[List<VarId>]) -> Result<(), NoMemory>
    ensures { OnOk result (text.new ≡ text.old ++ flat_map class_line classes.now) }
{
    for members in classes {
        push_class(text, members.as_slice())?;
    }
    Ok(())
}

// A `1` for each true value, and a `0` for each other one.
fn push_bits(text: &mut Text, present: &[bool]) -> Result<(), NoMemory>
    ensures { OnOk result (text.new ≡ text.old ++ bits_of present.now) }
{
    for truth in present {
        text.push(if *truth { b'1' } else { b'0' })?;
    }
    Ok(())
}

// The bits as a field, if there are any.
fn push_bits_field(text: &mut Text, present: &[bool]) -> Result<(), NoMemory>
    ensures { OnOk result (text.new ≡ text.old ++ fields_text (if_any (bits_of present.now))) }
{
    if present.is_empty() {
        return Ok(());
    }
    text.append(b" ")?;
    push_bits(text, present)
}

/// A pattern's line, behind the text.
pub(crate) fn push_pattern(text: &mut Text, pattern: &Pattern) -> Result<(), NoMemory>
    ensures { OnOk result (text.new ≡ text.old ++ pattern_line pattern.now) }
{
    text.append(b"pattern")?;
    push_number(text, pattern.count)?;
    push_bits_field(text, pattern.present.as_slice())?;
    end_line(text)
}

fn push_patterns(text: &mut Text, patterns: &[Pattern]) -> Result<(), NoMemory>
    ensures { OnOk result (text.new ≡ text.old ++ flat_map pattern_line patterns.now) }
{
    for pattern in patterns {
        push_pattern(text, pattern)?;
    }
    Ok(())
}

fn push_known(alloc: Global, text: &mut Text, known: &Known) -> Result<(), NoMemory>
    ensures { OnOk result (text.new ≡ text.old ++ known_line known.now) }
{
    text.append(b"known")?;
    push_number(text, known.leader.0)?;
    push_value(alloc, text, &known.value)?;
    end_line(text)
}

fn push_all_known(alloc: Global, text: &mut Text, all: &[Known]) -> Result<(), NoMemory>
    ensures { OnOk result (text.new ≡ text.old ++ flat_map known_line all.now) }
{
    for known in all {
        push_known(alloc, text, known)?;
    }
    Ok(())
}

// A slot's line, behind the text.
fn push_slot(alloc: Global, text: &mut Text, slot: &Slot) -> Result<(), NoMemory>
    ensures { OnOk result (text.new ≡ text.old ++ slot_line slot.now) }
{
    text.append(b"slot")?;
    push_number(text, slot.row.0)?;
    push_vars(text, slot.leaders.as_slice())?;
    push_state(alloc, text, &slot.state)?;
    end_line(text)
}

/// The lines of slots, behind the text.
pub(crate) fn push_slots(alloc: Global, text: &mut Text, slots: &[Slot]) -> Result<(), NoMemory>
    ensures { OnOk result (text.new ≡ text.old ++ flat_map slot_line slots.now) }
{
    for slot in slots {
        push_slot(alloc, text, slot)?;
    }
    Ok(())
}

// The members of each class of the engine, in the order in which they are saved.
fn classes_of(alloc: Global, engine: &Engine) -> Result<List<List<VarId>>, NoMemory>
    ensures { IfOk result (λ classes. classes ≡ classes_of engine.now.kept.leaders) }
{
    let kept = engine.kept();
    classes_in_order(alloc, &kept.leaders, engine.vars().len())
}

// The engine's patterns, in the order in which they are saved.
pub(crate) fn patterns_of(alloc: Global, engine: &Engine) -> Result<List<Pattern>, NoMemory>
    ensures { IfOk result (λ patterns. patterns ≡ patterns_of (own_leaders engine.now.kept.leaders) engine.now.kept.held) }
{
    let kept = engine.kept();
    patterns_in_order(alloc, kept.leaders.leaders(), kept.held.held())
}

fn push_samples(text: &mut Text, point: usize, samples: u64) -> Result<(), NoMemory>
    ensures { OnOk result (text.new ≡ text.old ++ state_line "samples" (decimal point ∷ decimal samples ∷ [])) }
{
    text.append(b"samples")?;
    push_number(text, point)?;
    push_number(text, samples)?;
    end_line(text)
}

/// The number of samples of the point at this place, and the engine's classes, behind the text.
pub(crate) fn push_opening(
    alloc: Global,
    text: &mut Text,
    point: usize,
    engine: &Engine,
) -> Result<(), NoMemory>
    ensures { OnOk result (text.new ≡ text.old ++ opening_lines point (parts_of engine.now.kept)) }
{
    push_samples(text, point, engine.counts().samples)?;
    push_classes(text, classes_of(alloc, engine)?.as_slice())
}

/// The engine's constants, behind the text.
pub(crate) fn push_constants(
    alloc: Global,
    text: &mut Text,
    engine: &Engine,
) -> Result<(), NoMemory>
    ensures { OnOk result (text.new ≡ text.old ++ flat_map known_line (all_known_of engine.now.kept.known)) }
{
    let known = known_in_order(alloc, engine.constants().entries())?;
    push_all_known(alloc, text, known.as_slice())
}

// The lines behind the classes.
fn push_tuples(alloc: Global, text: &mut Text, engine: &Engine) -> Result<(), NoMemory>
    ensures { OnOk result (text.new ≡ text.old ++ behind_classes (parts_of engine.now.kept)) }
{
    push_patterns(text, patterns_of(alloc, engine)?.as_slice())?;
    push_constants(alloc, text, engine)?;
    push_slots(alloc, text, engine.slots())?;
    text.append(b"end\n")
}

/// The lines of what the engine keeps of samples of the point at this place, behind the text.
pub(crate) fn push_parts(
    alloc: Global,
    text: &mut Text,
    point: usize,
    engine: &Engine,
) -> Result<(), NoMemory>
    ensures { OnOk result (text.new ≡ text.old ++ parts_lines point (parts_of engine.now.kept)) }
{
    push_opening(alloc, text, point, engine)?;
    push_tuples(alloc, text, engine)
}
