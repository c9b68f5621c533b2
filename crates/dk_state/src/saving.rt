// Saving.
ghost use Rattle.std.specs.Prelude.{◌≡◌, ◌++◌, ◌∷◌, [], IfOk, OnOk, flat_map, length, map};
ghost use Rattle.std.specs.Fmt.{decimal};
ghost use Rattle.std.specs.List.{enumerate_from};
ghost use Rattle.dk_engine.specs.declared.kept.Kept.{Kept};
ghost use Rattle.dk_state.specs.Declarations.{decls_of, point_lines};
ghost use Rattle.dk_state.specs.Lines.{state_line};
ghost use Rattle.dk_hierarchy.specs.Samples.{OwnSamples};
ghost use Rattle.dk_state.specs.Saved.{comparability_text, kept_lines, saved_text, version_of};
ghost use Rattle.dk_state.specs.StateFile.{StandForHistory, state_file_of};

use crate::declarations::{declared_count, push_points};
use crate::fields::{end_line, push_field, push_number};
use crate::kept::push_parts;
use dk_base::{NoMemory, Text};
use dk_engine::Engine;
use dk_points::Points;
use dk_template::Grammar;
use std::alloc::Global;

fn version_of(grammar: Grammar) -> u32
    ensures { result ≡ version_of grammar }
{
    match grammar {
        Grammar::One => 1,
        Grammar::Two => 2,
    }
}

fn push_version(text: &mut Text, grammar: Grammar) -> Result<(), NoMemory>
    ensures { OnOk result (text.new ≡ text.old ++ state_line "daikon-state" (decimal (version_of grammar) ∷ [])) }
{
    text.append(b"daikon-state")?;
    push_number(text, version_of(grammar))?;
    end_line(text)
}

fn push_word(text: &mut Text, implicit: bool) -> Result<(), NoMemory>
    ensures { OnOk result (text.new ≡ text.old ++ state_line "comparability" (comparability_text implicit ∷ [])) }
{
    text.append(b"comparability")?;
    if implicit {
        push_field(text, b"implicit")?;
    } else {
        push_field(text, b"none")?;
    }
    end_line(text)
}

fn push_count(text: &mut Text, count: u32) -> Result<(), NoMemory>
    ensures { OnOk result (text.new ≡ text.old ++ state_line "points" (decimal count ∷ [])) }
{
    text.append(b"points")?;
    push_number(text, count)?;
    end_line(text)
}

// What the engine of the point at this place keeps, if it keeps anything of samples.
fn push_engine(
    alloc: Global,
    text: &mut Text,
    point: usize,
    engine: &Engine,
) -> Result<(), NoMemory>
    ensures { OnOk result (text.new ≡ text.old ++ kept_lines (point, engine.now.kept)) }
{
    if engine.counts().samples == 0 {
        return Ok(());
    }
    push_parts(alloc, text, point, engine)
}

fn push_engines(alloc: Global, text: &mut Text, engines: &[Engine]) -> Result<(), NoMemory>
    ensures { OnOk result (text.new ≡ text.old ++ flat_map kept_lines (enumerate_from 0 (map (λ engine. engine.kept) engines.now))) }
{
    for (point, engine) in engines.iter().enumerate() {
        push_engine(alloc, text, point, engine)?;
    }
    Ok(())
}

/// The lines in front of the declarations, behind the text.
pub(crate) fn push_head(
    text: &mut Text,
    points: &Points,
    implicit: bool,
    grammar: Grammar,
) -> Result<(), NoMemory>
    ensures { OnOk result (text.new ≡ text.old ++ (state_line "daikon-state" (decimal (version_of grammar) ∷ []) ++ (state_line "comparability" (comparability_text implicit ∷ []) ++ state_line "points" (decimal (length (decls_of points.now)) ∷ [])))) }
{
    push_version(text, grammar)?;
    push_word(text, implicit)?;
    push_count(text, declared_count(points))
}

// The lines of the declarations, of what is kept, and the last one.
fn push_body(
    alloc: Global,
    text: &mut Text,
    points: &Points,
    engines: &[Engine],
) -> Result<(), NoMemory>
    ensures { OnOk result (text.new ≡ text.old ++ (flat_map point_lines (decls_of points.now) ++ (flat_map kept_lines (enumerate_from 0 (map (λ engine. engine.kept) engines.now)) ++ state_line "end-state" []))) }
{
    push_points(alloc, text, points)?;
    push_engines(alloc, text, engines)?;
    text.append(b"end-state\n")
}

/// The state of a history, behind the text: its declarations, the comparability word in force, and for each point what its engine keeps of
/// its own samples. The engines are those of the table's points in order, all of this grammar. After an error the text may hold a part
/// of it.
pub fn push_saved(
    alloc: Global,
    text: &mut Text,
    points: &Points,
    engines: &[Engine],
    implicit: bool,
    grammar: Grammar,
) -> Result<(), NoMemory>
    ensures text { OnOk result (text.new ≡ text.old ++ saved_text grammar points.now implicit (map (λ engine. engine.kept) engines.now)) }
    ensures stands { OnOk result ((own : OwnSamples) → StandForHistory grammar points.now engines.now own → text.new ≡ text.old ++ state_file_of grammar points.now implicit own) }
{
    push_head(text, points, implicit, grammar)?;
    push_body(alloc, text, points, engines)
}

/// The state of a history, as `push_saved` writes it.
pub fn save(
    alloc: Global,
    points: &Points,
    engines: &[Engine],
    implicit: bool,
    grammar: Grammar,
) -> Result<Text, NoMemory>
    ensures text { IfOk result (λ text. text ≡ saved_text grammar points.now implicit (map (λ engine. engine.kept) engines.now)) }
    ensures stands { IfOk result (λ text. (own : OwnSamples) → StandForHistory grammar points.now engines.now own → text ≡ state_file_of grammar points.now implicit own) }
{
    let mut text = Text::new(alloc);
    push_saved(alloc, &mut text, points, engines, implicit, grammar)?;
    Ok(text)
}
