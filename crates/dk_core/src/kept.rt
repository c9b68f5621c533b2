// What a session keeps from block to block.
ghost use Rattle.std.specs.Prelude.{◌≡◌, ◌<◌, ◌≤◌, ◌+◌, ◌-◌, ◌^◌, ◌∷◌, ◌++◌, [], All, IfErr, IfOk, IfSome, IsErrOf, OnOk, List, ℕ, Ok, Some, false, length, map, min, not, slice_get, true};
ghost use Rattle.dk_base.specs.Shapes.{AreWithDerived};
ghost use Rattle.dk_base.specs.Values.{values_of};
ghost use Rattle.dk_base.specs.declared.values.Value.{Value};
ghost use Rattle.dk_blocks.specs.Finding.{FoundFits, outcome_of};
ghost use Rattle.dk_blocks.specs.Fitting.{ConstantsFit, HasFittingConstants};
ghost use Rattle.dk_blocks.specs.History.{History, file_ended, nothing_by, with_declaration};
ghost use Rattle.dk_blocks.specs.Standing.{IsBetweenFiles, ReaderStandsFor, file_of as file_in, left_behind, over_of as over_in, points_of as points_in};
ghost use Rattle.dk_blocks.specs.Steps.{IsInFile};
ghost use Rattle.dk_decl.specs.Headers.{is_implicit};
ghost use Rattle.dk_derive.specs.Laws.{base_of, var_kinds};
ghost use Rattle.dk_derive.specs.Values.{values_by_form};
ghost use Rattle.dk_hierarchy.specs.Samples.{own_samples_of};
ghost use Rattle.dk_hierarchy.specs.Shortcuts.{AreShortcuts};
ghost use Rattle.dk_hierarchy.specs.Standing.{AreEnginesOf, EngineStandsFor};
ghost use Rattle.dk_io.specs.Outside.{Rose};
ghost use Rattle.dk_lines.specs.Reading.{left_of};
ghost use Rattle.dk_report.specs.Reports.{section_of as section_in};
ghost use Rattle.dk_state.specs.Saved.{saved_text};
ghost use Rattle.dk_state.specs.StateFile.{StandForHistory};
ghost use Rattle.dk_trace.specs.Fitting.{FitKinds};
ghost use Rattle.dk_core.specs.Growing.{AreGrown};
ghost use Rattle.dk_core.specs.Keeping.{saved_by};
ghost use Rattle.dk_core.specs.Resuming.{IsStart, state_file};
ghost use Rattle.dk_core.specs.Sections.{has_own_samples, has_samples, have_samples, stats_of};

use bumpalo::Bump;
use dk_base::{Fault, NoMemory, PointId, Text, View};
use dk_blocks::{Found, Reader};
use dk_decl::PointDecl;
use dk_derive::extend;
use dk_engine::Engine;
use dk_hierarchy::{Shortcut, engine_of, have_samples, shortcuts};
use dk_io::Inputs;
use dk_lines::Lines;
use dk_points::Points;
use dk_report::{Options, push_section, push_section_by, push_stats};
use dk_state::{Loaded, push_saved};
use dk_template::Grammar;
use std::alloc::Global;
use std::marker::Model;
use std::mem::replace;

/// What a session keeps from block to block: the reader of blocks, and the engine of each point's own samples.
#[derive(Drop)]
pub(crate) struct SessionParts {
    alloc: Global,
    reader: Reader,
    grammar: Grammar,
    engines: Vec<Engine>,
}

impl Model for SessionParts {
    ghost use Rattle.std.specs.Coded.{codes};
    ghost use Rattle.dk_blocks.specs.contracts.reader.Reader as reading;
    ghost use Rattle.dk_core.specs.Keeping.{IsSound, Keeping};

    ghost Value = { Keeping };

    ghost coded = { Prim.hlevel (codes, reading.the_row.coded) };

    ghost view = { λ k. record { reader = k.reader; grammar = k.grammar; engines = k.engines.items } };

    ghost invariant = { λ k. IsSound (record { reader = k.reader; grammar = k.grammar; engines = k.engines.items }) };
}

// One sample more for an engine, from the values of its base variables.
fn feed<'a>(arena: &'a Bump, engine: &mut Engine, base: &'a [View<'a>]) -> Result<(), NoMemory>
    requires derived { AreWithDerived engine.old.infos }
    requires fits { FitKinds (var_kinds (base_of engine.old.infos)) (values_of base.now) }
    ensures grammar { engine.new.grammar ≡ engine.old.grammar }
    ensures infos { engine.new.infos ≡ engine.old.infos }
    ensures stands { OnOk result ((samples : List (List Value)) → EngineStandsFor engine.old samples → EngineStandsFor engine.new (samples ++ values_by_form engine.old.infos (values_of base.now) ∷ [])) }
{
    let sample = extend(arena, engine.vars(), base)?;
    engine.feed(sample)
}

impl SessionParts {
    ghost use Rattle.dk_core.specs.Standing.{Stands, left_with_answer};
    ghost use Rattle.dk_core.specs.Steps.{KeptCounts, NextKept};
    ghost use Rattle.dk_core.specs.Taking.{TakenAs};

    /// What is kept before the first block: no points.
    #[tactic(auto, unfolding(crate::specs::Standing::Stands))]
    pub(crate) fn new(alloc: Global, grammar: Grammar) -> Result<SessionParts, NoMemory>
        ensures stands { IfOk result (λ kept. Stands kept (nothing_by grammar)) }
        ensures reads { IfOk result (λ kept. ReaderStandsFor kept.reader (nothing_by grammar)) }
        ensures grammar { IfOk result (λ kept. kept.grammar ≡ grammar) }
        ensures counts { IfOk result (λ kept. (file_in kept.reader ≡ 0) × (over_in kept.reader ≡ false)) }
    {
        Ok(SessionParts {
            alloc,
            reader: Reader::new(alloc)?,
            grammar,
            engines: Vec::new(alloc),
        })
    }

    /// What a state file says. No entry waits.
    pub(crate) fn of_state(alloc: Global, loaded: Loaded) -> Result<SessionParts, NoMemory>
        requires engines { AreEnginesOf loaded.points loaded.engines × All (λ e. e.grammar ≡ loaded.grammar) loaded.engines }
        requires constants { ConstantsFit loaded.points }
        ensures stands { IfOk result (λ kept. (h : History) → IsStart h → StandForHistory h.grammar h.table loaded.engines h.samples → loaded.grammar ≡ h.grammar → loaded.points ≡ h.table
            → loaded.implicit ≡ is_implicit h.header → Stands kept h) }
        ensures reads { IfOk result (λ kept. (h : History) → IsBetweenFiles h → loaded.points ≡ h.table → loaded.implicit ≡ is_implicit h.header → ReaderStandsFor kept.reader h) }
        ensures saves { IfOk result (λ kept. saved_by kept ≡ saved_text loaded.grammar loaded.points loaded.implicit (map (λ e. e.kept) loaded.engines)) }
        ensures counts { IfOk result (λ kept. (file_in kept.reader ≡ 0) × (over_in kept.reader ≡ false)) }
    {
        let Loaded {
            points,
            engines,
            implicit,
            grammar,
        } = loaded;
        Ok(SessionParts {
            alloc,
            reader: Reader::of_table(alloc, points, implicit)?,
            grammar,
            engines: engines.into_vec(),
        })
    }

    /// Reads and takes the next block of the started file: whether there is one.
    pub(crate) fn next<I: Inputs>(
        &mut self,
        inputs: &mut I,
        lines: &mut Lines,
        ignores: bool,
    ) -> Result<bool, Fault>
        requires { lines.old.is_started ≡ not (over_in self.old.reader) }
        ensures gives { (h : History) → ReaderStandsFor self.old.reader h → IfSome (left_of lines.old (I.rest inputs.old))
            (λ xs. NextKept ignores self.old h lines.old xs (left_with_answer self.new result) lines.new (left_of lines.new (I.rest inputs.new))) }
        ensures grammar { self.new.grammar ≡ self.old.grammar }
        ensures counts { KeptCounts self.old lines.old (left_with_answer self.new result) lines.new }
        ensures over { over_in self.old.reader ≡ true → (result ≡ Ok false) × (self.new ≡ self.old) × (inputs.new ≡ inputs.old) × (lines.new ≡ lines.old) }
        ensures emptied { (file : ℕ) → IsErrOf result (Fault.Read file) → lines.new.ahead ≡ [] }
        ensures files { I.file inputs.new ≡ I.file inputs.old }
        ensures later { I.faults inputs.old ≤ I.faults inputs.new }
        ensures cause { (file : ℕ) → IsErrOf result (Fault.Read file) → Rose (I.faults inputs.old) (I.faults inputs.new) }
    {
        let arena = Bump::new(self.alloc);
        match self.reader.next(&arena, inputs, lines, ignores)? {
            Some(found) => {
                self.take(&arena, found)?;
                Ok(true)
            }
            None => Ok(false),
        }
    }

    // Takes a block that was found: a declaration's points get engines, and a sample goes to the engine of its point.
    fn take<'a>(&mut self, arena: &'a Bump, found: Found<'a>) -> Result<(), Fault>
        requires { FoundFits (points_in self.old.reader) (Some found) }
        ensures gives { (h now : History) → ReaderStandsFor self.old.reader now → TakenAs self.old h (left_behind self.new result) (outcome_of now (Some found.entry)) }
        ensures grammar { self.new.grammar ≡ self.old.grammar }
        ensures counts { IfOk result (λ _. (file_in self.new.reader ≡ file_in self.old.reader) × (over_in self.new.reader ≡ over_in self.old.reader)) }
        ensures file { IfErr result (IsInFile (file_in self.old.reader)) }
        ensures unread { (file : ℕ) → IsErrOf result (Fault.Read file) → ⊥ }
    {
        match found {
            Found::Nothing => Ok(()),
            Found::Declaration { line, decl } => self.declare(line, decl),
            Found::Sample {
                point,
                line: _,
                values,
            } => match feed(arena, &mut self.engines[point.0 as usize], values) {
                Ok(()) => Ok(()),
                Err(NoMemory) => Err(Fault::NoMemory),
            },
        }
    }

    // Takes a declaration, whose block begins at this line. No points are left if it is refused.
    #[inline(never)]
    fn declare(&mut self, line: u64, decl: PointDecl) -> Result<(), Fault>
        requires { HasFittingConstants decl }
        ensures gives { (h now : History) → ReaderStandsFor self.old.reader now → TakenAs self.old h (left_behind self.new result) (with_declaration now line decl) }
        ensures grammar { self.new.grammar ≡ self.old.grammar }
        ensures counts { IfOk result (λ _. (file_in self.new.reader ≡ file_in self.old.reader) × (over_in self.new.reader ≡ over_in self.old.reader)) }
        ensures file { IfErr result (IsInFile (file_in self.old.reader)) }
        ensures unread { (file : ℕ) → IsErrOf result (Fault.Read file) → ⊥ }
    {
        let none = match SessionParts::new(self.alloc, self.grammar) {
            Ok(none) => none,
            Err(NoMemory) => return Err(Fault::NoMemory),
        };
        let kept = replace(self, none).with_declaration(line, decl)?;
        *self = kept;
        Ok(())
    }

    // The same, where what is kept is taken apart.
    fn with_declaration(self, line: u64, decl: PointDecl) -> Result<SessionParts, Fault>
        requires { HasFittingConstants decl }
        ensures gives { (h now : History) → ReaderStandsFor self.reader now → TakenAs self h result (with_declaration now line decl) }
        ensures grammar { IfOk result (λ kept. kept.grammar ≡ self.grammar) }
        ensures counts { IfOk result (λ kept. (file_in kept.reader ≡ file_in self.reader) × (over_in kept.reader ≡ over_in self.reader)) }
        ensures file { IfErr result (IsInFile (file_in self.reader)) }
        ensures unread { (file : ℕ) → IsErrOf result (Fault.Read file) → ⊥ }
    {
        let SessionParts {
            alloc,
            reader,
            grammar,
            engines,
        } = self;
        let (reader, _) = reader.declare(line, decl)?;
        match with_new(alloc, engines, reader.points(), grammar) {
            Ok(engines) => Ok(SessionParts {
                alloc,
                reader,
                grammar,
                engines,
            }),
            Err(NoMemory) => Err(Fault::NoMemory),
        }
    }

    /// Without what ends with a file: no entry waits any more.
    #[tactic(auto, unfolding(crate::specs::Standing::Stands))]
    pub(crate) fn end_file(&mut self)
        ensures stands { (h : History) → Stands self.old h → Stands self.new (file_ended h) }
        ensures reads { (h : History) → ReaderStandsFor self.old.reader h → ReaderStandsFor self.new.reader (file_ended h) }
        ensures grammar { self.new.grammar ≡ self.old.grammar }
        ensures counts { (file_in self.new.reader ≡ min (file_in self.old.reader + 1) (2 ^ 32 - 1)) × (over_in self.new.reader ≡ false) }
    {
        self.reader.end_file();
    }

    /// The table of points.
    pub(crate) fn points(&self) -> &Points
        ensures points { result.now ≡ points_in self.now.reader }
        ensures table { (h : History) → ReaderStandsFor self.now.reader h → result.now ≡ h.table }
    {
        self.reader.points()
    }

    /// The grammar of the engines.
    pub(crate) fn grammar(&self) -> Grammar
        ensures { result ≡ self.now.grammar }
    {
        self.grammar
    }

    /// The engine of the point's own samples.
    pub(crate) fn engine(&self, p: PointId) -> &Engine
        requires { p.0 < length (points_in self.now.reader) }
        ensures engine { slice_get self.now.engines p.0 ≡ Some result.now }
        ensures grammar { result.now.grammar ≡ self.now.grammar }
        ensures stands { (h : History) → Stands self.now h → EngineStandsFor result.now (own_samples_of h.table h.samples p.0) }
    {
        &self.engines[p.0 as usize]
    }

    /// Whether each point has samples, in order.
    pub(crate) fn have_samples(&self) -> Result<Vec<bool>, NoMemory>
        ensures long { IfOk result (λ marks. length marks.items ≡ length (points_in self.now.reader)) }
        ensures marks { (h : History) → Stands self.now h → IfOk result (λ marks. marks.items ≡ have_samples h) }
    {
        have_samples(self.alloc, self.reader.points(), self.engines.as_slice())
    }

    /// The shortcuts of its points.
    pub(crate) fn shortcuts(&self) -> Result<Vec<Shortcut>, NoMemory>
        ensures { IfOk result (λ found. AreShortcuts (points_in self.now.reader) self.now.engines found.items) }
    {
        shortcuts(self.alloc, self.reader.points(), self.engines.as_slice())
    }

    /// Writes the point's section behind the text, whatever its name: whether it has samples.
    pub(crate) fn push_section(
        &self,
        text: &mut Text,
        options: &Options,
        p: PointId,
    ) -> Result<bool, NoMemory>
        requires { p.0 < length (points_in self.now.reader) }
        ensures has { (h : History) → Stands self.now h → IfOk result (λ has. has ≡ has_samples h p.0) }
        ensures text { (h : History) → Stands self.now h → IfOk result (λ _. text.new ≡ text.old ++ section_in h.grammar options.now h.table h.samples p.0) }
    {
        push_section(
            self.alloc,
            text,
            options,
            self.reader.points(),
            self.engines.as_slice(),
            p,
        )
    }

    /// The same by shortcuts.
    pub(crate) fn push_section_by(
        &self,
        text: &mut Text,
        options: &Options,
        shortcuts: &[Shortcut],
        p: PointId,
    ) -> Result<bool, NoMemory>
        requires point { p.0 < length (points_in self.now.reader) }
        requires shortcuts { AreShortcuts (points_in self.now.reader) self.now.engines shortcuts.now }
        ensures has { (h : History) → Stands self.now h → IfOk result (λ has. has ≡ has_samples h p.0) }
        ensures text { (h : History) → Stands self.now h → IfOk result (λ _. text.new ≡ text.old ++ section_in h.grammar options.now h.table h.samples p.0) }
    {
        push_section_by(
            self.alloc,
            text,
            options,
            self.reader.points(),
            self.engines.as_slice(),
            shortcuts,
            p,
        )
    }

    /// Writes the line of the point's sizes behind the text: whether it has own samples.
    pub(crate) fn push_stats(&self, text: &mut Text, p: PointId) -> Result<bool, NoMemory>
        requires { p.0 < length (points_in self.now.reader) }
        ensures has { (h : History) → Stands self.now h → IfOk result (λ has. has ≡ has_own_samples h p.0) }
        ensures text { (h : History) → Stands self.now h → IfOk result (λ _. text.new ≡ text.old ++ stats_of h p.0) }
    {
        push_stats(text, self.reader.points(), self.engines.as_slice(), p)
    }

    /// Writes the state behind the text.
    pub(crate) fn push_state(&self, text: &mut Text) -> Result<(), NoMemory>
        ensures saved { OnOk result (text.new ≡ text.old ++ saved_by self.now) }
        ensures history { OnOk result ((h : History) → Stands self.now h → text.new ≡ text.old ++ state_file h) }
    {
        push_saved(
            self.alloc,
            text,
            self.reader.points(),
            self.engines.as_slice(),
            self.reader.implicit(),
            self.grammar,
        )
    }
}

// The engines with those of new points behind them, which have no samples.
fn with_new(
    alloc: Global,
    engines: Vec<Engine>,
    points: &Points,
    grammar: Grammar,
) -> Result<Vec<Engine>, NoMemory>
    requires { length engines.items ≤ length points.now }
    ensures { IfOk result (λ all. AreGrown points.now grammar engines.items all.items) }
{
    let mut engines = engines;
    for place in engines.len()..points.len() as usize {
        engines.push(engine_of(alloc, points, PointId(place as u32), grammar)?)?;
    }
    Ok(engines)
}
