// A session.
ghost use Rattle.std.specs.Prelude.{◌≡◌, ◌≤◌, ◌<◌, ◌+◌, ◌-◌, ◌^◌, min, not, ◌++◌, [], All, Bool, List, ℕ, Err, IfOk, OnOk, IfSome, IsErrOf, Ok, length, map, true, false, if◌then◌else◌};
ghost use Rattle.dk_blocks.specs.History.{History, no_history, file_ended};
ghost use Rattle.dk_blocks.specs.Standing.{IsBetweenFiles};
ghost use Rattle.dk_decl.specs.Headers.{is_implicit};
ghost use Rattle.dk_hierarchy.specs.Samples.{own_samples_of};
ghost use Rattle.dk_hierarchy.specs.Shortcuts.{AreShortcuts};
ghost use Rattle.dk_hierarchy.specs.Standing.{AreEnginesOf, EngineStandsFor};
ghost use Rattle.dk_io.specs.Outside.{Rose};
ghost use Rattle.dk_lines.specs.Reading.{left_of};
ghost use Rattle.dk_state.specs.Saved.{saved_text};
ghost use Rattle.dk_state.specs.Spelling.{IsOwnTable, IsSpelling};
ghost use Rattle.dk_core.specs.Resuming.{HasTableOfState, IsOfLoaded, IsStart, state_file};
ghost use Rattle.dk_core.specs.Sections.{has_own_samples, has_section, have_samples, section_of, some_if, stats_of};
ghost use Rattle.dk_core.specs.Selecting.{SelectsBy};
ghost use Rattle.dk_core.specs.Standing.{ReportsAlike, SessionReadsFor, SessionStandsFor, blocks_of, engines_of, file_of, grammar_of, left_with_answer, options_of, over_of, points_of, saved_of, select_of};
ghost use Rattle.dk_core.specs.Steps.{NextBlock, SessionCounts};

use crate::kept::SessionParts;
use dk_base::{Fault, NoMemory, PointId, Text};
use dk_engine::Engine;
use dk_hierarchy::Shortcut;
use dk_io::Inputs;
use dk_lines::Lines;
use dk_points::Points;
use dk_report::Options;
use dk_state::{LoadFault, Loaded, load};
use dk_template::Grammar;
use std::alloc::Global;

/// What the blocks so far come to, and what is reported of it: the points that the selection answers `true` to, by their names, and of
/// their instances those that the options leave.
#[derive(Drop)]
pub struct Session<F> {
    pub(crate) alloc: Global,
    pub(crate) kept: SessionParts,
    pub(crate) select: F,
    pub(crate) options: Options,
    pub(crate) blocks: u64,
}

// How many blocks were read, with one more where one was found.
fn blocks_with(blocks: u64, found: bool) -> u64
    ensures { result ≡ (if found then min (blocks + 1) (2 ^ 64 - 1) else blocks) }
{
    if found {
        blocks.saturating_add(1)
    } else {
        blocks
    }
}

impl<F: Fn(&[u8]) -> bool + Drop> Session<F> {
    /// The session of no blocks, by the second grammar. It reports the points whose names the selection answers `true` to. The selection
    /// may be asked of any name, any number of times.
    #[tactic(auto, unfolding(dk_blocks::specs::History::no_history))]
    pub fn new(alloc: Global, select: F, options: Options) -> Result<Session<F>, NoMemory>
        ensures stands { IfOk result (λ s. SessionStandsFor s no_history) }
        ensures reads { IfOk result (λ s. SessionReadsFor s no_history) }
        ensures grammar { IfOk result (λ s. grammar_of s ≡ Grammar.Two) }
        ensures options { IfOk result (λ s. options_of s ≡ options) }
        ensures select { IfOk result (λ s. select_of s ≡ select) }
        ensures counts { IfOk result (λ s. (blocks_of s ≡ 0) × (file_of s ≡ 0) × (over_of s ≡ false)) }
    {
        let kept = SessionParts::new(alloc, Grammar::Two)?;
        Ok(Session {
            alloc,
            kept,
            select,
            options,
            blocks: 0,
        })
    }

    /// The session of a state that is loaded, in its grammar. No blocks count yet.
    pub fn of_loaded(
        alloc: Global,
        select: F,
        options: Options,
        loaded: Loaded,
    ) -> Result<Session<F>, NoMemory>
        requires table { IsOwnTable loaded.points }
        requires engines { AreEnginesOf loaded.points loaded.engines × All (λ e. e.grammar ≡ loaded.grammar) loaded.engines }
        ensures stands { IfOk result (λ s. (h : History) → IsOfLoaded loaded h → SessionStandsFor s h) }
        ensures reads { IfOk result (λ s. (h : History) → IsBetweenFiles h → loaded.points ≡ h.table → loaded.implicit ≡ is_implicit h.header → SessionReadsFor s h) }
        ensures saves { IfOk result (λ s. saved_of s ≡ saved_text loaded.grammar loaded.points loaded.implicit (map (λ e. e.kept) loaded.engines)) }
        ensures options { IfOk result (λ s. options_of s ≡ options) }
        ensures select { IfOk result (λ s. select_of s ≡ select) }
        ensures counts { IfOk result (λ s. (blocks_of s ≡ 0) × (file_of s ≡ 0) × (over_of s ≡ false)) }
    {
        let kept = SessionParts::of_state(alloc, loaded)?;
        Ok(Session {
            alloc,
            kept,
            select,
            options,
            blocks: 0,
        })
    }

    /// The session of what a state file says, in the grammar of its version. No blocks count yet. `BadState` comes exactly where the bytes are
    /// no state.
    pub fn resume(
        alloc: Global,
        select: F,
        options: Options,
        state: &[u8],
    ) -> Result<Session<F>, LoadFault>
        ensures stands { IfOk result (λ s. (h : History) → IsStart h → state_file h ≡ state.now → SessionStandsFor s h) }
        ensures reads { IfOk result (λ s. (h : History) → HasTableOfState state.now h → SessionReadsFor s h) }
        ensures spelling { IfOk result (λ s. IsSpelling state.now) }
        ensures saves { IfOk result (λ s. saved_of s ≡ state.now) }
        ensures bad { result ≡ Err LoadFault.BadState → IsSpelling state.now → ⊥ }
        ensures options { IfOk result (λ s. options_of s ≡ options) }
        ensures select { IfOk result (λ s. select_of s ≡ select) }
        ensures counts { IfOk result (λ s. (blocks_of s ≡ 0) × (file_of s ≡ 0) × (over_of s ≡ false)) }
    {
        let loaded = load(alloc, state)?;
        Ok(Session::of_loaded(alloc, select, options, loaded)?)
    }

    /// Reads and applies the next block of the started file. False where the file ends without one. After a fault nothing is said of the
    /// history.
    pub fn block<I: Inputs>(&mut self, inputs: &mut I, lines: &mut Lines) -> Result<bool, Fault>
        requires { lines.old.is_started ≡ not (over_of self.old) }
        ensures gives { (h : History) → SessionReadsFor self.old h → IfSome (left_of lines.old (I.rest inputs.old))
            (λ xs. NextBlock self.old h lines.old xs (left_with_answer self.new result) lines.new (left_of lines.new (I.rest inputs.new))) }
        ensures counts { SessionCounts self.old lines.old (left_with_answer self.new result) lines.new }
        // Grammar, options and selection stay.
        ensures alike { ReportsAlike self.old self.new }
        // At the file's end nothing is read.
        ensures over { over_of self.old ≡ true → (result ≡ Ok false) × (self.new ≡ self.old) × (inputs.new ≡ inputs.old) × (lines.new ≡ lines.old) }
        // Where reading failed, no byte that was read is held.
        ensures emptied { (file : ℕ) → IsErrOf result (Fault.Read file) → lines.new.ahead ≡ [] }
        ensures files { I.file inputs.new ≡ I.file inputs.old }
        ensures later { I.faults inputs.old ≤ I.faults inputs.new }
        ensures cause { (file : ℕ) → IsErrOf result (Fault.Read file) → Rose (I.faults inputs.old) (I.faults inputs.new) }
    {
        let ignores = self.options.ignore_missing_entry;
        let found = self.kept.next(inputs, lines, ignores)?;
        self.blocks = blocks_with(self.blocks, found);
        Ok(found)
    }

    /// Without what ends with a file. The next block is of the next file.
    pub fn end_file(self) -> Session<F>
        ensures stands { (h : History) → SessionStandsFor self h → SessionStandsFor result (file_ended h) }
        ensures reads { (h : History) → SessionReadsFor self h → SessionReadsFor result (file_ended h) }
        ensures counts { (blocks_of result ≡ blocks_of self) × (file_of result ≡ min (file_of self + 1) (2 ^ 32 - 1)) × (over_of result ≡ false) }
        ensures alike { ReportsAlike self result }
    {
        let mut session = self;
        session.kept.end_file();
        session
    }

    /// The table of points.
    pub fn points(&self) -> &Points
        ensures points { result.now ≡ points_of self.now }
        ensures table { (h : History) → SessionReadsFor self.now h → result.now ≡ h.table }
    {
        self.kept.points()
    }

    /// How many blocks were read.
    pub fn blocks(&self) -> u64
        ensures { result ≡ blocks_of self.now }
    {
        self.blocks
    }

    /// The grammar of its engines.
    pub fn grammar(&self) -> Grammar
        ensures grammar { result ≡ grammar_of self.now }
        ensures history { (h : History) → SessionStandsFor self.now h → result ≡ h.grammar }
    {
        self.kept.grammar()
    }

    /// The engine of the point's own samples.
    pub fn engine(&self, p: PointId) -> &Engine
        requires { p.0 < length (points_of self.now) }
        ensures grammar { result.now.grammar ≡ grammar_of self.now }
        ensures stands { (h : History) → SessionStandsFor self.now h → EngineStandsFor result.now (own_samples_of h.table h.samples p.0) }
    {
        self.kept.engine(p)
    }

    /// Whether each point has samples, its own or its children's, in the order of the table. It takes one walk over the edges, and a
    /// section goes down from its point.
    pub fn have_samples(&self) -> Result<Vec<bool>, NoMemory>
        ensures long { IfOk result (λ marks. length marks.items ≡ length (points_of self.now)) }
        ensures marks { (h : History) → SessionStandsFor self.now h → IfOk result (λ marks. marks.items ≡ have_samples h) }
    {
        self.kept.have_samples()
    }

    /// The shortcuts of its points, by which sections go down. They hold until the next block.
    pub fn shortcuts(&self) -> Result<Vec<Shortcut>, NoMemory>
        ensures { IfOk result (λ found. AreShortcuts (points_of self.now) (engines_of self.now) found.items) }
    {
        self.kept.shortcuts()
    }

    /// Writes the point's section behind the text: whether it has one. It has none without samples, or where its name isn't selected.
    /// After an error the text may hold a part of it.
    pub fn push_section(&self, text: &mut Text, p: PointId) -> Result<bool, NoMemory>
        requires within { p.0 < length (points_of self.now) }
        requires callable { F.IsAlwaysCallable (select_of self.now) }
        ensures has { (h : History) → SessionStandsFor self.now h → (selects : List ℕ → Bool) → SelectsBy (F.post (select_of self.now)) selects → IfOk result (λ has. has ≡ has_section selects h p.0) }
        ensures text { (h : History) → SessionStandsFor self.now h → (selects : List ℕ → Bool) → SelectsBy (F.post (select_of self.now)) selects
            → IfOk result (λ _. text.new ≡ text.old ++ section_of (options_of self.now) selects h p.0) }
    {
        if !(self.select)(self.kept.points().name(p)) {
            return Ok(false);
        }
        self.kept.push_section(text, &self.options, p)
    }

    /// The same by the shortcuts of its points, which are found once for the sections of a report.
    pub fn push_section_by(
        &self,
        text: &mut Text,
        shortcuts: &[Shortcut],
        p: PointId,
    ) -> Result<bool, NoMemory>
        requires within { p.0 < length (points_of self.now) }
        requires shortcuts { AreShortcuts (points_of self.now) (engines_of self.now) shortcuts.now }
        requires callable { F.IsAlwaysCallable (select_of self.now) }
        ensures has { (h : History) → SessionStandsFor self.now h → (selects : List ℕ → Bool) → SelectsBy (F.post (select_of self.now)) selects → IfOk result (λ has. has ≡ has_section selects h p.0) }
        ensures text { (h : History) → SessionStandsFor self.now h → (selects : List ℕ → Bool) → SelectsBy (F.post (select_of self.now)) selects
            → IfOk result (λ _. text.new ≡ text.old ++ section_of (options_of self.now) selects h p.0) }
    {
        if !(self.select)(self.kept.points().name(p)) {
            return Ok(false);
        }
        self.kept.push_section_by(text, &self.options, shortcuts, p)
    }

    /// The point's section; none without samples, or where its name isn't selected.
    pub fn section(&self, p: PointId) -> Result<Option<Text>, NoMemory>
        requires within { p.0 < length (points_of self.now) }
        requires callable { F.IsAlwaysCallable (select_of self.now) }
        ensures { (h : History) → SessionStandsFor self.now h → (selects : List ℕ → Bool) → SelectsBy (F.post (select_of self.now)) selects
            → IfOk result (λ section. section ≡ some_if (has_section selects h p.0) (section_of (options_of self.now) selects h p.0)) }
    {
        let mut text = Text::new(self.alloc);
        let has = self.push_section(&mut text, p)?;
        Ok(if has { Some(text) } else { None })
    }

    /// Writes the line of the point's sizes behind the text: whether it has one. It has none without own samples. After an error the text
    /// may hold a part of it.
    pub fn push_stats(&self, text: &mut Text, p: PointId) -> Result<bool, NoMemory>
        requires { p.0 < length (points_of self.now) }
        ensures has { (h : History) → SessionStandsFor self.now h → IfOk result (λ has. has ≡ has_own_samples h p.0) }
        ensures text { (h : History) → SessionStandsFor self.now h → IfOk result (λ _. text.new ≡ text.old ++ stats_of h p.0) }
    {
        self.kept.push_stats(text, p)
    }

    /// The line of the point's sizes; none without own samples.
    pub fn stats(&self, p: PointId) -> Result<Option<Text>, NoMemory>
        requires { p.0 < length (points_of self.now) }
        ensures { (h : History) → SessionStandsFor self.now h → IfOk result (λ stats. stats ≡ some_if (has_own_samples h p.0) (stats_of h p.0)) }
    {
        let mut text = Text::new(self.alloc);
        let has = self.push_stats(&mut text, p)?;
        Ok(if has { Some(text) } else { None })
    }

    /// Writes the state behind the text. After an error the text may hold a part of it.
    pub fn push_state(&self, text: &mut Text) -> Result<(), NoMemory>
        ensures saved { OnOk result (text.new ≡ text.old ++ saved_of self.now) }
        ensures history { OnOk result ((h : History) → SessionStandsFor self.now h → text.new ≡ text.old ++ state_file h) }
    {
        self.kept.push_state(text)
    }

    /// The state, as a session can begin with.
    pub fn state(&self) -> Result<Text, NoMemory>
        ensures saved { IfOk result (λ text. text ≡ saved_of self.now) }
        ensures history { IfOk result (λ text. (h : History) → SessionStandsFor self.now h → text ≡ state_file h) }
    {
        let mut text = Text::new(self.alloc);
        self.push_state(&mut text)?;
        Ok(text)
    }
}
