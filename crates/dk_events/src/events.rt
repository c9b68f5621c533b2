// Events.
ghost use Rattle.std.specs.Prelude.{◌≡◌, ◌≤◌, ◌<◌, ◌+◌, ◌-◌, ◌^◌, min, not, [], List, ℕ, None, IfErr, IfOk, IfSome, IsErrOf, Ok, Some, length, true, false};
ghost use Rattle.dk_base.specs.Values.{values_of};
ghost use Rattle.dk_decl.specs.Headers.{is_implicit};
ghost use Rattle.dk_derive.specs.Laws.{all_vars_of, var_kinds};
ghost use Rattle.dk_derive.specs.Values.{values_by_form};
ghost use Rattle.dk_io.specs.Outside.{Rose};
ghost use Rattle.dk_lines.specs.Reading.{left_of};
ghost use Rattle.dk_points.specs.Table.{Point};
ghost use Rattle.dk_points.specs.Vars.{vars_of};
ghost use Rattle.dk_template.specs.declared.grammar.Grammar.{Grammar};
ghost use Rattle.dk_trace.specs.Fitting.{FitKinds};
ghost use Rattle.dk_blocks.specs.Finding.{FoundFits, outcome_of};
ghost use Rattle.dk_blocks.specs.Fitting.{Extends, HasFittingConstants};
ghost use Rattle.dk_blocks.specs.History.{History, Samples, declared_effect, file_ended, nothing_by, with_declaration};
ghost use Rattle.dk_blocks.specs.Standing.{left_with_answer};
ghost use Rattle.dk_blocks.specs.Steps.{DeclareGives, IsInFile};
ghost use Rattle.dk_events.specs.Following.{AreVarsOf, AreVarsOfFirst};
ghost use Rattle.dk_events.specs.Standing.{EventCounts, EventsStandFor, NextEvent, TakenAs, file_of, ignores_of, over_of, points_of, reader_left};
ghost use Rattle.dk_events.specs.Telling.{EventFits, PointsGoOn, effect_told};

use crate::event::Event;
use bumpalo::Bump;
use dk_base::{Fault, List, NoMemory, PointId, VarInfo, View};
use dk_blocks::{Found, Reader};
use dk_decl::PointDecl;
use dk_derive::{derive, extend};
use dk_io::Inputs;
use dk_lines::Lines;
use dk_points::{Declared, Points};
use std::alloc::Global;
use std::marker::Model;
use std::mem::replace;

/// Reads the blocks of files, one after another: what each does, with the values of derived variables.
#[derive(Drop)]
pub struct Events {
    alloc: Global,
    reader: Reader,
    vars: Vec<List<VarInfo>>,
    ignores: bool,
}

impl Model for Events {
    ghost use Rattle.std.specs.Coded.{codes};
    ghost use Rattle.dk_blocks.specs.contracts.reader.Reader as reading;
    ghost use Rattle.dk_events.specs.Following.{Following, IsSound};

    ghost Value = { Following };

    ghost coded = { Prim.hlevel (codes, reading.the_row.coded) };

    ghost view = { λ e. record { reader = e.reader; vars = e.vars.items; ignores = e.ignores } };

    ghost invariant = { λ e. IsSound (record { reader = e.reader; vars = e.vars.items; ignores = e.ignores }) };
}

// With the variables of the points that have none here yet.
fn complete(
    alloc: Global,
    points: &Points,
    vars: Vec<List<VarInfo>>,
) -> Result<Vec<List<VarInfo>>, NoMemory>
    requires few { length vars.items ≤ length points.now }
    requires first { AreVarsOfFirst points.now vars.items }
    ensures { IfOk result (λ all. AreVarsOf points.now all.items) }
{
    let mut vars = vars;
    for place in vars.len()..points.len() as usize {
        vars.push(derive(alloc, points.vars(PointId(place as u32)))?)?;
    }
    Ok(vars)
}

// The sample of a point with the values of all its variables, derived ones included.
fn sample<'a>(
    arena: &'a Bump,
    vars: &[VarInfo],
    point: PointId,
    line: u64,
    base: &'a [View<'a>],
) -> Result<Event<'a>, NoMemory>
    ensures event { IfOk result (λ event. effect_told event ≡ Samples point.0 line (values_by_form vars.now (values_of base.now))) }
    ensures fits { (ps : List Point) → point.0 < length ps → vars.now ≡ all_vars_of ps point.0 → FitKinds (var_kinds (vars_of ps point.0)) (values_of base.now)
        → IfOk result (λ event. EventFits ps (Some event)) }
{
    let values = extend(arena, vars, base)?;
    Ok(Event::Sample {
        point,
        line,
        values,
    })
}

// What a declaration does: only that of a new point does anything.
fn event_of<'a>(declared: Declared) -> Event<'a>
    ensures event { effect_told result ≡ declared_effect declared }
    ensures fits { (ps : List Point) → EventFits ps (Some result) }
    ensures points { (ps : List Point) (ps2 : List Point) → Extends ps ps2 → PointsGoOn ps (Some result) ps2 }
{
    match declared {
        Declared::New(_) => Event::Declared,
        Declared::Same(_) => Event::Nothing,
    }
}

impl Events {
    /// No blocks were read. Exits without an entry are left out, or refused.
    pub fn new(alloc: Global, ignore_missing_entry: bool) -> Result<Events, NoMemory>
        ensures stands { IfOk result (λ e. (grammar : Grammar) → EventsStandFor e (nothing_by grammar)) }
        ensures counts { IfOk result (λ e. (ignores_of e ≡ ignore_missing_entry) × (file_of e ≡ 0) × (over_of e ≡ false)) }
    {
        let reader = Reader::new(alloc)?;
        let vars = complete(alloc, reader.points(), Vec::new(alloc))?;
        Ok(Events {
            alloc,
            reader,
            vars,
            ignores: ignore_missing_entry,
        })
    }

    /// What the next block of the started file does; none where the file ends without one. A sample has the values of all variables of its
    /// point, which lie in the arena. Nothing comes exactly for blocks that neither declare a new point nor add a sample: header lines alone,
    /// lists of implementors, repeated declarations, and exits that are left out. After a fault nothing is said of the history.
    pub fn next<'a, I: Inputs>(
        &mut self,
        arena: &'a Bump,
        inputs: &mut I,
        lines: &mut Lines,
    ) -> Result<Option<Event<'a>>, Fault>
        requires { lines.old.is_started ≡ not (over_of self.old) }
        ensures gives { (h : History) → EventsStandFor self.old h → IfSome (left_of lines.old (I.rest inputs.old))
            (λ xs. NextEvent self.old h lines.old xs (left_with_answer self.new result) lines.new (left_of lines.new (I.rest inputs.new))) }
        // A sample is of a point of the table, and has values of all its variables.
        ensures fits { IfOk result (λ event. EventFits (points_of self.new) event) }
        // No block takes points from the table, and a sample leaves it as it is.
        ensures points { IfOk result (λ event. PointsGoOn (points_of self.old) event (points_of self.new)) }
        ensures counts { EventCounts self.old lines.old (left_with_answer self.new result) lines.new }
        // At the file's end nothing is read.
        ensures over { over_of self.old ≡ true → (result ≡ Ok None) × (self.new ≡ self.old) × (inputs.new ≡ inputs.old) × (lines.new ≡ lines.old) }
        // Where reading failed, no byte that was read is held.
        ensures emptied { (file : ℕ) → IsErrOf result (Fault.Read file) → lines.new.ahead ≡ [] }
        ensures files { I.file inputs.new ≡ I.file inputs.old }
        ensures later { I.faults inputs.old ≤ I.faults inputs.new }
        ensures cause { (file : ℕ) → IsErrOf result (Fault.Read file) → Rose (I.faults inputs.old) (I.faults inputs.new) }
    {
        match self.reader.next(arena, inputs, lines, self.ignores)? {
            Some(found) => Ok(Some(self.take(arena, found)?)),
            None => Ok(None),
        }
    }

    // Takes a block that was found: what it does.
    fn take<'a>(&mut self, arena: &'a Bump, found: Found<'a>) -> Result<Event<'a>, Fault>
        requires { FoundFits (points_of self.old) (Some found) }
        ensures gives { (h : History) → EventsStandFor self.old h → TakenAs (left_with_answer self.new result) (outcome_of h (Some found.entry)) }
        ensures fits { IfOk result (λ event. EventFits (points_of self.new) (Some event)) }
        ensures points { IfOk result (λ event. PointsGoOn (points_of self.old) (Some event) (points_of self.new)) }
        ensures ignores { ignores_of self.new ≡ ignores_of self.old }
        ensures counts { IfOk result (λ _. (file_of self.new ≡ file_of self.old) × (over_of self.new ≡ over_of self.old)) }
        ensures file { IfErr result (IsInFile (file_of self.old)) }
        ensures unread { (file : ℕ) → IsErrOf result (Fault.Read file) → ⊥ }
    {
        match found {
            Found::Nothing => Ok(Event::Nothing),
            Found::Declaration { line, decl } => Ok(event_of(self.declare(line, decl)?)),
            Found::Sample {
                point,
                line,
                values,
            } => match sample(arena, self.vars(point), point, line, values) {
                Ok(event) => Ok(event),
                Err(NoMemory) => Err(Fault::NoMemory),
            },
        }
    }

    // Takes a declaration, whose block begins at this line: what it was to the table. No points are left if it is refused.
    #[inline(never)]
    fn declare(&mut self, line: u64, decl: PointDecl) -> Result<Declared, Fault>
        requires { HasFittingConstants decl }
        ensures gives { (h : History) → EventsStandFor self.old h → DeclareGives (reader_left (left_with_answer self.new result)) (with_declaration h line decl) }
        ensures points { IfOk result (λ _. Extends (points_of self.old) (points_of self.new)) }
        ensures ignores { ignores_of self.new ≡ ignores_of self.old }
        ensures counts { IfOk result (λ _. (file_of self.new ≡ file_of self.old) × (over_of self.new ≡ over_of self.old)) }
        ensures file { IfErr result (IsInFile (file_of self.old)) }
        ensures unread { (file : ℕ) → IsErrOf result (Fault.Read file) → ⊥ }
    {
        let none = match Events::new(self.alloc, self.ignores) {
            Ok(none) => none,
            Err(NoMemory) => return Err(Fault::NoMemory),
        };
        let (events, declared) = replace(self, none).with_declaration(line, decl)?;
        *self = events;
        Ok(declared)
    }

    // The same, where the events are taken apart.
    fn with_declaration(self, line: u64, decl: PointDecl) -> Result<(Events, Declared), Fault>
        requires { HasFittingConstants decl }
        ensures gives { (h : History) → EventsStandFor self h → DeclareGives (reader_left result) (with_declaration h line decl) }
        ensures points { IfOk result (λ a. Extends (points_of self) (points_of a.0)) }
        ensures counts { IfOk result (λ a. (ignores_of a.0 ≡ ignores_of self) × (file_of a.0 ≡ file_of self) × (over_of a.0 ≡ over_of self)) }
        ensures file { IfErr result (IsInFile (file_of self)) }
        ensures unread { (file : ℕ) → IsErrOf result (Fault.Read file) → ⊥ }
    {
        let Events {
            alloc,
            reader,
            vars,
            ignores,
        } = self;
        let (reader, declared) = reader.declare(line, decl)?;
        match complete(alloc, reader.points(), vars) {
            Ok(vars) => Ok((
                Events {
                    alloc,
                    reader,
                    vars,
                    ignores,
                },
                declared,
            )),
            Err(NoMemory) => Err(Fault::NoMemory),
        }
    }

    /// Without what ends with a file. The next block is of the next file.
    pub fn end_file(self) -> Events
        ensures stands { (h : History) → EventsStandFor self h → EventsStandFor result (file_ended h) }
        ensures points { points_of result ≡ points_of self }
        ensures counts { (ignores_of result ≡ ignores_of self) × (file_of result ≡ min (file_of self + 1) (2 ^ 32 - 1)) × (over_of result ≡ false) }
    {
        let mut events = self;
        events.reader.end_file();
        events
    }

    /// The table of points.
    pub fn points(&self) -> &Points
        ensures points { result.now ≡ points_of self.now }
        ensures table { (h : History) → EventsStandFor self.now h → result.now ≡ h.table }
    {
        self.reader.points()
    }

    /// The variables of the point, derived ones included.
    pub fn vars(&self, p: PointId) -> &[VarInfo]
        requires { p.0 < length (points_of self.now) }
        ensures { result.now ≡ all_vars_of (points_of self.now) p.0 }
    {
        self.vars[p.0 as usize].as_slice()
    }

    /// Whether the comparability word in force is `implicit`, and not `none`.
    pub fn implicit(&self) -> bool
        ensures { (h : History) → EventsStandFor self.now h → result ≡ is_implicit h.header }
    {
        self.reader.implicit()
    }
}
