// Loading.
ghost use Rattle.std.specs.Prelude.{◌≡◌, ◌<◌, ◌^◌, ◌+◌, ◌==◌, ◌++◌, ◌∷◌, [], ℕ, false, All, Bool, Err, IfOk, IsTrue, List, Option, Some, codes, length, map, nat_eq, slice_get};
ghost use Rattle.std.specs.Fmt.{decimal};
ghost use Rattle.std.specs.List.{starts_with};
ghost use Rattle.std.specs.Str.{bytes_eq};
ghost use Rattle.dk_engine.specs.Saved.{AreSavedParts, parts_of};
ghost use Rattle.dk_engine.specs.declared.saved.parts.Parts.{Parts as AllParts};
ghost use Rattle.dk_hierarchy.specs.Samples.{OwnSamples, all_vars_of};
ghost use Rattle.dk_hierarchy.specs.Standing.{AreEnginesOf};
ghost use Rattle.dk_points.specs.Declaring.{declared};
ghost use Rattle.dk_points.specs.Table.{Point};
ghost use Rattle.dk_state.specs.Fitting.{FitsSlot};
ghost use Rattle.dk_state.specs.Given.{is_given_point};
ghost use Rattle.dk_state.specs.Lines.{behind_blank, state_line};
ghost use Rattle.dk_state.specs.Loading.{AreLoadedAs, AreSaved, IsEngineAt, IsLoaded, IsLoadedAs, Loads, saved_blocks};
ghost use Rattle.dk_state.specs.Reading.{BeginsWith, ends_field};
ghost use Rattle.dk_state.specs.StateFile.{StandForHistory, state_file_of};
ghost use Rattle.dk_state.specs.Saved.{comparability_text, saved_text, version_of};
ghost use Rattle.dk_state.specs.Spelling.{AreSavedAt, CanBeSaved, Content, IsContent, IsOwnTable, IsSavedAt, IsSpelling, if_new, saved_parts, table_behind, text_of_content};
ghost use Rattle.dk_template.specs.declared.grammar.Grammar.{Grammar as Grammars};

use crate::entries::read_all;
use crate::front::Front;
use crate::given::is_given;
use crate::matching;
use crate::reading_kept::{next_point, parts};
use dk_base::{BlockFault, List, NoMemory, PointId, same_bytes};
use dk_decl::PointDecl;
use dk_derive::derive;
use dk_engine::{Engine, PartsFault};
use dk_hierarchy::engine_of;
use dk_points::{Declared, Points};
use dk_template::Grammar;
use std::alloc::Global;
use thiserror::Error;

/// What a state file says.
#[derive(Drop)]
pub struct Loaded {
    /// The table of points, as the declarations make it.
    pub points: Points,
    /// The engines of its points, in order.
    pub engines: List<Engine>,
    /// Whether the comparability word in force is `implicit`.
    pub implicit: bool,
    /// The grammar, by which all engines go.
    pub grammar: Grammar,
}

/// Why a state file is not loaded.
#[derive(Clone, Copy, Debug, Drop, PartialEq, Eq, Error)]
pub enum LoadFault {
    /// The bytes are no spelling of a state.
    #[error("no state")]
    BadState,
    /// Memory could not be had.
    #[error("out of memory")]
    NoMemory,
}

impl From<NoMemory> for LoadFault {
    ghost use Rattle.std.specs.Prelude.{◌≡◌};
    ghost use Rattle.dk_state.specs.declared.loading.LoadFault.TheVariants as fault;

    ghost from_gives = { λ _ e. e ≡ fault.NoMemory };

    fn from(_: NoMemory) -> Self {
        LoadFault::NoMemory
    }
}

fn grammar_of(version: u64) -> Grammar
    ensures { (g : Grammars) → version ≡ version_of g → result ≡ g }
{
    if version == 1 {
        Grammar::One
    } else {
        Grammar::Two
    }
}

// The grammar, by its version. Another version is told when the state is saved again.
fn grammar(front: &mut Front<'_>) -> Grammar
    ensures { (g : Grammars) (rest : List ℕ) → front.old ≡ state_line "daikon-state" (decimal (version_of g) ∷ []) ++ rest → (result ≡ g) × (front.new ≡ rest) }
{
    front.pass(b"daikon-state");
    let version = front.natural();
    front.pass(b"\n");
    grammar_of(version)
}

// Whether the comparability word is `implicit`.
fn implicit(front: &mut Front<'_>) -> bool
    ensures { (implicit : Bool) (rest : List ℕ) → front.old ≡ state_line "comparability" (comparability_text implicit ∷ []) ++ rest → (result ≡ implicit) × (front.new ≡ rest) }
{
    front.pass(b"comparability");
    let word = front.field();
    front.pass(b"\n");
    same_bytes(word, b"implicit")
}

// The number of points, which is told again by the declarations.
fn pass_count(front: &mut Front<'_>)
    ensures { (n : ℕ) (rest : List ℕ) → n < 2 ^ 64 → front.old ≡ state_line "points" (decimal n ∷ []) ++ rest → front.new ≡ rest }
{
    front.pass(b"points");
    front.natural();
    front.pass(b"\n");
}

// The table with the declaration of a new point.
fn with_new(points: Points, decl: PointDecl) -> Result<Points, LoadFault>
    ensures new { IfOk result (λ next. if_new (declared points decl) ≡ Some next) }
    ensures read { (next : List Point) → if_new (declared points decl) ≡ Some next → Loads result (λ own. own ≡ next) }
{
    match points.declare(decl, 0) {
        Ok((points, Declared::New(_))) => Ok(points),
        Ok((_, Declared::Same(_))) => Err(LoadFault::BadState),
        Err(BlockFault::Refused { .. }) => Err(LoadFault::BadState),
        Err(BlockFault::NoMemory) => Err(LoadFault::NoMemory),
    }
}

// The table with one declaration more, which is one that a block can give, and of a new point.
fn with_given(alloc: Global, points: Points, decl: PointDecl) -> Result<Points, LoadFault>
    ensures given { IfOk result (λ next. IsTrue (is_given_point decl)) }
    ensures new { IfOk result (λ next. if_new (declared points decl) ≡ Some next) }
    ensures read { (next : List Point) → IsTrue (is_given_point decl) → if_new (declared points decl) ≡ Some next → Loads result (λ own. own ≡ next) }
{
    if !is_given(alloc, &decl)? {
        return Err(LoadFault::BadState);
    }
    with_new(points, decl)
}

// The table of these declarations, each of which makes a new point.
fn table_of(alloc: Global, decls: List<PointDecl>) -> Result<Points, LoadFault>
    ensures given { IfOk result (λ _. All (λ d. IsTrue (is_given_point d)) decls) }
    ensures made { IfOk result (λ points. table_behind [] decls ≡ Some points) }
    ensures read { (ps : List Point) → All (λ d. IsTrue (is_given_point d)) decls → table_behind [] decls ≡ Some ps → Loads result (λ own. own ≡ ps) }
{
    let mut points = Points::new(alloc)?;
    for decl in decls.into_vec() {
        points = with_given(alloc, points, decl)?;
    }
    Ok(points)
}

// The engine of the point with the parts that come next.
fn engine_with(
    alloc: Global,
    points: &Points,
    p: PointId,
    grammar: Grammar,
    front: &mut Front<'_>,
) -> Result<Engine, LoadFault>
    requires { p.0 < length points.now }
    ensures engine { IfOk result (IsEngineAt points.now grammar p.0) }
    ensures saved { IfOk result (λ e. AreSavedParts grammar (all_vars_of points.now p.0) (parts_of e.kept) × All FitsSlot e.kept.slots) }
    ensures read { (saved : AllParts) (more : List (Option AllParts)) → p.0 < 2 ^ 32 → AreSavedAt grammar points.now p.0 saved → front.old ≡ saved_blocks p.0 (Some saved ∷ more) → Loads result (λ e. IsLoadedAs grammar points.now p.0 (Some saved) e × (front.new ≡ saved_blocks (p.0 + 1) more)) }
{
    front.pass(b"samples");
    front.place();
    let vars = derive(alloc, points.vars(p))?;
    let parts = parts(alloc, vars.as_slice(), front)?;
    match Engine::from_parts(alloc, vars, parts, grammar) {
        Ok(engine) => Ok(engine),
        Err(PartsFault::Bad) => Err(LoadFault::BadState),
        Err(PartsFault::NoMemory) => Err(LoadFault::NoMemory),
    }
}

// Whether samples of this point come next.
fn comes_next(front: &Front<'_>, p: PointId) -> bool
    ensures at { (q : ℕ) (rest : List ℕ) → q < 2 ^ 32 → BeginsWith ends_field rest → front.now ≡ codes "samples" ++ (behind_blank (decimal q) ++ rest) → result ≡ (q == p.0) }
    ensures none { starts_with nat_eq front.now (codes "samples ") ≡ false → result ≡ false }
{
    match next_point(front) {
        Some(q) => q == p.0,
        None => false,
    }
}

// The engine of the point at this place, with its parts if these come next.
fn next_engine(
    alloc: Global,
    points: &Points,
    p: PointId,
    grammar: Grammar,
    front: &mut Front<'_>,
) -> Result<Engine, LoadFault>
    requires { p.0 < length points.now }
    ensures engine { IfOk result (IsEngineAt points.now grammar p.0) }
    ensures saved { IfOk result (λ e. IsSavedAt grammar points.now p.0 (saved_parts e.kept)) }
    ensures read { (saved : Option AllParts) (more : List (Option AllParts)) → IsSavedAt grammar points.now p.0 saved → p.0 + 1 + length more < 2 ^ 32 → front.old ≡ saved_blocks p.0 (saved ∷ more) → Loads result (λ e. IsLoadedAs grammar points.now p.0 saved e × (front.new ≡ saved_blocks (p.0 + 1) more)) }
{
    if !comes_next(front, p) {
        return Ok(engine_of(alloc, points, p, grammar)?);
    }
    if points.is_implicit(p) {
        return Err(LoadFault::BadState);
    }
    engine_with(alloc, points, p, grammar, front)
}

// The engines of all points.
fn engines(
    alloc: Global,
    points: &Points,
    grammar: Grammar,
    front: &mut Front<'_>,
) -> Result<List<Engine>, LoadFault>
    ensures engines { IfOk result (AreEnginesOf points.now) }
    ensures grammar { IfOk result (All (λ e. e.grammar ≡ grammar)) }
    ensures saved { IfOk result (AreSaved grammar points.now) }
    ensures read { (saved : List (Option AllParts)) → length saved ≡ length points.now → ((p : ℕ) (own : Option AllParts) → slice_get saved p ≡ Some own → IsSavedAt grammar points.now p own) → front.old ≡ saved_blocks 0 saved → Loads result (AreLoadedAs grammar points.now saved) }
{
    let mut engines = List::new(alloc);
    for p in 0..points.len() {
        let engine = next_engine(alloc, points, PointId(p), grammar, front)?;
        engines.push(engine)?;
    }
    Ok(engines)
}

// What the bytes say, if they are a spelling.
fn read(alloc: Global, bytes: &[u8]) -> Result<Loaded, LoadFault>
    ensures engines { IfOk result (λ l. AreEnginesOf l.points l.engines × All (λ e. e.grammar ≡ l.grammar) l.engines) }
    ensures table { IfOk result (λ l. IsOwnTable l.points) }
    ensures saved { IfOk result (λ l. AreSaved l.grammar l.points l.engines) }
    ensures read { (c : Content) → IsContent c → text_of_content c ≡ bytes.now → Loads result (IsLoaded c) }
{
    let mut front = Front::of(bytes);
    let grammar = grammar(&mut front);
    let implicit = implicit(&mut front);
    pass_count(&mut front);
    let decls = read_all(alloc, &[], &mut front)?;
    let points = table_of(alloc, decls)?;
    let engines = engines(alloc, &points, grammar, &mut front)?;
    Ok(Loaded {
        points,
        engines,
        implicit,
        grammar,
    })
}

// Whether what was read saves to these bytes.
fn saves_to(alloc: Global, loaded: &Loaded, bytes: &[u8]) -> Result<bool, NoMemory>
    ensures { IfOk result (λ same. same ≡ bytes_eq (saved_text loaded.now.grammar loaded.now.points loaded.now.implicit (map (λ e. e.kept) loaded.now.engines)) bytes.now) }
{
    matching::saves_to(
        alloc,
        &loaded.points,
        loaded.engines.as_slice(),
        loaded.implicit,
        loaded.grammar,
        bytes,
    )
}

/// What a state file says. It takes exactly the spellings of states: the bytes to which some table, comparability word and kept parts that
/// meet the conditions save. All other bytes are BadState. Saving what was loaded gives the same bytes again, and what its engines keep
/// meets the conditions; each keeps what is kept of any samples that give its parts. Whatever content has these bytes, its grammar,
/// table and word are the loaded ones.
pub fn load(alloc: Global, bytes: &[u8]) -> Result<Loaded, LoadFault>
    ensures saves { IfOk result (λ l. saved_text l.grammar l.points l.implicit (map (λ e. e.kept) l.engines) ≡ bytes.now) }
    ensures engines { IfOk result (λ l. AreEnginesOf l.points l.engines × All (λ e. e.grammar ≡ l.grammar) l.engines) }
    ensures spelling { IfOk result (λ l. IsSpelling bytes.now) }
    ensures table { IfOk result (λ l. IsOwnTable l.points) }
    ensures saved { IfOk result (λ l. AreSaved l.grammar l.points l.engines) }
    ensures loaded { IfOk result (λ l. AreLoadedAs l.grammar l.points (map (λ e. saved_parts e.kept) l.engines) l.engines) }
    ensures bad { result ≡ Err LoadFault.BadState → IsSpelling bytes.now → ⊥ }
    ensures content { IfOk result (λ l. (c : Content) → IsContent c → text_of_content c ≡ bytes.now → (l.grammar ≡ c.grammar) × (l.points ≡ c.points) × (l.implicit ≡ c.implicit)) }
    ensures stands { IfOk result (λ l. (g : Grammars) (ps : List Point) (implicit : Bool) (own : OwnSamples) → CanBeSaved g ps own → state_file_of g ps implicit own ≡ bytes.now → (l.grammar ≡ g) × (l.points ≡ ps) × (l.implicit ≡ implicit) × StandForHistory g ps l.engines own) }
{
    let loaded = read(alloc, bytes)?;
    if saves_to(alloc, &loaded, bytes)? {
        Ok(loaded)
    } else {
        Err(LoadFault::BadState)
    }
}
