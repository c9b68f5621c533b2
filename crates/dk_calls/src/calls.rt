// Exits matched with their entries.
ghost use Rattle.std.specs.Prelude.{◌≡◌, ◌++◌, ◌<◌, [], ◌∷◌, true, ℕ, IfOk, IsSome, OnOk, OnErr, List, Some, length, map, option_map};
ghost use Rattle.dk_base.specs.Values.{values_of};
ghost use Rattle.dk_points.specs.Vars.{entry_of, orig_vars};
ghost use Rattle.dk_trace.specs.Answers.{Shows};
ghost use Rattle.dk_trace.specs.RecordsResumed.{shown};
ghost use Rattle.dk_calls.specs.Origs.{orig_values, own_vars};
ghost use Rattle.dk_calls.specs.Records.{call_of, is_entry, is_entry_at, values_at_exit};
ghost use Rattle.dk_calls.specs.Waiting.{Call, left_by, taken_by, waiting_of};

use crate::nonces::Nonces;
use crate::origs::{own_len, with_origs};
use crate::stack::Stack;
use bumpalo::collections::into_bump_slice;
use dk_base::{Arena, BlockFault, List, NoMemory, PointId, Value, VarInfo, View, Why};
use dk_points::{Points, Role};
use dk_trace::BaseSample;
use std::alloc::Global;

/// The entries that wait within a file.
///
/// An exit with a nonce takes the latest waiting entry of its method and nonce, and no other. An exit without a nonce takes the latest
/// waiting entry of its method without a nonce, and with it all later waiting entries without a nonce.
#[derive(Drop)]
pub struct Calls {
    pub(crate) alloc: Global,
    pub(crate) plain: Stack,
    pub(crate) nonces: Nonces,
}

fn is_entry_role(role: Role) -> bool
    ensures { result ≡ is_entry role }
{
    match role {
        Role::Entry => true,
        Role::Combined => false,
        Role::Subexit => false,
        Role::Plain => false,
    }
}

/// Whether the point is an entry that is declared.
#[tactic(auto, unfolding(crate::specs::Records::is_entry_at))]
pub fn is_entry(points: &Points, point: PointId) -> bool
    requires { point.0 < length points.now }
    ensures { result ≡ is_entry_at points.now point.0 }
{
    match points.role(point) {
        None => false,
        Some(role) => is_entry_role(role),
    }
}

fn keep_all(alloc: Global, views: &[View<'_>]) -> Result<List<Value>, NoMemory>
    ensures { IfOk result (λ kept. kept ≡ values_of views.entry.now) }
{
    let mut kept = List::new(alloc);
    for view in views {
        kept.push(Value::keep(alloc, *view)?)?;
    }
    Ok(kept)
}

// The variables that the point declares, without the opaque ones.
fn own_vars(points: &Points, point: PointId) -> &[VarInfo]
    requires { point.0 < length points.now }
    ensures { result.now ≡ own_vars points.now point.0 }
{
    let vars = points.vars(point);
    &vars[..own_len(vars)]
}

// The orig variables of an exit.
fn orig_vars(points: &Points, exit: PointId) -> &[VarInfo]
    requires { exit.0 < length points.now }
    ensures { (e : ℕ) → entry_of points.now exit.0 ≡ Some e → e < exit.0 → result.now ≡ orig_vars (own_vars points.now e) (own_vars points.now exit.0) }
{
    let vars = points.vars(exit);
    &vars[own_len(vars)..]
}

// The exit's values, and then the orig ones from the values that its entry has.
fn with_entry<'a>(
    points: &Points,
    arena: &'a Arena,
    sample: &BaseSample<'a>,
    entry: PointId,
    kept: &[Value],
) -> Result<&'a [View<'a>], NoMemory>
    requires exit { sample.now.point.0 < length points.now }
    requires entry { entry_of points.now sample.now.point.0 ≡ Some entry.0 }
    requires before { entry.0 < sample.now.point.0 }
    ensures { IfOk result (λ views. values_of views.now ≡ values_of sample.now.values.now
        ++ orig_values (own_vars points.now entry.0) (own_vars points.now sample.now.point.0) kept.now) }
{
    let room = sample.values.len().saturating_add(kept.len());
    let mut values = Vec::with_capacity(arena, room)?;
    values.extend_from_slice(sample.values)?;
    let more = with_origs(
        arena,
        values,
        own_vars(points, entry),
        kept,
        orig_vars(points, sample.point),
    )?;
    Ok(into_bump_slice(more))
}

impl Calls {
    ghost use Rattle.dk_calls.specs.Standing.{CallsStandForRecords, Holds, WaitAlike};

    /// No entry waits yet.
    pub fn new(alloc: Global) -> Result<Calls, NoMemory>
        ensures { IfOk result (λ calls. CallsStandForRecords calls []) }
    {
        Ok(Calls {
            alloc,
            plain: Stack::new(alloc),
            nonces: Nonces::new(alloc),
        })
    }

    /// No entry waits any more, as behind the end of a file.
    pub fn clear(&mut self)
        ensures { CallsStandForRecords self.new [] }
    {
        self.plain.clear();
        self.nonces.clear();
    }

    /// The entry waits. The record is that of an entry. A refused call leaves what waits as it was.
    pub fn enter(&mut self, points: &Points, sample: &BaseSample<'_>) -> Result<(), NoMemory>
        requires { is_entry_at points.now sample.now.point.0 ≡ true }
        ensures ok { OnOk result ((earlier : List Call) → CallsStandForRecords self.old earlier → CallsStandForRecords self.new (call_of points.now (shown sample.now) ∷ earlier)) }
        ensures err { OnErr result (WaitAlike self.old self.new) }
    {
        let values = keep_all(self.alloc, sample.values)?;
        match sample.nonce {
            None => self.plain.push(sample.point.0, values),
            Some(nonce) => self.nonces.push((sample.point.0, nonce), values),
        }
    }

    // The values of the entry that an exit takes.
    fn latest(&self, entry: PointId, nonce: Option<i64>) -> Option<&List<Value>>
        ensures { (earlier : List Call) → CallsStandForRecords self.now earlier
            → option_map (λ values. values.now) result ≡ option_map (λ w. w.values) (taken_by entry.0 nonce (waiting_of earlier)) }
    {
        match nonce {
            None => self.plain.latest(entry.0),
            Some(nonce) => self.nonces.latest((entry.0, nonce)),
        }
    }

    // Takes the entry of an exit, and what goes with it.
    fn take(&mut self, entry: PointId, nonce: Option<i64>)
        ensures { (earlier : List Call) → CallsStandForRecords self.old earlier → IsSome (taken_by entry.0 nonce (waiting_of earlier))
            → Holds self.new (left_by entry.0 nonce (waiting_of earlier)) }
    {
        match nonce {
            None => self.plain.cut(entry.0),
            Some(nonce) => self.nonces.pop((entry.0, nonce)),
        }
    }

    /// The values of an exit's record: its own, and then the orig ones, which its entry has. The exit takes the entry. It is refused as
    /// `UnmatchedExit` at the record's first line where no entry waits for it; a refused exit takes nothing.
    pub fn exit<'a>(
        &mut self,
        points: &Points,
        arena: &'a Arena,
        sample: &BaseSample<'a>,
    ) -> Result<&'a [View<'a>], BlockFault>
        requires within { sample.now.point.0 < length points.now }
        requires exit { IsSome (entry_of points.now sample.now.point.0) }
        ensures values { (earlier : List Call) → CallsStandForRecords self.old earlier
            → Shows (λ views. values_of views.now) result (values_at_exit points.now (shown sample.now) earlier) }
        ensures ok { OnOk result ((earlier : List Call) → CallsStandForRecords self.old earlier → CallsStandForRecords self.new (call_of points.now (shown sample.now) ∷ earlier)) }
        ensures err { OnErr result (self.new ≡ self.old) }
    {
        let Some(entry) = points.entry(sample.point) else {
            unreachable!()
        };
        let values = match self.latest(entry, sample.nonce) {
            None => return Err(unmatched_exit(sample.line)),
            Some(kept) => with_entry(points, arena, sample, entry, kept.as_slice())?,
        };
        self.take(entry, sample.nonce);
        Ok(values)
    }
}

fn unmatched_exit(line: u64) -> BlockFault
    ensures { result ≡ BlockFault.Refused line Why.UnmatchedExit }
{
    BlockFault::Refused {
        line,
        why: Why::UnmatchedExit,
    }
}
