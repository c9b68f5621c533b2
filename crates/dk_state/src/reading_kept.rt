// What is kept of samples, as it is read.
ghost use Rattle.std.specs.Prelude.{◌≡◌, ◌++◌, ◌-◌, ◌<◌, ◌≤◌, ◌^◌, ◌∷◌, ◌==◌, ℕ, false, All, Bool, IfOk, List, None, Some, codes, length, map, nat_eq, refl};
ghost use Rattle.std.specs.Fmt.{decimal};
ghost use Rattle.std.specs.List.{starts_with};
ghost use Rattle.dk_base.specs.Values.{IsOfKind};
ghost use Rattle.dk_base.specs.Values.Spelling.{IsWritten, spelling};
ghost use Rattle.dk_base.specs.declared.values.Value.{Value as Values};
ghost use Rattle.dk_classes.specs.Classes.{kind_at, var_kinds};
ghost use Rattle.dk_engine.specs.declared.saved.parts.Parts.{Parts as AllParts};
ghost use Rattle.dk_template.specs.declared.grammar.RowId.{RowId as Row};
ghost use Rattle.dk_state.specs.Fitting.{FitsClass, FitsKnown, FitsParts, FitsPattern, FitsPlace, FitsSlot};
ghost use Rattle.dk_state.specs.Kept.{behind_samples, bits_of, class_line, if_any, known_line, pattern_line, slot_line};
ghost use Rattle.dk_state.specs.Lines.{behind_blank, fields_text};
ghost use Rattle.dk_state.specs.Numbered.{first_of_number};
ghost use Rattle.dk_state.specs.Reading.{BeginsWith, begins_number, ends_field, ends_line};

use crate::entries::{Entry, read_all};
use crate::front::Front;
use crate::reading_states::state;
use dk_base::{List, NoMemory, Value, VarId, VarInfo};
use dk_engine::{Known, Parts, Pattern, Slot};
use dk_template::{RowId, Tuple};
use std::alloc::Global;

impl Entry for VarId {
    ghost text_of = { λ v. behind_blank (decimal v.0) };

    ghost fits = { λ _ v. FitsPlace v };

    ghost within = { λ v. FitsPlace v };

    ghost begins = { begins_number };

    ghost follows = { BeginsWith ends_field };

    fn is_next(front: &Front<'_>) -> bool {
        front.is_at_number()
    }

    fn read(_alloc: Global, _vars: &[VarInfo], front: &mut Front<'_>) -> Result<VarId, NoMemory> {
        Ok(VarId(front.place()))
    }

    ghost first = { λ vars x rest fits. first_of_number x.0 rest fits };

    ghost follow = { λ _ _ _ _. refl };
}

impl Entry for List<VarId> {
    ghost text_of = { class_line };

    ghost fits = { λ _ members. FitsClass members };

    ghost within = { λ members. FitsClass members };

    ghost begins = { λ front. starts_with nat_eq front (codes "class") };

    ghost follows = { λ _. Unit {0} };

    fn is_next(front: &Front<'_>) -> bool {
        front.is_at(b"class")
    }

    fn read(
        alloc: Global,
        vars: &[VarInfo],
        front: &mut Front<'_>,
    ) -> Result<List<VarId>, NoMemory> {
        front.pass(b"class");
        let members = read_all(alloc, vars, front)?;
        front.pass(b"\n");
        Ok(members)
    }

    ghost first = { λ _ _ _ _. refl };

    ghost follow = { λ _ _ _ _. tt };
}

// A truth value for each byte, which is true of a `1`.
fn truths(alloc: Global, bits: &[u8]) -> Result<List<bool>, NoMemory>
    ensures { IfOk result (λ truths. truths ≡ map (λ b. b == 49) bits.now) }
{
    let mut truths = List::from_vec(Vec::with_capacity(alloc, bits.len())?);
    for bit in bits {
        truths.push(*bit == b'1')?;
    }
    Ok(truths)
}

// The truth values of a pattern, if any come.
fn present(alloc: Global, front: &mut Front<'_>) -> Result<List<bool>, NoMemory>
    ensures read { (present : List Bool) (rest : List ℕ) → front.old ≡ fields_text (if_any (bits_of present)) ++ 10 ∷ rest → IfOk result (λ own. (own ≡ present) × (front.new ≡ 10 ∷ rest)) }
    ensures shorter { length front.new ≤ length front.old }
{
    if !front.is_at(b" ") {
        return Ok(List::new(alloc));
    }
    truths(alloc, front.field())
}

impl Entry for Pattern {
    ghost text_of = { pattern_line };

    ghost fits = { λ _ pattern. FitsPattern pattern };

    ghost within = { λ pattern. FitsPattern pattern };

    ghost begins = { λ front. starts_with nat_eq front (codes "pattern ") };

    ghost follows = { λ _. Unit {0} };

    fn is_next(front: &Front<'_>) -> bool {
        front.is_at(b"pattern ")
    }

    fn read(alloc: Global, _vars: &[VarInfo], front: &mut Front<'_>) -> Result<Pattern, NoMemory> {
        front.pass(b"pattern");
        let count = front.natural();
        let present = present(alloc, front)?;
        front.pass(b"\n");
        Ok(Pattern { count, present })
    }

    ghost first = { λ _ _ _ _. refl };

    ghost follow = { λ _ _ _ _. tt };
}

// A value of the variable's kind.
fn value_of(
    alloc: Global,
    vars: &[VarInfo],
    v: VarId,
    front: &mut Front<'_>,
) -> Result<Value, NoMemory>
    ensures read { (x : Values) (rest : List ℕ) → v.0 < length vars.now → IsOfKind (kind_at (var_kinds vars.now) v.0) x → IsWritten x → BeginsWith ends_line rest → front.old ≡ behind_blank (spelling x) ++ rest → IfOk result (λ own. (own ≡ x) × (front.new ≡ rest)) }
    ensures shorter { length front.new ≤ length front.old }
{
    let place = v.0 as usize;
    if place < vars.len() {
        front.value(alloc, vars[place].kind)
    } else {
        front.give_up();
        Ok(Value::Missing)
    }
}

impl Entry for Known {
    ghost text_of = { known_line };

    ghost fits = { FitsKnown };

    ghost within = { λ _. Unit {0} };

    ghost begins = { λ front. starts_with nat_eq front (codes "known ") };

    ghost follows = { λ _. Unit {0} };

    fn is_next(front: &Front<'_>) -> bool {
        front.is_at(b"known ")
    }

    fn read(alloc: Global, vars: &[VarInfo], front: &mut Front<'_>) -> Result<Known, NoMemory> {
        front.pass(b"known");
        let leader = VarId(front.place());
        let value = value_of(alloc, vars, leader, front)?;
        front.pass(b"\n");
        Ok(Known { leader, value })
    }

    ghost first = { λ _ _ _ _. refl };

    ghost follow = { λ _ _ _ _. tt };
}

// These leaders, of which there are at most three.
fn tuple(vars: &[VarId], front: &mut Front<'_>) -> Tuple
    ensures read { length vars.now ≤ 3 → (result ≡ vars.now) × (front.new ≡ front.old) }
    ensures few { length result ≤ 3 }
    ensures within { All FitsPlace vars.now → All FitsPlace result }
    ensures shorter { length front.new ≤ length front.old }
{
    if vars.len() <= 3 {
        Tuple::of(vars)
    } else {
        front.give_up();
        Tuple::of(&[])
    }
}

// A number that no row has.
const NO_ROW: u8 = 0;

// The row's number.
fn row(front: &mut Front<'_>) -> RowId
    ensures read { (r : Row) (rest : List ℕ) → r.0 < 2 ^ 8 → BeginsWith ends_field rest → front.old ≡ behind_blank (decimal r.0) ++ rest → (result ≡ r) × (front.new ≡ rest) }
    ensures within { result.0 < 2 ^ 8 }
    ensures shorter { length front.new ≤ length front.old - 1 }
{
    let number = front.natural();
    if number < 256 {
        return RowId(number as u8);
    }
    front.give_up();
    RowId(NO_ROW)
}

impl Entry for Slot {
    ghost text_of = { slot_line };

    ghost fits = { λ _ slot. FitsSlot slot };

    ghost within = { λ slot. FitsSlot slot };

    ghost begins = { λ front. starts_with nat_eq front (codes "slot ") };

    ghost follows = { λ _. Unit {0} };

    fn is_next(front: &Front<'_>) -> bool {
        front.is_at(b"slot ")
    }

    fn read(alloc: Global, vars: &[VarInfo], front: &mut Front<'_>) -> Result<Slot, NoMemory> {
        front.pass(b"slot");
        let row = row(front);
        let leaders: List<VarId> = read_all(alloc, vars, front)?;
        let leaders = tuple(leaders.as_slice(), front);
        let state = state(alloc, front)?;
        front.pass(b"\n");
        Ok(Slot {
            row,
            leaders,
            state,
        })
    }

    ghost first = { λ _ _ _ _. refl };

    ghost follow = { λ _ _ _ _. tt };
}

/// What is kept of a point with these variables, behind the point's place on its `samples` line.
pub(crate) fn parts(
    alloc: Global,
    vars: &[VarInfo],
    front: &mut Front<'_>,
) -> Result<Parts, NoMemory>
    ensures read { (saved : AllParts) (rest : List ℕ) → FitsParts vars.now saved → front.old ≡ behind_blank (decimal saved.samples) ++ 10 ∷ (behind_samples saved ++ rest) → IfOk result (λ own. (own ≡ saved) × (front.new ≡ rest)) }
    ensures within { IfOk result (λ own. All FitsSlot own.slots) }
{
    let samples = front.natural();
    front.pass(b"\n");
    let classes = read_all(alloc, vars, front)?;
    let patterns = read_all(alloc, vars, front)?;
    let known = read_all(alloc, vars, front)?;
    let slots = read_all(alloc, vars, front)?;
    front.pass(b"end\n");
    Ok(Parts {
        samples,
        classes,
        patterns,
        known,
        slots,
    })
}

/// The place of the point whose samples come next, if any do.
pub(crate) fn next_point(front: &Front<'_>) -> Option<u32>
    ensures some { (p : ℕ) (rest : List ℕ) → p < 2 ^ 32 → BeginsWith ends_field rest → front.now ≡ codes "samples" ++ (behind_blank (decimal p) ++ rest) → result ≡ Some p }
    ensures none { starts_with nat_eq front.now (codes "samples ") ≡ false → result ≡ None }
{
    if !front.is_at(b"samples ") {
        return None;
    }
    let mut ahead = front.ahead();
    ahead.pass(b"samples");
    Some(ahead.place())
}
