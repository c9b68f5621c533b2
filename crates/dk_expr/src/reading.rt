// A text read as an assertion.
ghost use Rattle.std.specs.Prelude.{◌≡◌, ◌↔◌, ◌⊎◌, ◌<◌, ◌≤◌, ◌^◌, Contains, IfNone, IfOk, IfSome, IsSomeAnd, IsTrue, List, length};
ghost use Rattle.dk_base.specs.declared.kinds.VarId.{VarId};
ghost use Rattle.dk_engine.specs.Sweeps.Ordering.{precedes as is_before};
ghost use Rattle.dk_forms.specs.declared.states.State.{State};
ghost use Rattle.dk_instances.specs.Instances.{Precedes};
ghost use Rattle.dk_print.specs.Texts.{instance_text};
ghost use Rattle.dk_template.specs.Fitting.{fits};
ghost use Rattle.dk_template.specs.Proper.{IsProper};
ghost use Rattle.dk_template.specs.Templates.{IsRow, arity_of, form_of};
ghost use Rattle.dk_expr.specs.Finds.{IsFoundBy, IsNoLater, first_vars, is_some_code};
ghost use Rattle.dk_expr.specs.Held.{is_held};
ghost use Rattle.dk_expr.specs.Naming.{AreUnderNames};
ghost use Rattle.dk_expr.specs.Reads.{HasNone, HasText, IsRead, told_state};
ghost use Rattle.dk_expr.specs.declared.assertions.Assertion.{Assertion};
ghost use Rattle.dk_expr.specs.declared.found.Parsed.{Parsed};

use crate::Assertion;
use crate::found::Parsed;
use crate::names::VarNames;
use crate::states::state_of;
use crate::walking::behind_all;
use dk_base::{List, NoMemory, VarId, VarInfo};
use dk_filters::is_asked;
use dk_print::{instance, parts_of};
use dk_template::{RowId, State, Takes, Tuple, fits, proper, rows, template_at};
use std::alloc::Global;

// Whether the first tuple precedes the other: at the first place at which they differ it has the earlier variable.
fn precedes(vars: &[VarId], others: &[VarId]) -> bool
    ensures { result ≡ is_before vars.now others.now }
{
    match vars {
        [] => false,
        [v, rest @ ..] => match others {
            [] => false,
            [w, others @ ..] => v.0 < w.0 || v.0 == w.0 && precedes(rest, others),
        },
    }
}

// Whether the state is proper for the row and fits.
fn is_told(row: RowId, state: &State) -> bool
    requires { IsRow row }
    ensures { IsTrue result ↔ (IsProper (form_of row) state.now × IsTrue (fits state.now)) }
{
    proper(row, state) && fits(state)
}

// Whether the instance prints this text with this state.
fn prints(
    alloc: Global,
    infos: &[VarInfo],
    text: &[u8],
    row: RowId,
    vars: &[VarId],
    state: &State,
) -> Result<bool, NoMemory>
    ensures { IfOk result (λ same. IsTrue same ↔ (instance_text infos.now row vars.now state.now ≡ text.now)) }
{
    let printed = instance(alloc, row, infos, vars, state)?;
    Ok(printed.as_slice() == text)
}

// The variables that were found, as many as the row takes.
fn vars_of(row: RowId, found: Parsed) -> Tuple
    requires { IsRow row }
    ensures { result ≡ first_vars (arity_of row) found }
{
    match template_at(row).takes {
        Takes::One(_) => Tuple::of(&[found.first]),
        Takes::Two(_, _) => Tuple::of(&[found.first, found.second]),
        Takes::Three(_, _, _) => Tuple::of(&[found.first, found.second, found.third]),
    }
}

// The assertion, if it is of an instance and has the text.
fn if_it_has(
    alloc: Global,
    infos: &[VarInfo],
    text: &[u8],
    assertion: Assertion,
) -> Result<Option<Assertion>, NoMemory>
    requires row { IsRow assertion.row }
    requires held { IsTrue (is_held assertion.state) }
    ensures has { IfOk result (λ read. IfSome read (λ a. (a ≡ assertion) × HasText infos.now text.now a.row a.vars a.state)) }
    ensures some { IfOk result (λ read. HasText infos.now text.now assertion.row assertion.vars assertion.state → read ≡ Some assertion) }
{
    let vars = assertion.vars.as_slice();
    if !is_asked(assertion.row, infos, vars) || !is_told(assertion.row, &assertion.state) {
        return Ok(None);
    }
    if prints(alloc, infos, text, assertion.row, vars, &assertion.state)? {
        Ok(Some(assertion))
    } else {
        Ok(None)
    }
}

// The assertion of what was found, if it has the text.
fn candidate(
    alloc: Global,
    infos: &[VarInfo],
    text: &[u8],
    row: RowId,
    found: Parsed,
) -> Result<Option<Assertion>, NoMemory>
    requires { IsRow row }
    ensures has { IfOk result (λ read. IfSome read (λ a. (a.row ≡ row) × HasText infos.now text.now row a.vars a.state)) }
    ensures some { IfOk result (λ read. (vars : List VarId) (s : State) → HasText infos.now text.now row vars s → IsFoundBy text.now row vars s found → IsSomeAnd read (λ a. a.vars ≡ vars)) }
{
    match state_of(alloc, template_at(row).form, text, found)? {
        None => Ok(None),
        Some(state) => {
            let vars = vars_of(row, found);
            if_it_has(alloc, infos, text, Assertion { row, vars, state })
        }
    }
}

// The one whose variables precede.
fn lesser(a: Option<Assertion>, b: Option<Assertion>) -> Option<Assertion>
    ensures choice { (result ≡ a) ⊎ (result ≡ b) }
    ensures first { (vars : List VarId) → IsNoLater a vars → IsNoLater result vars }
    ensures second { IfSome b (λ x. IsNoLater result x.vars) }
{
    match a {
        None => b,
        Some(a) => match b {
            None => Some(a),
            Some(b) => {
                if precedes(b.vars.as_slice(), a.vars.as_slice()) {
                    Some(b)
                } else {
                    Some(a)
                }
            }
        },
    }
}

// The least of the assertions of what was found that have the text.
fn least_among(
    alloc: Global,
    infos: &[VarInfo],
    text: &[u8],
    row: RowId,
    ends: &[Parsed],
) -> Result<Option<Assertion>, NoMemory>
    requires { IsRow row }
    ensures has { IfOk result (λ read. IfSome read (λ a. (a.row ≡ row) × HasText infos.now text.now row a.vars a.state)) }
    ensures least { IfOk result (λ read. (vars : List VarId) (s : State) (found : Parsed) → HasText infos.now text.now row vars s → Contains ends.now found → IsFoundBy text.now row vars s found → IsNoLater read vars) }
{
    let mut least = None;
    for found in ends {
        let next = candidate(alloc, infos, text, row, *found)?;
        least = lesser(least, next);
    }
    Ok(least)
}

// The first instance of a row that has the text, with a state.
fn first_of(
    alloc: Global,
    infos: &[VarInfo],
    names: &VarNames,
    text: &[u8],
    row: RowId,
) -> Result<Option<Assertion>, NoMemory>
    requires row { IsRow row }
    requires names { AreUnderNames infos.now names.now }
    ensures has { IfOk result (λ read. IfSome read (λ a. (a.row ≡ row) × HasText infos.now text.now row a.vars a.state)) }
    ensures least { IfOk result (λ read. (vars : List VarId) (s : State) → HasText infos.now text.now row vars s → IsNoLater read vars) }
{
    let mut start = List::new(alloc);
    start.push(Parsed::start())?;
    let ends = behind_all(alloc, names, text, parts_of(row), start)?;
    least_among(alloc, infos, text, row, ends.as_slice())
}

// Whether the state is a hash code that isn't null.
fn is_some_code(state: &State) -> bool
    ensures { result ≡ is_some_code state.now }
{
    match state {
        State::Code(code) => *code != 0,
        _ => false,
    }
}

// The assertion, its state Empty where the text doesn't tell the hash code.
fn as_told(assertion: Assertion) -> Assertion
    ensures row { result.row ≡ assertion.row }
    ensures vars { result.vars ≡ assertion.vars }
    ensures state { result.state ≡ told_state assertion.state }
{
    let Assertion { row, vars, state } = assertion;
    let state = if is_some_code(&state) {
        State::Empty
    } else {
        state
    };
    Assertion { row, vars, state }
}

/// What `read` reads, of a point's variables that are listed under their names, so that this is done once for many texts.
pub fn read_by(
    alloc: Global,
    vars: &[VarInfo],
    names: &VarNames,
    text: &[u8],
) -> Result<Option<Assertion>, NoMemory>
    requires { AreUnderNames vars.now names.now }
    ensures read { IfOk result (λ read. IfSome read (λ a. IsRead vars.now text.now a)) }
    ensures none { IfOk result (λ read. IfNone read (HasNone vars.now text.now)) }
{
    for row in rows::ONE_OF_INT..=rows::PAIR_OFFSET {
        if let Some(first) = first_of(alloc, vars, names, text, RowId(row))? {
            return Ok(Some(as_told(first)));
        }
    }
    Ok(None)
}

/// What a line of a report asserts, its count taken off: the first instance, in their order, that has the text with a state that is
/// proper for its row and fits, and that state. Of the text that there is only one hash code, which isn't null, the state is Empty. None
/// exactly where no instance of the second grammar has the text. There must be fewer than 2^32 variables.
pub fn read(alloc: Global, vars: &[VarInfo], text: &[u8]) -> Result<Option<Assertion>, NoMemory>
    requires { length vars.now < 2 ^ 32 }
    ensures read { IfOk result (λ read. IfSome read (λ a. IsRead vars.now text.now a)) }
    ensures none { IfOk result (λ read. IfNone read (HasNone vars.now text.now)) }
{
    let names = VarNames::of(alloc, vars)?;
    read_by(alloc, vars, &names, text)
}
