// The lines of a record that give its values.
ghost use Rattle.std.specs.Prelude.{◌≡◌, ◌++◌, ◌∷◌, ◌+◌, ◌<◌, [], IfOk, IfSome, OnOk, ℕ, List, Option, length, drop, slice_get};
ghost use Rattle.std.specs.Str.{bytes_eq};
ghost use Rattle.dk_base.specs.Names.{unescaped};
ghost use Rattle.dk_base.specs.Reading.{Line};
ghost use Rattle.dk_base.specs.Values.{values_of as shown_by};
ghost use Rattle.dk_decl.specs.Outcomes.{AnswerAgrees, ReaderGoesOn};
ghost use Rattle.dk_decl.specs.declared.decls.VarDecl.{VarDecl as Declared};
ghost use Rattle.dk_trace.specs.Answers.{Shows, shown_value};
ghost use Rattle.dk_trace.specs.Values.{IsTold, from_value, known_values, named_kind, record_values, then_values};

use crate::marks::{Unmarked, refuse};
use bumpalo::collections::into_bump_slice;
use dk_base::{Arena, BlockFault, Kind, NoMemory, Text, Value, View, Why, is_spelling};
use dk_decl::VarDecl;
use std::mem::replace;

/// What the next line is.
#[derive(Clone, Copy)]
pub(crate) enum ValueLine<'a> {
    /// A variable's name.
    AtName,
    /// The value of a variable of this kind.
    AtValue(Option<Kind>),
    /// The mark of a value whose text says this.
    AtMark(Unmarked<'a>),
}

/// The values of a record that is being read, line by line.
#[derive(Drop)]
pub(crate) struct ValueReader<'a> {
    pub(crate) arena: &'a Arena,
    pub(crate) place: ValueLine<'a>,
    /// The variables in front of this place were read.
    pub(crate) index: usize,
    pub(crate) values: Vec<View<'a>, &'a Arena>,
}

fn is_named(bytes: &[u8], name: &Text) -> bool
    ensures { result ≡ bytes_eq (unescaped bytes.now) name.now }
{
    is_spelling(bytes, name.as_slice())
}

// The values and the one that is shown, if there is one.
pub(crate) fn push_shown<'a>(
    values: &mut Vec<View<'a>, &'a Arena>,
    value: Option<View<'a>>,
) -> Result<(), NoMemory>
    ensures { OnOk result (shown_by values.new.items ≡ shown_by values.old.items ++ shown_value value.entry) }
{
    if let Some(value) = value {
        values.push(value)?;
    }
    Ok(())
}

// The values and a constant behind them, placed in the arena.
pub(crate) fn push_constant<'a>(
    arena: &'a Arena,
    values: &mut Vec<View<'a>, &'a Arena>,
    constant: &Option<Value>,
) -> Result<(), NoMemory>
    ensures { OnOk result (shown_by values.new.items ≡ shown_by values.old.items ++ known_values constant.now) }
{
    if let Some(constant) = constant {
        values.push(constant.place(arena)?)?;
    }
    Ok(())
}

// The place of the first variable without a constant, from this place on; the values get the constants in front of it.
fn past_constants<'a>(
    arena: &'a Arena,
    vars: &[VarDecl],
    from: usize,
    values: &mut Vec<View<'a>, &'a Arena>,
) -> Result<usize, NoMemory>
    ensures same { IfOk result (λ i. (ls : List Line) (close : Option ℕ) → then_values (shown_by values.old.items) (record_values (drop from vars.now) ls close)
        ≡ then_values (shown_by values.new.items) (record_values (drop i vars.now) ls close)) }
    ensures in_records { IfOk result (λ i. IfSome (slice_get vars.now i) IsTold) }
{
    let mut index = from;
    'constants: while let Some(var) = vars.get(index) {
        if !var.constant_line {
            return Ok(index);
        }
        push_constant(arena, values, &var.constant)?;
        index += 1;
    }
    Ok(index)
}

// The kind of the variable, whose name the line is to be.
#[tactic(auto, unfolding(crate::specs::Values::named_kind))]
fn named_kind(var: &VarDecl, line: u64, bytes: &[u8]) -> Result<Option<Kind>, BlockFault>
    ensures { AnswerAgrees result (named_kind var.now (record { number = line; bytes = bytes.now })) }
{
    if is_named(bytes, &var.name) {
        Ok(var.kind)
    } else {
        Err(refuse(line, Why::WrongName))
    }
}

// The kind of the variable at this place, if there is one, whose name the line is to be.
#[tactic(auto, using(crate::proofs::Left::too_many))]
fn kind_at(
    vars: &[VarDecl],
    index: usize,
    line: u64,
    bytes: &[u8],
) -> Result<Option<Kind>, BlockFault>
    requires { IfSome (slice_get vars.now index) IsTold }
    ensures goes_on { ReaderGoesOn (λ kind. from_value kind (record_values (drop (index + 1) vars.now))) result (λ ls. record_values (drop index vars.now) (record { number = line; bytes = bytes.now } ∷ ls)) }
    ensures within { OnOk result (index < length vars.now) }
{
    match vars.get(index) {
        None => Err(refuse(line, Why::ExtraLine)),
        Some(var) => named_kind(var, line, bytes),
    }
}

// The values, with the constants that are left, if no other variable is.
#[tactic(auto, using(crate::proofs::Left::none_left))]
fn finish_values<'a>(
    arena: &'a Arena,
    vars: &[VarDecl],
    index: usize,
    values: &mut Vec<View<'a>, &'a Arena>,
    line: u64,
) -> Result<&'a [View<'a>], BlockFault>
    ensures { Shows (λ views. shown_by views.now) result (then_values (shown_by values.old.items) (record_values (drop index vars.now) [] (Some line))) }
{
    let index = past_constants(arena, vars, index, values)?;
    match vars.get(index) {
        None => Ok(into_bump_slice(replace(values, Vec::new(arena)))),
        Some(_) => Err(refuse(line, Why::Truncated)),
    }
}

impl<'a> ValueReader<'a> {
    ghost use Rattle.dk_trace.specs.ValuesResumed.{values_resumed};
    ghost use Rattle.dk_trace.specs.declared.values.ValueLine.TheVariants.{AtName, AtValue, AtMark};

    /// No line was read.
    #[tactic(auto, unfolding(crate::specs::ValuesResumed::values_resumed), using(crate::proofs::Joined::then_values_nil))]
    pub(crate) fn begin(arena: &'a Arena) -> ValueReader<'a>
        ensures { (vs : List Declared) (ls : List Line) (close : Option ℕ) → record_values vs ls close ≡ values_resumed vs result ls close }
    {
        ValueReader {
            arena,
            place: ValueLine::AtName,
            index: 0,
            values: Vec::new(arena),
        }
    }

    // A variable's name, or a line too many.
    #[tactic(auto, unfolding(crate::specs::ValuesResumed::values_resumed))]
    fn name_line(&mut self, vars: &[VarDecl], line: u64, bytes: &[u8]) -> Result<(), BlockFault>
        requires { self.old.place ≡ AtName }
        ensures { ReaderGoesOn (λ _. values_resumed vars.now self.new) result (λ ls. values_resumed vars.now self.old (record { number = line; bytes = bytes.now } ∷ ls)) }
    {
        let index = past_constants(self.arena, vars, self.index, &mut self.values)?;
        let kind = kind_at(vars, index, line, bytes)?;
        self.place = ValueLine::AtValue(kind);
        self.index = index + 1;
        Ok(())
    }

    // The value of a variable of this kind.
    #[tactic(auto, using(crate::proofs::Marked::same_marked), unfolding(crate::specs::ValuesResumed::values_resumed))]
    fn value_line(&mut self, kind: Option<Kind>, line: u64, bytes: &[u8]) -> Result<(), BlockFault>
        requires { self.old.place ≡ AtValue kind }
        ensures { (vs : List Declared) → ReaderGoesOn (λ _. values_resumed vs self.new) result (λ ls. values_resumed vs self.old (record { number = line; bytes = bytes.now } ∷ ls)) }
    {
        let unmarked = Unmarked::read(self.arena, kind, line, bytes)?;
        self.place = ValueLine::AtMark(unmarked);
        Ok(())
    }

    // The mark of a value.
    #[tactic(auto, unfolding(crate::specs::ValuesResumed::values_resumed))]
    fn mark_line(
        &mut self,
        unmarked: Unmarked<'a>,
        line: u64,
        bytes: &[u8],
    ) -> Result<(), BlockFault>
        requires { self.old.place ≡ AtMark unmarked }
        ensures { (vs : List Declared) → ReaderGoesOn (λ _. values_resumed vs self.new) result (λ ls. values_resumed vs self.old (record { number = line; bytes = bytes.now } ∷ ls)) }
    {
        let value = unmarked.with_mark(line, bytes)?;
        push_shown(&mut self.values, value)?;
        self.place = ValueLine::AtName;
        Ok(())
    }

    /// One line more. After a fault nothing is said of the reader.
    #[tactic(auto, unfolding(crate::specs::ValuesResumed::values_resumed))]
    pub(crate) fn line(
        &mut self,
        vars: &[VarDecl],
        line: u64,
        bytes: &[u8],
    ) -> Result<(), BlockFault>
        ensures { ReaderGoesOn (λ _. values_resumed vars.now self.new) result (λ ls. values_resumed vars.now self.old (record { number = line; bytes = bytes.now } ∷ ls)) }
    {
        match self.place {
            ValueLine::AtName => self.name_line(vars, line, bytes),
            ValueLine::AtValue(kind) => self.value_line(kind, line, bytes),
            ValueLine::AtMark(unmarked) => self.mark_line(unmarked, line, bytes),
        }
    }

    /// The values of a record that ends at this line. Nothing is said of the reader behind it.
    #[tactic(auto, unfolding(crate::specs::ValuesResumed::values_resumed))]
    pub(crate) fn end(&mut self, vars: &[VarDecl], line: u64) -> Result<&'a [View<'a>], BlockFault>
        ensures { Shows (λ views. shown_by views.now) result (values_resumed vars.now self.old [] (Some line)) }
    {
        match self.place {
            ValueLine::AtName => finish_values(
                self.arena,
                vars,
                self.index,
                &mut self.values,
                line,
            ),
            ValueLine::AtValue(_) => Err(refuse(line, Why::Truncated)),
            ValueLine::AtMark(_) => Err(refuse(line, Why::Truncated)),
        }
    }
}
