// The rows that keep the elements of a sequence, where they are few.
ghost use Rattle.std.specs.Prelude.{◌≡◌, ◌↔◌, [], ◌∷◌, IfOk, IsTrue, OnErr};
ghost use Rattle.dk_base.specs.Values.{values_of};
ghost use Rattle.dk_base.specs.Values.Tuples.{value_at};
ghost use Rattle.dk_sequence.specs.Elements.{one_of_kind, one_of_row, one_of_state};
ghost use Rattle.dk_template.specs.Joins.{joined};
ghost use Rattle.dk_template.specs.Proper.{IsProper};
ghost use Rattle.dk_template.specs.Rows.{IsTuple};
ghost use Rattle.dk_template.specs.Templates.{form_of};

use crate::elements::rows::join;
use dk_base::{NoMemory, View, bools_at, hashes_at, ints_at, texts_at};
use dk_forms::{
    code_all_stay, code_point, ints_all_stay, ints_point, texts_all_stay, texts_point,
    truth_all_stay, truth_point,
};
use dk_template::{Row, RowId, State, rows};
use std::alloc::Global;

/// The elements of a sequence: at most three numbers or strings, one truth value, or one hash code. A sequence without elements gives
/// no value.
#[derive(Clone, Copy, Debug, PartialEq, Eq)]
pub enum OneOf {
    Int,
    Bool,
    Hash,
    Str,
}

impl OneOf {
    /// The number of the row.
    pub fn row(self) -> RowId
        ensures { result ≡ one_of_row self }
    {
        RowId(match self {
            OneOf::Int => rows::ELT_ONE_OF_INT,
            OneOf::Bool => rows::ELT_ONE_OF_BOOL,
            OneOf::Hash => rows::ELT_ONE_OF_HASH,
            OneOf::Str => rows::ELT_ONE_OF_STR,
        })
    }
}

// The state of the elements. Only strings want memory.
fn state_of_elements(of: OneOf, alloc: Global, tuple: &[View<'_>]) -> Result<State, NoMemory>
    requires { IsTuple (one_of_kind of ∷ []) (values_of tuple.now) }
    ensures state { IfOk result (λ state. state ≡ one_of_state of (value_at (values_of tuple.now) 0)) }
    ensures err { OnErr result (of ≡ OneOf.Str) }
{
    match of {
        OneOf::Int => Ok(ints_point(alloc, ints_at(tuple, 0))),
        OneOf::Bool => Ok(truth_point(bools_at(tuple, 0))),
        OneOf::Hash => Ok(code_point(hashes_at(tuple, 0))),
        OneOf::Str => texts_point(alloc, texts_at(tuple, 0)),
    }
}

// Whether the elements leave the state as it is.
#[tactic(auto, unfolding(dk_template::specs::Templates::rows))]
fn elements_stay(of: OneOf, state: &State, tuple: &[View<'_>]) -> bool
    requires state { IsProper (form_of (one_of_row of)) state.now }
    requires tuple { IsTuple (one_of_kind of ∷ []) (values_of tuple.now) }
    ensures { IsTrue result ↔ (joined (form_of (one_of_row of)) state.now (one_of_state of (value_at (values_of tuple.now) 0)) ≡ state.now) }
{
    match of {
        OneOf::Int => ints_all_stay(state, ints_at(tuple, 0)),
        OneOf::Bool => truth_all_stay(state, bools_at(tuple, 0)),
        OneOf::Hash => code_all_stay(state, hashes_at(tuple, 0)),
        OneOf::Str => texts_all_stay(state, texts_at(tuple, 0)),
    }
}

impl Row for OneOf {
    ghost use Rattle.dk_sequence.specs.Elements.{one_of_is_row, one_of_row};
    ghost use Rattle.dk_meanings.proofs.RowLaws.{laws_by};
    ghost use Rattle.dk_meanings.specs.Meanings.{state_of};
    ghost use Rattle.dk_template.specs.Templates.{form_of, role_kinds};

    ghost kinds = { λ row. role_kinds (one_of_row row) };

    ghost form = { λ row. form_of (one_of_row row) };

    ghost state_of = { λ row. state_of (one_of_row row) };

    ghost laws = { λ row. laws_by (one_of_row row) (one_of_is_row row) };

    fn point(&self, alloc: Global, tuple: &[View<'_>]) -> Result<State, NoMemory> {
        state_of_elements(*self, alloc, tuple)
    }

    fn join(&self, alloc: Global, a: State, b: &State) -> Result<State, NoMemory> {
        join(alloc, self.row(), a, b)
    }

    fn stays(&self, state: &State, tuple: &[View<'_>]) -> bool {
        elements_stay(*self, state, tuple)
    }
}
