// The rows that keep the values of a variable, where they are few.
ghost use Rattle.std.specs.Prelude.{◌≡◌, ◌↔◌, [], ◌∷◌, IfOk, IsTrue, OnErr};
ghost use Rattle.dk_base.specs.Values.{values_of};
ghost use Rattle.dk_meanings.specs.Meanings.{state_of};
ghost use Rattle.dk_template.specs.Joins.{joined};
ghost use Rattle.dk_template.specs.Proper.{IsProper};
ghost use Rattle.dk_template.specs.Rows.{IsTuple};
ghost use Rattle.dk_template.specs.Templates.{form_of, role_kinds};
ghost use Rattle.dk_unary.specs.Rows.{one_of_row};

use crate::rows::join;
use dk_base::{NoMemory, View, bool_at, hash_at, int_at, text_at};
use dk_forms::{code_stays, ints_stays, text_point, text_stays, truth_stays};
use dk_template::{Few, Row, RowId, State, rows};
use std::alloc::Global;

/// The values of a variable: at most three numbers or strings, one truth value, or one hash code.
#[derive(Clone, Copy, Debug, PartialEq, Eq)]
pub enum OneOf {
    Int,
    Bool,
    Hash,
    Str,
}

impl OneOf {
    /// The number of the row.
    pub fn row(self) -> RowId
        ensures { result ≡ one_of_row self }
    {
        RowId(match self {
            OneOf::Int => rows::ONE_OF_INT,
            OneOf::Bool => rows::ONE_OF_BOOL,
            OneOf::Hash => rows::ONE_OF_HASH,
            OneOf::Str => rows::ONE_OF_STR,
        })
    }
}

// The state of one number.
fn only_int(alloc: Global, x: i64) -> State
    ensures { result ≡ State.Ints (x ∷ []) }
{
    State::Ints(Few::of(alloc, &[x]))
}

// The state of one value.
fn state_of_one(of: OneOf, alloc: Global, tuple: &[View<'_>]) -> Result<State, NoMemory>
    requires { IsTuple (role_kinds (one_of_row of)) (values_of tuple.now) }
    ensures state { IfOk result (λ state. state ≡ state_of (one_of_row of) (values_of tuple.now ∷ [])) }
    ensures err { OnErr result (of ≡ OneOf.Str) }
{
    match of {
        OneOf::Int => Ok(only_int(alloc, int_at(tuple, 0))),
        OneOf::Bool => Ok(State::Truth(bool_at(tuple, 0))),
        OneOf::Hash => Ok(State::Code(hash_at(tuple, 0))),
        OneOf::Str => text_point(alloc, text_at(tuple, 0)),
    }
}

// Whether one value leaves the state as it is.
fn one_stays(of: OneOf, state: &State, tuple: &[View<'_>]) -> bool
    requires state { IsProper (form_of (one_of_row of)) state.now }
    requires tuple { IsTuple (role_kinds (one_of_row of)) (values_of tuple.now) }
    ensures { IsTrue result ↔ (joined (form_of (one_of_row of)) state.now (state_of (one_of_row of) (values_of tuple.now ∷ [])) ≡ state.now) }
{
    match of {
        OneOf::Int => ints_stays(state, int_at(tuple, 0)),
        OneOf::Bool => truth_stays(state, bool_at(tuple, 0)),
        OneOf::Hash => code_stays(state, hash_at(tuple, 0)),
        OneOf::Str => text_stays(state, text_at(tuple, 0)),
    }
}

impl Row for OneOf {
    ghost use Rattle.dk_meanings.proofs.RowLaws.{laws_by};
    ghost use Rattle.dk_meanings.specs.Meanings.{state_of};
    ghost use Rattle.dk_template.specs.Templates.{form_of, role_kinds};
    ghost use Rattle.dk_unary.specs.Rows.{one_of_is_row, one_of_row};

    ghost kinds = { λ row. role_kinds (one_of_row row) };

    ghost form = { λ row. form_of (one_of_row row) };

    ghost state_of = { λ row. state_of (one_of_row row) };

    ghost laws = { λ row. laws_by (one_of_row row) (one_of_is_row row) };

    fn point(&self, alloc: Global, tuple: &[View<'_>]) -> Result<State, NoMemory> {
        state_of_one(*self, alloc, tuple)
    }

    fn join(&self, alloc: Global, a: State, b: &State) -> Result<State, NoMemory> {
        join(alloc, self.row(), a, b)
    }

    fn stays(&self, state: &State, tuple: &[View<'_>]) -> bool {
        one_stays(*self, state, tuple)
    }
}
