// The row that keeps a modulus.
ghost use Rattle.std.specs.Prelude.{◌≡◌};
ghost use Rattle.dk_unary.specs.Rows.{modulus_row};

use crate::rows::join;
use dk_base::{NoMemory, View, int_at};
use dk_forms::{modulus_point, modulus_stays};
use dk_template::{Row, RowId, State, rows};
use std::alloc::Global;

/// The remainder that all values of a number leave by a modulus as great as can be.
#[derive(Clone, Copy, Debug, PartialEq, Eq)]
pub struct Modulus;

impl Modulus {
    /// The number of the row.
    pub fn row(self) -> RowId
        ensures { result ≡ modulus_row }
    {
        RowId(rows::MODULUS)
    }
}

impl Row for Modulus {
    ghost use Rattle.dk_meanings.proofs.RowLaws.{laws_by};
    ghost use Rattle.dk_meanings.specs.Meanings.{state_of};
    ghost use Rattle.dk_template.specs.Templates.{form_of, role_kinds};
    ghost use Rattle.dk_unary.specs.Rows.{modulus_is_row, modulus_row};

    ghost kinds = { λ row. role_kinds modulus_row };

    ghost form = { λ row. form_of modulus_row };

    ghost state_of = { λ row. state_of modulus_row };

    ghost laws = { λ row. laws_by modulus_row modulus_is_row };

    fn point(&self, _alloc: Global, tuple: &[View<'_>]) -> Result<State, NoMemory> {
        Ok(modulus_point(int_at(tuple, 0)))
    }

    fn join(&self, alloc: Global, a: State, b: &State) -> Result<State, NoMemory> {
        join(alloc, self.row(), a, b)
    }

    fn stays(&self, state: &State, tuple: &[View<'_>]) -> bool {
        modulus_stays(state, int_at(tuple, 0))
    }
}
