// The rows that state the result of an operation.
ghost use Rattle.std.specs.Prelude.{◌≡◌, ◌∷◌, [], IfSome};
ghost use Rattle.dk_base.specs.Values.{values_of};
ghost use Rattle.dk_base.specs.Values.Tuples.{int_of, value_at};
ghost use Rattle.dk_base.specs.declared.kinds.Kind.TheVariants as kind;
ghost use Rattle.dk_template.specs.Rows.{IsTuple};
ghost use Rattle.dk_ternary.specs.Rows.{is_result, operation_row};

use crate::exact::{is_difference, is_gcd, is_product, is_quotient, is_remainder, is_sum};
use crate::rows::join;
use dk_base::{NoMemory, View, int_at};
use dk_forms::{plain_point, plain_stays};
use dk_template::{Row, RowId, State, rows};
use std::alloc::Global;

/// An operation on two numbers x and y, of which z is the result.
#[derive(Clone, Copy, Debug, PartialEq, Eq)]
pub enum Operation {
    /// x + y
    Sum,
    /// x - y
    Difference,
    /// x * y
    Product,
    /// the smaller of x and y
    Minimum,
    /// the greater of x and y
    Maximum,
    /// x / y cut towards 0, where y isn't 0
    Quotient,
    /// what x is more than y times that quotient
    Remainder,
    /// bitwise and of two's complements of 64 bits
    And,
    /// bitwise or
    Or,
    /// bitwise exclusive or
    Xor,
    /// the greatest common divisor, which is at least 0; of 0 and 0 it is 0
    Gcd,
}

impl Operation {
    /// The number of the row.
    pub fn row(self) -> RowId
        ensures { result ≡ operation_row self }
    {
        RowId(match self {
            Operation::Sum => rows::SUM,
            Operation::Difference => rows::DIFFERENCE,
            Operation::Product => rows::PRODUCT,
            Operation::Minimum => rows::MINIMUM,
            Operation::Maximum => rows::MAXIMUM,
            Operation::Quotient => rows::QUOTIENT,
            Operation::Remainder => rows::REMAINDER,
            Operation::And => rows::AND,
            Operation::Or => rows::OR,
            Operation::Xor => rows::XOR,
            Operation::Gcd => rows::GCD,
        })
    }

    /// The operation of which a row states the result, if it states one.
    pub fn of(row: RowId) -> Option<Operation>
        ensures { IfSome result (λ operation. operation_row operation ≡ row) }
    {
        match row.0 {
            rows::SUM => Some(Operation::Sum),
            rows::DIFFERENCE => Some(Operation::Difference),
            rows::PRODUCT => Some(Operation::Product),
            rows::MINIMUM => Some(Operation::Minimum),
            rows::MAXIMUM => Some(Operation::Maximum),
            rows::QUOTIENT => Some(Operation::Quotient),
            rows::REMAINDER => Some(Operation::Remainder),
            rows::AND => Some(Operation::And),
            rows::OR => Some(Operation::Or),
            rows::XOR => Some(Operation::Xor),
            rows::GCD => Some(Operation::Gcd),
            _ => None,
        }
    }

    /// Whether z is the result of the operation on x and y.
    pub fn is_result(self, z: i64, x: i64, y: i64) -> bool
        ensures { result ≡ is_result self z x y }
    {
        match self {
            Operation::Sum => is_sum(z, x, y),
            Operation::Difference => is_difference(z, x, y),
            Operation::Product => is_product(z, x, y),
            Operation::Minimum => z == x.min(y),
            Operation::Maximum => z == x.max(y),
            Operation::Quotient => is_quotient(z, x, y),
            Operation::Remainder => is_remainder(z, x, y),
            Operation::And => z == x & y,
            Operation::Or => z == x | y,
            Operation::Xor => z == x ^ y,
            Operation::Gcd => is_gcd(z, x, y),
        }
    }
}

// Whether the first number of the tuple is the result on the two others.
fn holds(operation: Operation, tuple: &[View<'_>]) -> bool
    requires { IsTuple (kind.Int ∷ kind.Int ∷ kind.Int ∷ []) (values_of tuple.now) }
    ensures { result ≡ is_result operation (int_of (value_at (values_of tuple.now) 0)) (int_of (value_at (values_of tuple.now) 1)) (int_of (value_at (values_of tuple.now) 2)) }
{
    operation.is_result(int_at(tuple, 0), int_at(tuple, 1), int_at(tuple, 2))
}

impl Row for Operation {
    ghost use Rattle.dk_meanings.proofs.RowLaws.{laws_by};
    ghost use Rattle.dk_meanings.specs.Meanings.{state_of};
    ghost use Rattle.dk_template.specs.Templates.{form_of, role_kinds};
    ghost use Rattle.dk_ternary.specs.Rows.{operation_is_row, operation_row};

    ghost kinds = { λ row. role_kinds (operation_row row) };

    ghost form = { λ row. form_of (operation_row row) };

    ghost state_of = { λ row. state_of (operation_row row) };

    ghost laws = { λ row. laws_by (operation_row row) (operation_is_row row) };

    fn point(&self, _alloc: Global, tuple: &[View<'_>]) -> Result<State, NoMemory> {
        Ok(plain_point(holds(*self, tuple)))
    }

    fn join(&self, alloc: Global, a: State, b: &State) -> Result<State, NoMemory> {
        join(alloc, self.row(), a, b)
    }

    fn stays(&self, state: &State, tuple: &[View<'_>]) -> bool {
        plain_stays(state, holds(*self, tuple))
    }
}
