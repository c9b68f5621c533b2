// Whether an instance follows from others that hold.
ghost use Rattle.std.specs.Prelude.{◌≡◌, IfOk, IsTrue, OnErr};
ghost use Rattle.dk_filters.specs.Facts.{has_sharper, is_equality, is_implied, is_one_of, is_sum_plane, sharper_than, sum_of};
ghost use Rattle.dk_filters.specs.Parents.{answers_by};
ghost use Rattle.dk_template.specs.Admitted.{admits};
ghost use Rattle.dk_template.specs.Premises.{IsUsable, premise_fits};
ghost use Rattle.dk_template.specs.Templates.{IsRowOf};
ghost use Rattle.dk_filters.specs.Memory.{MayWantMemoryWhenJudged};

use dk_base::{NoMemory, VarId};
use dk_suppress::suppressed;
use dk_template::{Answers, Premise, RowId, fits, rows};

// Whether the row is one of these.
fn is_one_of(numbers: &[u8], row: RowId) -> bool
    ensures { result ≡ is_one_of numbers.now row }
{
    numbers.iter().any(|n| row.0 == *n)
}

/// Whether the row says that two variables are the same.
pub fn is_equality(row: RowId) -> bool
    ensures { result ≡ is_equality row }
{
    is_one_of(
        &[
            rows::EQ_INT,
            rows::EQ_BOOL,
            rows::EQ_HASH,
            rows::EQ_STR,
            rows::EQ_INT_SEQ,
            rows::EQ_BOOL_SEQ,
            rows::EQ_HASH_SEQ,
            rows::EQ_STR_SEQ,
        ],
        row,
    )
}

// The row that says more than this one over the same variables.
fn sharper_than(row: RowId) -> Option<RowId>
    ensures { result ≡ sharper_than row }
{
    if is_one_of(
        &[
            rows::LOWER_BOUND,
            rows::UPPER_BOUND,
            rows::NON_ZERO,
            rows::MODULUS,
        ],
        row,
    ) {
        Some(RowId(rows::ONE_OF_INT))
    } else if is_one_of(&[rows::NON_NULL_HASH], row) {
        Some(RowId(rows::ONE_OF_HASH))
    } else if is_one_of(&[rows::NON_NULL_STR], row) {
        Some(RowId(rows::ONE_OF_STR))
    } else if is_one_of(&[rows::LINEAR], row) {
        Some(RowId(rows::EQ_INT))
    } else if is_one_of(&[rows::ELT_LOWER, rows::ELT_UPPER, rows::ELT_NON_ZERO], row) {
        Some(RowId(rows::ELT_ONE_OF_INT))
    } else if is_one_of(&[rows::ELT_NON_NULL_HASH], row) {
        Some(RowId(rows::ELT_ONE_OF_HASH))
    } else if is_one_of(&[rows::ELT_NON_NULL_STR], row) {
        Some(RowId(rows::ELT_ONE_OF_STR))
    } else {
        None
    }
}

// Whether a row that says more fits over the same variables.
fn has_sharper<A: Answers>(here: &A, row: RowId, tuple: &[VarId]) -> Result<bool, NoMemory>
    requires row { IsRowOf (A.grammar here.now) row }
    requires vars { IsTrue (admits row (A.infos here.now) tuple.now) }
    ensures state { IfOk result (λ sharper. sharper ≡ has_sharper (answers_by (A.infos here.now) (A.answered here.now) (A.counted here.now) (A.agreeing here.now)) row tuple.now) }
    ensures err { OnErr result (MayWantMemoryWhenJudged row) }
{
    match sharper_than(row) {
        Some(sharper) => {
            let state = here.answer(sharper, tuple)?;
            Ok(fits(&state))
        }
        None => Ok(false),
    }
}

// Whether the variable at the first of these roles is the sum of those at the other two.
fn is_sum<A: Answers>(here: &A, roles: [u8; 3], tuple: &[VarId]) -> bool
    requires { IsUsable (A.grammar here.now) (A.infos here.now) (sum_of roles) tuple.now }
    ensures { result ≡ premise_fits (A.answered here.now) (sum_of roles) tuple.now }
{
    let sum = Premise::Holds {
        row: RowId(rows::SUM),
        roles,
    };
    here.premise(&sum, tuple)
}

// Whether it is a plane and one of its variables is the sum of the other two.
fn is_sum_plane<A: Answers>(here: &A, row: RowId, tuple: &[VarId]) -> bool
    requires { IsTrue (admits row (A.infos here.now) tuple.now) }
    ensures { result ≡ is_sum_plane (answers_by (A.infos here.now) (A.answered here.now) (A.counted here.now) (A.agreeing here.now)) row tuple.now }
{
    row.0 == rows::LINEAR_TERNARY
        && (is_sum(here, [0, 1, 2], tuple)
            || is_sum(here, [1, 0, 2], tuple)
            || is_sum(here, [2, 0, 1], tuple))
}

/// Whether a rule suppresses the instance, or a row that says more fits over the same variables, or it is a plane and one variable
/// is the sum of the others.
pub(crate) fn is_implied<A: Answers>(
    here: &A,
    row: RowId,
    tuple: &[VarId],
) -> Result<bool, NoMemory>
    requires row { IsRowOf (A.grammar here.now) row }
    requires vars { IsTrue (admits row (A.infos here.now) tuple.now) }
    ensures state { IfOk result (λ implied. implied ≡ is_implied (answers_by (A.infos here.now) (A.answered here.now) (A.counted here.now) (A.agreeing here.now)) row tuple.now) }
    ensures err { OnErr result (MayWantMemoryWhenJudged row) }
{
    if suppressed(row, tuple, here) || is_sum_plane(here, row, tuple) {
        return Ok(true);
    }
    has_sharper(here, row, tuple)
}
