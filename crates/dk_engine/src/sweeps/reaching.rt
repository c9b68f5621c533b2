// Which rows a lost premise can free, by itself or through others, and which rows rules conclude.
ghost use Rattle.std.specs.Prelude.{◌≡◌, map};
ghost use Rattle.dk_suppress.specs.Rules.{has_rule};
ghost use Rattle.dk_engine.specs.Sweeps.Reached.{concluded_by_number, reached_by_number, rows_reached};

use dk_template::RowId;
use dk_template::rows::{
    AND, DIFFERENCE, DIVIDES, ELT_GE, ELT_LE, ELT_NON_ZERO, GCD, LE, MAXIMUM, MINIMUM, NE_INT,
    NON_ZERO, OR, PAIR_LE, PRODUCT, QUOTIENT, REMAINDER, REVERSE, SORTED_GE, SORTED_LE, SQUARE,
    SUBSET_HASH, SUBSET_INT, SUBSET_STR, SUM, XOR,
};

macro_rules! rows {
    ($($row:expr),*) => {
        &[$(RowId($row)),*]
    };
}

// What each row frees, from 0 on, and what those free in turn; the last row that is a premise is Reverse.
const REACHED: &[&[RowId]] = &[
    rows!(), // 0
    rows!(
        DIVIDES, SUM, DIFFERENCE, PRODUCT, QUOTIENT, REMAINDER, AND, OR, XOR, GCD
    ), // 1 OneOfInt
    rows!(NON_ZERO, DIVIDES, SQUARE, QUOTIENT, REMAINDER, GCD), // 2 LowerBound
    rows!(NON_ZERO, DIVIDES, SQUARE, QUOTIENT, REMAINDER, GCD), // 3 UpperBound
    rows!(DIVIDES, QUOTIENT, REMAINDER, GCD), // 4 NonZero
    rows!(), // 5
    rows!(), // 6
    rows!(), // 7
    rows!(), // 8
    rows!(), // 9
    rows!(), // 10
    rows!(
        LE, DIVIDES, SQUARE, SUM, DIFFERENCE, PRODUCT, MINIMUM, MAXIMUM, QUOTIENT, REMAINDER, AND,
        OR, XOR, GCD
    ), // 11 EqInt
    rows!(), // 12
    rows!(NE_INT, LE, MINIMUM, MAXIMUM, QUOTIENT, REMAINDER), // 13 Lt
    rows!(MINIMUM, MAXIMUM), // 14 Le
    rows!(), // 15
    rows!(REMAINDER, GCD), // 16 Divides
    rows!(), // 17
    rows!(), // 18
    rows!(), // 19
    rows!(), // 20
    rows!(), // 21
    rows!(), // 22
    rows!(), // 23
    rows!(DIFFERENCE), // 24 Sum
    rows!(), // 25
    rows!(), // 26
    rows!(), // 27
    rows!(), // 28
    rows!(), // 29
    rows!(), // 30
    rows!(), // 31
    rows!(), // 32
    rows!(), // 33
    rows!(), // 34
    rows!(), // 35
    rows!(ELT_NON_ZERO), // 36 EltLower
    rows!(ELT_NON_ZERO), // 37 EltUpper
    rows!(), // 38
    rows!(SORTED_LE), // 39 SortedLt
    rows!(), // 40
    rows!(SORTED_GE), // 41 SortedGt
    rows!(), // 42
    rows!(SORTED_LE, SORTED_GE, SUBSET_INT, REVERSE), // 43 EltsEqual
    rows!(), // 44
    rows!(), // 45
    rows!(), // 46
    rows!(), // 47
    rows!(), // 48
    rows!(), // 49
    rows!(), // 50
    rows!(), // 51
    rows!(ELT_LE, ELT_GE), // 52 EltEq
    rows!(ELT_LE), // 53 EltLt
    rows!(), // 54
    rows!(ELT_GE), // 55 EltGt
    rows!(), // 56
    rows!(PAIR_LE, SUBSET_INT, REVERSE), // 57 EqIntSeq
    rows!(), // 58
    rows!(SUBSET_HASH), // 59 EqHashSeq
    rows!(SUBSET_STR), // 60 EqStrSeq
    rows!(PAIR_LE), // 61 PairLt
    rows!(), // 62
    rows!(), // 63
    rows!(), // 64
    rows!(), // 65
    rows!(SUBSET_INT), // 66 Reverse
];

// What each number below that of planes reaches.
fn reached_rows() -> &'static [&'static [RowId]]
    ensures { map (λ r. r.now) result.now ≡ reached_by_number }
{
    REACHED
}

/// The rows with a rule that has this row among its premises, those with a rule that has one of these, and so on, each once, ascending.
pub(crate) fn rows_reached(row: RowId) -> &'static [RowId]
    ensures { result.now ≡ rows_reached row }
{
    match reached_rows().get(row.0 as usize) {
        Some(rows) => rows,
        None => &[],
    }
}

// Whether a rule concludes each row, from 0 on; none concludes a row behind row 66.
const CONCLUDED: &[bool] = &[
    false, false, false, false, true, false, false, false, false, false, // 0 to 9
    false, false, true, false, true, false, true, true, false, false, // 10 to 19
    false, false, false, false, true, true, true, true, true, true, // 20 to 29
    true, true, true, true, true, false, false, false, true, false, // 30 to 39
    true, false, true, false, false, false, false, false, false, false, // 40 to 49
    false, false, false, false, true, false, true, false, false, false, // 50 to 59
    false, false, true, true, true, true, true, // 60 to 66
];

// Whether one concludes the rows 0 to 66.
fn concluded_rows() -> &'static [bool]
    ensures { result.now ≡ concluded_by_number }
{
    CONCLUDED
}

/// Whether a rule concludes the row.
pub(crate) fn is_concluded(row: RowId) -> bool
    ensures { result ≡ has_rule row }
{
    match concluded_rows().get(row.0 as usize) {
        Some(concluded) => *concluded,
        None => false,
    }
}
