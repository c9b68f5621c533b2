// Which rows a row frees.
ghost use Rattle.std.specs.Prelude.{◌≡◌, map};
ghost use Rattle.dk_suppress.specs.Rules.{freed, freed_by_number};

use dk_template::RowId;
use dk_template::rows::{
    AND, DIFFERENCE, DIVIDES, ELT_GE, ELT_LE, ELT_NON_ZERO, GCD, LE, MAXIMUM, MINIMUM, NE_INT,
    NON_ZERO, OR, PAIR_LE, PRODUCT, QUOTIENT, REMAINDER, REVERSE, SORTED_GE, SORTED_LE, SQUARE,
    SUBSET_HASH, SUBSET_INT, SUBSET_STR, SUM, XOR,
};

macro_rules! freed {
    ($($row:expr),*) => {
        &[$(RowId($row)),*]
    };
}

// What each row frees, from 0 on; the last row that is a premise is Reverse.
const FREED: &[&[RowId]] = &[
    freed!(), // 0
    freed!(
        DIVIDES, SUM, PRODUCT, QUOTIENT, REMAINDER, AND, OR, XOR, GCD
    ), // 1 OneOfInt
    freed!(NON_ZERO, SQUARE, QUOTIENT, REMAINDER, GCD), // 2 LowerBound
    freed!(NON_ZERO, SQUARE), // 3 UpperBound
    freed!(DIVIDES, QUOTIENT), // 4 NonZero
    freed!(), // 5
    freed!(), // 6
    freed!(), // 7
    freed!(), // 8
    freed!(), // 9
    freed!(), // 10
    freed!(
        LE, DIVIDES, SQUARE, SUM, PRODUCT, MINIMUM, MAXIMUM, QUOTIENT, REMAINDER, AND, OR, XOR, GCD
    ), // 11 EqInt
    freed!(), // 12
    freed!(NE_INT, LE, QUOTIENT, REMAINDER), // 13 Lt
    freed!(MINIMUM, MAXIMUM), // 14 Le
    freed!(), // 15
    freed!(REMAINDER, GCD), // 16 Divides
    freed!(), // 17
    freed!(), // 18
    freed!(), // 19
    freed!(), // 20
    freed!(), // 21
    freed!(), // 22
    freed!(), // 23
    freed!(DIFFERENCE), // 24 Sum
    freed!(), // 25
    freed!(), // 26
    freed!(), // 27
    freed!(), // 28
    freed!(), // 29
    freed!(), // 30
    freed!(), // 31
    freed!(), // 32
    freed!(), // 33
    freed!(), // 34
    freed!(), // 35
    freed!(ELT_NON_ZERO), // 36 EltLower
    freed!(ELT_NON_ZERO), // 37 EltUpper
    freed!(), // 38
    freed!(SORTED_LE), // 39 SortedLt
    freed!(), // 40
    freed!(SORTED_GE), // 41 SortedGt
    freed!(), // 42
    freed!(SORTED_LE, SORTED_GE, REVERSE), // 43 EltsEqual
    freed!(), // 44
    freed!(), // 45
    freed!(), // 46
    freed!(), // 47
    freed!(), // 48
    freed!(), // 49
    freed!(), // 50
    freed!(), // 51
    freed!(ELT_LE, ELT_GE), // 52 EltEq
    freed!(ELT_LE), // 53 EltLt
    freed!(), // 54
    freed!(ELT_GE), // 55 EltGt
    freed!(), // 56
    freed!(PAIR_LE, SUBSET_INT, REVERSE), // 57 EqIntSeq
    freed!(), // 58
    freed!(SUBSET_HASH), // 59 EqHashSeq
    freed!(SUBSET_STR), // 60 EqStrSeq
    freed!(PAIR_LE), // 61 PairLt
    freed!(), // 62
    freed!(), // 63
    freed!(), // 64
    freed!(), // 65
    freed!(SUBSET_INT), // 66 Reverse
];

// What each number below that of planes frees.
fn freed_rows() -> &'static [&'static [RowId]]
    ensures { map (λ r. r.now) result.now ≡ freed_by_number }
{
    FREED
}

/// The rows with a rule that has this row among its premises, each once, ascending. Where that row no longer holds, their instances
/// may no longer be suppressed. A row that is no premise frees none.
pub fn freed_by(row: RowId) -> &'static [RowId]
    ensures { result.now ≡ freed row }
{
    match freed_rows().get(row.0 as usize) {
        Some(rows) => rows,
        None => &[],
    }
}
