// The table of the rules.
ghost use Rattle.std.specs.Prelude.{◌≡◌, map};
ghost use Rattle.dk_suppress.specs.Parts.{rules_of, starts};
ghost use Rattle.dk_suppress.specs.Rules.{asked_by_number, asked_of, rules};
ghost use Rattle.dk_suppress.specs.Told.{told};

use dk_template::rows::{
    AND, DIFFERENCE, DIVIDES, ELT_EQ, ELT_GE, ELT_GT, ELT_LE, ELT_LOWER, ELT_LT, ELT_NON_ZERO,
    ELT_UPPER, ELTS_EQUAL, EQ_HASH_SEQ, EQ_INT, EQ_INT_SEQ, EQ_STR_SEQ, GCD, LE, LOWER_BOUND, LT,
    MAXIMUM, MINIMUM, NE_INT, NON_ZERO, OR, PAIR_LE, PAIR_LT, PRODUCT, QUOTIENT, REMAINDER,
    REVERSE, SORTED_GE, SORTED_GT, SORTED_LE, SORTED_LT, SQUARE, SUBSET_HASH, SUBSET_INT,
    SUBSET_STR, SUM, UPPER_BOUND, XOR,
};
use dk_template::{Premise, RowId};

// The roles of a conclusion.
const FIRST: u8 = 0;

const SECOND: u8 = 1;

const THIRD: u8 = 2;

// What is written for a role that a row doesn't have.
const NO_ROLE: u8 = 0;

/// A rule: its conclusion, and its premises over the roles of the conclusion.
pub struct Rule {
    pub conclusion: RowId,
    pub premises: &'static [Premise],
}

macro_rules! rule {
    ($conclusion:expr, $premises:expr) => {
        Rule {
            conclusion: RowId($conclusion),
            premises: &$premises,
        }
    };
}

// The row holds over the roles.
macro_rules! holds {
    ($row:expr, $a:expr) => {
        Premise::Holds {
            row: RowId($row),
            roles: [$a, NO_ROLE, NO_ROLE],
        }
    };
    ($row:expr, $a:expr, $b:expr) => {
        Premise::Holds {
            row: RowId($row),
            roles: [$a, $b, NO_ROLE],
        }
    };
    ($row:expr, $a:expr, $b:expr, $c:expr) => {
        Premise::Holds {
            row: RowId($row),
            roles: [$a, $b, $c],
        }
    };
}

macro_rules! least {
    ($row:expr, $role:expr, $k:expr) => {
        Premise::LeastAtLeast {
            row: RowId($row),
            role: $role,
            k: $k,
        }
    };
}

macro_rules! greatest {
    ($row:expr, $role:expr, $k:expr) => {
        Premise::GreatestAtMost {
            row: RowId($row),
            role: $role,
            k: $k,
        }
    };
}

macro_rules! only {
    ($role:expr, $k:expr) => {
        Premise::Only { role: $role, k: $k }
    };
}

// The rules, by their conclusions. The roles are x, y, or s and t, or s and x, and from Sum to Gcd they are z, x, y.
const RULES: &[Rule] = &[
    rule!(NON_ZERO, [least!(LOWER_BOUND, FIRST, 1)]), // x != 0: x >= 1
    rule!(NON_ZERO, [greatest!(UPPER_BOUND, FIRST, -1)]), // x != 0: x <= -1
    rule!(NE_INT, [holds!(LT, FIRST, SECOND)]), // x != y: x < y
    rule!(NE_INT, [holds!(LT, SECOND, FIRST)]), // x != y: y < x
    rule!(LE, [holds!(LT, FIRST, SECOND)]), // x <= y: x < y
    rule!(LE, [holds!(EQ_INT, FIRST, SECOND)]), // x <= y: x == y
    rule!(
        DIVIDES,
        [holds!(EQ_INT, FIRST, SECOND), holds!(NON_ZERO, SECOND)]
    ), // x % y == 0: x == y and y != 0
    rule!(DIVIDES, [only!(SECOND, 1)]), // x % y == 0: y is only 1
    rule!(DIVIDES, [only!(SECOND, -1)]), // x % y == 0: y is only -1
    rule!(DIVIDES, [only!(FIRST, 0), holds!(NON_ZERO, SECOND)]), // x % y == 0: x is only 0 and y != 0
    rule!(
        SQUARE,
        [
            holds!(EQ_INT, FIRST, SECOND),
            least!(LOWER_BOUND, FIRST, 0),
            greatest!(UPPER_BOUND, FIRST, 1)
        ]
    ), // x == y * y: x == y and x >= 0 and x <= 1
    rule!(SUM, [holds!(EQ_INT, FIRST, SECOND), only!(THIRD, 0)]), // z == x + y: z == x and y is only 0
    rule!(SUM, [holds!(EQ_INT, FIRST, THIRD), only!(SECOND, 0)]), // z == x + y: z == y and x is only 0
    rule!(DIFFERENCE, [holds!(SUM, SECOND, FIRST, THIRD)]), // z == x - y: x == z + y
    rule!(PRODUCT, [holds!(EQ_INT, FIRST, SECOND), only!(THIRD, 1)]), // z == x * y: z == x and y is only 1
    rule!(PRODUCT, [holds!(EQ_INT, FIRST, THIRD), only!(SECOND, 1)]), // z == x * y: z == y and x is only 1
    rule!(PRODUCT, [only!(FIRST, 0), only!(SECOND, 0)]), // z == x * y: z is only 0 and x is only 0
    rule!(PRODUCT, [only!(FIRST, 0), only!(THIRD, 0)]), // z == x * y: z is only 0 and y is only 0
    rule!(
        MINIMUM,
        [holds!(EQ_INT, FIRST, SECOND), holds!(LE, SECOND, THIRD)]
    ), // z == min(x, y): z == x and x <= y
    rule!(
        MINIMUM,
        [holds!(EQ_INT, FIRST, THIRD), holds!(LE, THIRD, SECOND)]
    ), // z == min(x, y): z == y and y <= x
    rule!(
        MAXIMUM,
        [holds!(EQ_INT, FIRST, SECOND), holds!(LE, THIRD, SECOND)]
    ), // z == max(x, y): z == x and y <= x
    rule!(
        MAXIMUM,
        [holds!(EQ_INT, FIRST, THIRD), holds!(LE, SECOND, THIRD)]
    ), // z == max(x, y): z == y and x <= y
    rule!(QUOTIENT, [holds!(EQ_INT, FIRST, SECOND), only!(THIRD, 1)]), // z == x / y: z == x and y is only 1
    rule!(
        QUOTIENT,
        [only!(FIRST, 0), only!(SECOND, 0), holds!(NON_ZERO, THIRD)]
    ), // z == x / y: z is only 0 and x is only 0 and y != 0
    rule!(
        QUOTIENT,
        [
            only!(FIRST, 1),
            holds!(EQ_INT, SECOND, THIRD),
            holds!(NON_ZERO, THIRD)
        ]
    ), // z == x / y: z is only 1 and x == y and y != 0
    rule!(
        QUOTIENT,
        [
            only!(FIRST, 0),
            least!(LOWER_BOUND, SECOND, 0),
            holds!(LT, SECOND, THIRD)
        ]
    ), // z == x / y: z is only 0 and x >= 0 and x < y
    rule!(REMAINDER, [only!(FIRST, 0), holds!(DIVIDES, SECOND, THIRD)]), // z == x % y: z is only 0 and x % y == 0
    rule!(
        REMAINDER,
        [
            holds!(EQ_INT, FIRST, SECOND),
            least!(LOWER_BOUND, SECOND, 0),
            holds!(LT, SECOND, THIRD)
        ]
    ), // z == x % y: z == x and x >= 0 and x < y
    rule!(
        AND,
        [holds!(EQ_INT, FIRST, SECOND), holds!(EQ_INT, SECOND, THIRD)]
    ), // z == x & y: z == x and x == y
    rule!(AND, [only!(FIRST, 0), only!(SECOND, 0)]), // z == x & y: z is only 0 and x is only 0
    rule!(AND, [only!(FIRST, 0), only!(THIRD, 0)]), // z == x & y: z is only 0 and y is only 0
    rule!(AND, [holds!(EQ_INT, FIRST, SECOND), only!(THIRD, -1)]), // z == x & y: z == x and y is only -1
    rule!(AND, [holds!(EQ_INT, FIRST, THIRD), only!(SECOND, -1)]), // z == x & y: z == y and x is only -1
    rule!(
        OR,
        [holds!(EQ_INT, FIRST, SECOND), holds!(EQ_INT, SECOND, THIRD)]
    ), // z == x | y: z == x and x == y
    rule!(OR, [holds!(EQ_INT, FIRST, SECOND), only!(THIRD, 0)]), // z == x | y: z == x and y is only 0
    rule!(OR, [holds!(EQ_INT, FIRST, THIRD), only!(SECOND, 0)]), // z == x | y: z == y and x is only 0
    rule!(XOR, [holds!(EQ_INT, FIRST, SECOND), only!(THIRD, 0)]), // z == x ^ y: z == x and y is only 0
    rule!(XOR, [holds!(EQ_INT, FIRST, THIRD), only!(SECOND, 0)]), // z == x ^ y: z == y and x is only 0
    rule!(XOR, [only!(FIRST, 0), holds!(EQ_INT, SECOND, THIRD)]), // z == x ^ y: z is only 0 and x == y
    rule!(GCD, [only!(FIRST, 1), only!(SECOND, 1)]), // z == gcd(x, y): z is only 1 and x is only 1
    rule!(GCD, [only!(FIRST, 1), only!(THIRD, 1)]), // z == gcd(x, y): z is only 1 and y is only 1
    rule!(
        GCD,
        [
            holds!(EQ_INT, FIRST, SECOND),
            least!(LOWER_BOUND, SECOND, 1),
            holds!(DIVIDES, THIRD, SECOND)
        ]
    ), // z == gcd(x, y): z == x and x >= 1 and y % x == 0
    rule!(
        GCD,
        [
            holds!(EQ_INT, FIRST, THIRD),
            least!(LOWER_BOUND, THIRD, 1),
            holds!(DIVIDES, SECOND, THIRD)
        ]
    ), // z == gcd(x, y): z == y and y >= 1 and x % y == 0
    rule!(ELT_NON_ZERO, [least!(ELT_LOWER, FIRST, 1)]), // s elements != 0: s elements >= 1
    rule!(ELT_NON_ZERO, [greatest!(ELT_UPPER, FIRST, -1)]), // s elements != 0: s elements <= -1
    rule!(SORTED_LE, [holds!(SORTED_LT, FIRST)]), // s sorted by <=: s sorted by <
    rule!(SORTED_LE, [holds!(ELTS_EQUAL, FIRST)]), // s sorted by <=: s elements are equal
    rule!(SORTED_GE, [holds!(SORTED_GT, FIRST)]), // s sorted by >=: s sorted by >
    rule!(SORTED_GE, [holds!(ELTS_EQUAL, FIRST)]), // s sorted by >=: s elements are equal
    rule!(ELT_LE, [holds!(ELT_LT, FIRST, SECOND)]), // s elements <= x: s elements < x
    rule!(ELT_LE, [holds!(ELT_EQ, FIRST, SECOND)]), // s elements <= x: s elements == x
    rule!(ELT_GE, [holds!(ELT_GT, FIRST, SECOND)]), // s elements >= x: s elements > x
    rule!(ELT_GE, [holds!(ELT_EQ, FIRST, SECOND)]), // s elements >= x: s elements == x
    rule!(PAIR_LE, [holds!(PAIR_LT, FIRST, SECOND)]), // s <= t, pair by pair: s < t, pair by pair
    rule!(PAIR_LE, [holds!(EQ_INT_SEQ, FIRST, SECOND)]), // s <= t, pair by pair: s == t
    rule!(SUBSET_INT, [holds!(EQ_INT_SEQ, FIRST, SECOND)]), // s is a subset of t (numbers): s == t
    rule!(SUBSET_INT, [holds!(REVERSE, FIRST, SECOND)]), // s is a subset of t (numbers): s is the reverse of t
    rule!(SUBSET_HASH, [holds!(EQ_HASH_SEQ, FIRST, SECOND)]), // s is a subset of t (hash codes): s == t
    rule!(SUBSET_STR, [holds!(EQ_STR_SEQ, FIRST, SECOND)]), // s is a subset of t (strings): s == t
    rule!(
        REVERSE,
        [holds!(EQ_INT_SEQ, FIRST, SECOND), holds!(ELTS_EQUAL, FIRST)]
    ), // s is the reverse of t: s == t and s elements are equal
];

/// All rules of the table, in its order.
#[tactic(auto, unfolding(crate::specs::Rules::rules))]
pub fn rules() -> &'static [Rule]
    ensures { map told result.now ≡ rules }
{
    RULES
}

/// All rules, by their conclusions.
pub fn table() -> &'static [Rule]
    ensures { map told result.now ≡ rules }
{
    rules()
}

// How many rules have a conclusion below each of the rows 0 to 67. The table is in the order of its conclusions, so the rules of a row
// stand from its number here up to the next.
const STARTS: &[usize] = &[
    0, 0, 0, 0, 0, 2, 2, 2, 2, 2, // 0 to 9
    2, 2, 2, 4, 4, 6, 6, 10, 11, 11, // 10 to 19
    11, 11, 11, 11, 11, 13, 14, 18, 20, 22, // 20 to 29
    26, 28, 33, 36, 39, 43, 43, 43, 43, 45, // 30 to 39
    45, 47, 47, 49, 49, 49, 49, 49, 49, 49, // 40 to 49
    49, 49, 49, 49, 49, 51, 51, 53, 53, 53, // 50 to 59
    53, 53, 53, 55, 57, 58, 59, 60, // 60 to 67
];

// Where the rules of each number below that of planes start in the table, and where the last ones end.
fn starts() -> &'static [usize]
    ensures { result.now ≡ starts }
{
    STARTS
}

// The rules of a row.
pub(crate) fn rules_of(row: RowId) -> &'static [Rule]
    ensures { map told result.now ≡ rules_of row }
{
    let starts = starts();
    let row = row.0 as usize;
    if row + 1 < starts.len() {
        &rules()[starts[row]..starts[row + 1]]
    } else {
        &[]
    }
}

macro_rules! asked {
    ($($premise:expr),*) => {
        &[$($premise),*]
    };
}

// The premises about each row, from 0 on, of those that ask the same the first; the last row that has one is Reverse.
const ASKED: &[&[Premise]] = &[
    asked!(), // 0
    asked!(only!(SECOND, 1), only!(SECOND, -1), only!(FIRST, 0)), // 1 OneOfInt
    asked!(least!(LOWER_BOUND, FIRST, 1), least!(LOWER_BOUND, FIRST, 0)), // 2 LowerBound
    asked!(
        greatest!(UPPER_BOUND, FIRST, -1),
        greatest!(UPPER_BOUND, FIRST, 1)
    ), // 3 UpperBound
    asked!(holds!(NON_ZERO, SECOND)), // 4 NonZero
    asked!(), // 5
    asked!(), // 6
    asked!(), // 7
    asked!(), // 8
    asked!(), // 9
    asked!(), // 10
    asked!(holds!(EQ_INT, FIRST, SECOND)), // 11 EqInt
    asked!(), // 12
    asked!(holds!(LT, FIRST, SECOND)), // 13 Lt
    asked!(holds!(LE, SECOND, THIRD)), // 14 Le
    asked!(), // 15
    asked!(holds!(DIVIDES, SECOND, THIRD)), // 16 Divides
    asked!(), // 17
    asked!(), // 18
    asked!(), // 19
    asked!(), // 20
    asked!(), // 21
    asked!(), // 22
    asked!(), // 23
    asked!(holds!(SUM, SECOND, FIRST, THIRD)), // 24 Sum
    asked!(), // 25
    asked!(), // 26
    asked!(), // 27
    asked!(), // 28
    asked!(), // 29
    asked!(), // 30
    asked!(), // 31
    asked!(), // 32
    asked!(), // 33
    asked!(), // 34
    asked!(), // 35
    asked!(least!(ELT_LOWER, FIRST, 1)), // 36 EltLower
    asked!(greatest!(ELT_UPPER, FIRST, -1)), // 37 EltUpper
    asked!(), // 38
    asked!(holds!(SORTED_LT, FIRST)), // 39 SortedLt
    asked!(), // 40
    asked!(holds!(SORTED_GT, FIRST)), // 41 SortedGt
    asked!(), // 42
    asked!(holds!(ELTS_EQUAL, FIRST)), // 43 EltsEqual
    asked!(), // 44
    asked!(), // 45
    asked!(), // 46
    asked!(), // 47
    asked!(), // 48
    asked!(), // 49
    asked!(), // 50
    asked!(), // 51
    asked!(holds!(ELT_EQ, FIRST, SECOND)), // 52 EltEq
    asked!(holds!(ELT_LT, FIRST, SECOND)), // 53 EltLt
    asked!(), // 54
    asked!(holds!(ELT_GT, FIRST, SECOND)), // 55 EltGt
    asked!(), // 56
    asked!(holds!(EQ_INT_SEQ, FIRST, SECOND)), // 57 EqIntSeq
    asked!(), // 58
    asked!(holds!(EQ_HASH_SEQ, FIRST, SECOND)), // 59 EqHashSeq
    asked!(holds!(EQ_STR_SEQ, FIRST, SECOND)), // 60 EqStrSeq
    asked!(holds!(PAIR_LT, FIRST, SECOND)), // 61 PairLt
    asked!(), // 62
    asked!(), // 63
    asked!(), // 64
    asked!(), // 65
    asked!(holds!(REVERSE, FIRST, SECOND)), // 66 Reverse
];

// The premises about each number below that of planes.
fn asked_rows() -> &'static [&'static [Premise]]
    ensures { map (λ r. r.now) result.now ≡ asked_by_number }
{
    ASKED
}

/// The premises about a row, of all rules. Of those that are content with the same states, whichever variables they ask about, the
/// first of the table stands for all.
pub fn asked_of(row: RowId) -> &'static [Premise]
    ensures { result.now ≡ asked_of row }
{
    match asked_rows().get(row.0 as usize) {
        Some(premises) => premises,
        None => &[],
    }
}
