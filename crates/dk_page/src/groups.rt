// The kinds of property by which a page groups the lines of a point.
ghost use Rattle.std.specs.Prelude.{◌≡◌, option_map};
ghost use Rattle.dk_page.specs.Groups.{group_of, groups, heading, is_conditional, place_of, row_group, row_groups};

use dk_template::RowId;

/// A kind of property.
#[derive(Clone, Copy, Debug, PartialEq, Eq)]
pub enum Group {
    /// All values are listed, or there is one.
    FewValues,
    /// A least or a greatest value.
    Bounds,
    /// A number that isn't 0, or a value that isn't null.
    NeverNull,
    /// A remainder, or that a number divides another.
    Remainders,
    /// Two variables that are equal.
    Equal,
    /// Variables that are never equal.
    NeverEqual,
    /// Numbers of which one is never greater.
    Ordered,
    /// Linear equations over two or three variables.
    Linear,
    /// A number that is computed of one or two others.
    Arithmetic,
    /// What holds of each element of a sequence.
    Elements,
    /// The order in which elements stand.
    Order,
    /// Members of sequences, and sequences whose elements another has.
    Membership,
    /// Two sequences, element by element.
    Elementwise,
    /// Whatever holds under a condition.
    Conditional,
    /// Whatever else a line says.
    Other,
}

const GROUPS: &[Group] = &[
    Group::FewValues,
    Group::Bounds,
    Group::NeverNull,
    Group::Remainders,
    Group::Equal,
    Group::NeverEqual,
    Group::Ordered,
    Group::Linear,
    Group::Arithmetic,
    Group::Elements,
    Group::Order,
    Group::Membership,
    Group::Elementwise,
    Group::Conditional,
    Group::Other,
];

// Those of the rows, from 0 on, which is no row.
const ROW_GROUPS: &[Group] = &[
    Group::Other,
    Group::FewValues, // 1 OneOfInt
    Group::Bounds, // 2 LowerBound
    Group::Bounds, // 3 UpperBound
    Group::NeverNull, // 4 NonZero
    Group::Remainders, // 5 Modulus
    Group::FewValues, // 6 OneOfBool
    Group::FewValues, // 7 OneOfHash
    Group::NeverNull, // 8 NonNullHash
    Group::FewValues, // 9 OneOfStr
    Group::NeverNull, // 10 NonNullStr
    Group::Equal, // 11 EqInt
    Group::NeverEqual, // 12 NeInt
    Group::Ordered, // 13 Lt
    Group::Ordered, // 14 Le
    Group::Linear, // 15 Linear
    Group::Remainders, // 16 Divides
    Group::Arithmetic, // 17 Square
    Group::Equal, // 18 EqBool
    Group::NeverEqual, // 19 NeBool
    Group::Equal, // 20 EqHash
    Group::NeverEqual, // 21 NeHash
    Group::Equal, // 22 EqStr
    Group::NeverEqual, // 23 NeStr
    Group::Arithmetic, // 24 Sum
    Group::Arithmetic, // 25 Difference
    Group::Arithmetic, // 26 Product
    Group::Arithmetic, // 27 Minimum
    Group::Arithmetic, // 28 Maximum
    Group::Arithmetic, // 29 Quotient
    Group::Arithmetic, // 30 Remainder
    Group::Arithmetic, // 31 And
    Group::Arithmetic, // 32 Or
    Group::Arithmetic, // 33 Xor
    Group::Arithmetic, // 34 Gcd
    Group::Elements, // 35 EltOneOfInt
    Group::Elements, // 36 EltLower
    Group::Elements, // 37 EltUpper
    Group::Elements, // 38 EltNonZero
    Group::Order, // 39 SortedLt
    Group::Order, // 40 SortedLe
    Group::Order, // 41 SortedGt
    Group::Order, // 42 SortedGe
    Group::Order, // 43 EltsEqual
    Group::Elements, // 44 EltOneOfBool
    Group::Elements, // 45 EltOneOfHash
    Group::Elements, // 46 EltNonNullHash
    Group::Elements, // 47 EltOneOfStr
    Group::Elements, // 48 EltNonNullStr
    Group::Membership, // 49 MemberInt
    Group::Membership, // 50 MemberHash
    Group::Membership, // 51 MemberStr
    Group::Elements, // 52 EltEq
    Group::Elements, // 53 EltLt
    Group::Elements, // 54 EltLe
    Group::Elements, // 55 EltGt
    Group::Elements, // 56 EltGe
    Group::Equal, // 57 EqIntSeq
    Group::Equal, // 58 EqBoolSeq
    Group::Equal, // 59 EqHashSeq
    Group::Equal, // 60 EqStrSeq
    Group::Elementwise, // 61 PairLt
    Group::Elementwise, // 62 PairLe
    Group::Membership, // 63 SubsetInt
    Group::Membership, // 64 SubsetHash
    Group::Membership, // 65 SubsetStr
    Group::Elementwise, // 66 Reverse
    Group::Linear, // 67 LinearTernary
    Group::Elementwise, // 68 PairOffset
];

/// The groups in the order of a page.
pub(crate) fn groups() -> &'static [Group]
    ensures { result.now ≡ groups }
{
    GROUPS
}

/// The name of a group, in words.
pub(crate) fn heading(group: Group) -> &'static str
    ensures { result.now ≡ heading group }
{
    match group {
        Group::FewValues => "Few values",
        Group::Bounds => "Bounds",
        Group::NeverNull => "Never 0 or null",
        Group::Remainders => "Remainders and divisors",
        Group::Equal => "Equal",
        Group::NeverEqual => "Never equal",
        Group::Ordered => "Smaller and greater",
        Group::Linear => "Linear equations",
        Group::Arithmetic => "Arithmetic",
        Group::Elements => "Elements",
        Group::Order => "Order of elements",
        Group::Membership => "Membership and subsets",
        Group::Elementwise => "Two sequences, element by element",
        Group::Conditional => "Under a condition",
        Group::Other => "Other lines",
    }
}

// The groups of the rows 0 to 68.
#[tactic(auto, unfolding(crate::specs::Groups::row_groups))]
fn row_groups() -> &'static [Group]
    ensures { result.now ≡ row_groups }
{
    ROW_GROUPS
}

// The group of a row; what isn't a row of the table is another line.
fn row_group(row: RowId) -> Group
    ensures { result ≡ row_group row }
{
    match row_groups().get(row.0 as usize) {
        Some(group) => *group,
        None => Group::Other,
    }
}

// Whether the text says something under a condition.
fn is_conditional(text: &[u8]) -> bool
    ensures { result ≡ is_conditional text.now }
{
    let mut left = text;
    'places: while let [_, rest @ ..] = left {
        if left.starts_with(b" ==> ") {
            return true;
        }
        left = rest;
    }
    false
}

/// The group of a text that is one of this row, or of none.
pub fn group_of(row: Option<RowId>, text: &[u8]) -> Group
    ensures { result ≡ group_of row text.now }
{
    match row {
        Some(row) => row_group(row),
        None => if is_conditional(text) {
            Group::Conditional
        } else {
            Group::Other
        },
    }
}
