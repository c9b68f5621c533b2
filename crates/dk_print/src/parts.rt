// The table of the texts of all rows.
ghost use Rattle.std.specs.Prelude.{◌≡◌, ◌∷◌, [], map};
ghost use Rattle.dk_print.specs.Shown.{part_shown};
ghost use Rattle.dk_print.specs.Texts.{parts_of_row, row_texts};

use Part::{Bound, Constant, Lead, Modulus, Named, NullOr, Remainder, Step, Term, Values, Word};
use dk_template::RowId;

/// A part of a text. The roles of a row are counted from 0.
#[derive(Clone, Copy, Debug)]
pub enum Part {
    /// Bytes that stand in the text as they are.
    Word(&'static [u8]),
    /// The name of the variable at this role.
    Named(usize),
    /// The least or the greatest number.
    Bound,
    /// The values: ` == A`, or ` one of { A, B }`.
    Values,
    /// ` == null` where the code is 0, and else these bytes.
    NullOr(&'static [u8]),
    /// The remainder of a modulus.
    Remainder,
    /// The modulus of a remainder.
    Modulus,
    /// The first term of a line or a plane: the variable at this role with its factor.
    Lead(usize),
    /// A further term, with its sign.
    Term(usize),
    /// The constant of a line or a plane, with its sign; nothing where it is 0.
    Constant,
    /// An offset: ` + K`, or ` - K`.
    Step,
}

// The texts of the rows, from 0 on. The roles are x, y, or s, t, in this order; in the rows 24 to 34 they are z, x, y, in 49 to 51 x, s,
// in 52 to 56 s, x, and in 67 x, y, z.
const TEXTS: &[&[Part]] = &[
    &[], // 0
    &[Named(0), Values], // 1 OneOfInt
    &[Named(0), Word(b" >= "), Bound], // 2 LowerBound
    &[Named(0), Word(b" <= "), Bound], // 3 UpperBound
    &[Named(0), Word(b" != 0")], // 4 NonZero
    &[
        Named(0),
        Word(b" == "),
        Remainder,
        Word(b" (mod "),
        Modulus,
        Word(b")"),
    ], // 5 Modulus
    &[Named(0), Values], // 6 OneOfBool
    &[Named(0), NullOr(b" has only one value")], // 7 OneOfHash
    &[Named(0), Word(b" != null")], // 8 NonNullHash
    &[Named(0), Values], // 9 OneOfStr
    &[Named(0), Word(b" != null")], // 10 NonNullStr
    &[Named(0), Word(b" == "), Named(1)], // 11 EqInt
    &[Named(0), Word(b" != "), Named(1)], // 12 NeInt
    &[Named(0), Word(b" < "), Named(1)], // 13 Lt
    &[Named(0), Word(b" <= "), Named(1)], // 14 Le
    &[Lead(0), Term(1), Constant, Word(b" == 0")], // 15 Linear
    &[Named(0), Word(b" % "), Named(1), Word(b" == 0")], // 16 Divides
    &[Named(0), Word(b" == "), Named(1), Word(b" * "), Named(1)], // 17 Square
    &[Named(0), Word(b" == "), Named(1)], // 18 EqBool
    &[Named(0), Word(b" != "), Named(1)], // 19 NeBool
    &[Named(0), Word(b" == "), Named(1)], // 20 EqHash
    &[Named(0), Word(b" != "), Named(1)], // 21 NeHash
    &[Named(0), Word(b" == "), Named(1)], // 22 EqStr
    &[Named(0), Word(b" != "), Named(1)], // 23 NeStr
    &[Named(0), Word(b" == "), Named(1), Word(b" + "), Named(2)], // 24 Sum
    &[Named(0), Word(b" == "), Named(1), Word(b" - "), Named(2)], // 25 Difference
    &[Named(0), Word(b" == "), Named(1), Word(b" * "), Named(2)], // 26 Product
    &[
        Named(0),
        Word(b" == min("),
        Named(1),
        Word(b", "),
        Named(2),
        Word(b")"),
    ], // 27 Minimum
    &[
        Named(0),
        Word(b" == max("),
        Named(1),
        Word(b", "),
        Named(2),
        Word(b")"),
    ], // 28 Maximum
    &[Named(0), Word(b" == "), Named(1), Word(b" / "), Named(2)], // 29 Quotient
    &[Named(0), Word(b" == "), Named(1), Word(b" % "), Named(2)], // 30 Remainder
    &[Named(0), Word(b" == "), Named(1), Word(b" & "), Named(2)], // 31 And
    &[Named(0), Word(b" == "), Named(1), Word(b" | "), Named(2)], // 32 Or
    &[Named(0), Word(b" == "), Named(1), Word(b" ^ "), Named(2)], // 33 Xor
    &[
        Named(0),
        Word(b" == gcd("),
        Named(1),
        Word(b", "),
        Named(2),
        Word(b")"),
    ], // 34 Gcd
    &[Named(0), Word(b" elements"), Values], // 35 EltOneOfInt
    &[Named(0), Word(b" elements >= "), Bound], // 36 EltLower
    &[Named(0), Word(b" elements <= "), Bound], // 37 EltUpper
    &[Named(0), Word(b" elements != 0")], // 38 EltNonZero
    &[Named(0), Word(b" sorted by <")], // 39 SortedLt
    &[Named(0), Word(b" sorted by <=")], // 40 SortedLe
    &[Named(0), Word(b" sorted by >")], // 41 SortedGt
    &[Named(0), Word(b" sorted by >=")], // 42 SortedGe
    &[Named(0), Word(b" elements are equal")], // 43 EltsEqual
    &[Named(0), Word(b" elements"), Values], // 44 EltOneOfBool
    &[
        Named(0),
        Word(b" elements"),
        NullOr(b" have only one value"),
    ], // 45 EltOneOfHash
    &[Named(0), Word(b" elements != null")], // 46 EltNonNullHash
    &[Named(0), Word(b" elements"), Values], // 47 EltOneOfStr
    &[Named(0), Word(b" elements != null")], // 48 EltNonNullStr
    &[Named(0), Word(b" in "), Named(1)], // 49 MemberInt
    &[Named(0), Word(b" in "), Named(1)], // 50 MemberHash
    &[Named(0), Word(b" in "), Named(1)], // 51 MemberStr
    &[Named(0), Word(b" elements == "), Named(1)], // 52 EltEq
    &[Named(0), Word(b" elements < "), Named(1)], // 53 EltLt
    &[Named(0), Word(b" elements <= "), Named(1)], // 54 EltLe
    &[Named(0), Word(b" elements > "), Named(1)], // 55 EltGt
    &[Named(0), Word(b" elements >= "), Named(1)], // 56 EltGe
    &[Named(0), Word(b" == "), Named(1)], // 57 EqIntSeq
    &[Named(0), Word(b" == "), Named(1)], // 58 EqBoolSeq
    &[Named(0), Word(b" == "), Named(1)], // 59 EqHashSeq
    &[Named(0), Word(b" == "), Named(1)], // 60 EqStrSeq
    &[Named(0), Word(b" < "), Named(1), Word(b" (elementwise)")], // 61 PairLt
    &[Named(0), Word(b" <= "), Named(1), Word(b" (elementwise)")], // 62 PairLe
    &[Named(0), Word(b" is a subset of "), Named(1)], // 63 SubsetInt
    &[Named(0), Word(b" is a subset of "), Named(1)], // 64 SubsetHash
    &[Named(0), Word(b" is a subset of "), Named(1)], // 65 SubsetStr
    &[Named(0), Word(b" is the reverse of "), Named(1)], // 66 Reverse
    &[Lead(0), Term(1), Term(2), Constant, Word(b" == 0")], // 67 LinearTernary
    &[
        Named(1),
        Word(b" == "),
        Named(0),
        Step,
        Word(b" (elementwise)"),
    ], // 68 PairOffset
];

// The texts of the rows 0 to 68.
fn texts() -> &'static [&'static [Part]]
    ensures { map (λ r. map part_shown r.now) result.now ≡ [] ∷ row_texts }
{
    TEXTS
}

/// The parts of a row's text. There are none for what isn't a row of the table.
pub fn parts_of(row: RowId) -> &'static [Part]
    ensures { map part_shown result.now ≡ parts_of_row row }
{
    match texts().get(row.0 as usize) {
        Some(parts) => parts,
        None => &[],
    }
}
