// What the rows say in C.
ghost use Rattle.std.specs.Prelude.{◌≡◌, map};
ghost use Rattle.dk_languages.specs.Rows.CRows.{c_rows};

// From 0 on, which is no row. Capital letters are holes (`fillings.rt`).
const ROWS: &[&str] = &[
    "",
    "dk_one_of(dk_int(X), L)", // 1 OneOfInt
    "dk_int(X) >= A", // 2 LowerBound
    "dk_int(X) <= A", // 3 UpperBound
    "dk_int(X) != 0", // 4 NonZero
    "dk_modulo(dk_int(X), A) == B", // 5 Modulus
    "dk_one_of(dk_bool(X), L)", // 6 OneOfBool
    "dk_code(X) == 0", // 7 OneOfHash
    "dk_code(X) != 0", // 8 NonNullHash
    "dk_one_text(X, L)", // 9 OneOfStr
    "X != 0", // 10 NonNullStr
    "dk_int(X) == dk_int(Y)", // 11 EqInt
    "dk_int(X) != dk_int(Y)", // 12 NeInt
    "dk_int(X) < dk_int(Y)", // 13 Lt
    "dk_int(X) <= dk_int(Y)", // 14 Le
    "A * dk_int(X) + B * dk_int(Y) == -(C)", // 15 Linear
    "dk_int(Y) != 0 && dk_int(X) % dk_int(Y) == 0", // 16 Divides
    "dk_int(X) == dk_int(Y) * dk_int(Y)", // 17 Square
    "dk_bool(X) == dk_bool(Y)", // 18 EqBool
    "dk_bool(X) != dk_bool(Y)", // 19 NeBool
    "dk_code(X) == dk_code(Y)", // 20 EqHash
    "dk_code(X) != dk_code(Y)", // 21 NeHash
    "dk_same_text(X, Y)", // 22 EqStr
    "!dk_same_text(X, Y)", // 23 NeStr
    "dk_int(X) == dk_int(Y) + dk_int(Z)", // 24 Sum
    "dk_int(X) == dk_int(Y) - dk_int(Z)", // 25 Difference
    "dk_int(X) == dk_int(Y) * dk_int(Z)", // 26 Product
    "dk_int(X) == (dk_int(Y) < dk_int(Z) ? dk_int(Y) : dk_int(Z))", // 27 Minimum
    "dk_int(X) == (dk_int(Y) > dk_int(Z) ? dk_int(Y) : dk_int(Z))", // 28 Maximum
    "dk_int(Z) != 0 && dk_int(X) == dk_int(Y) / dk_int(Z)", // 29 Quotient
    "dk_int(Z) != 0 && dk_int(X) == dk_int(Y) % dk_int(Z)", // 30 Remainder
    "dk_int(X) == (dk_int(Y) & dk_int(Z))", // 31 And
    "dk_int(X) == (dk_int(Y) | dk_int(Z))", // 32 Or
    "dk_int(X) == (dk_int(Y) ^ dk_int(Z))", // 33 Xor
    "dk_int(X) == dk_gcd(dk_int(Y), dk_int(Z))", // 34 Gcd
    "dk_all(dk_i, F, T, dk_one_of(dk_int(X[dk_i]), L))", // 35 EltOneOfInt
    "dk_all(dk_i, F, T, dk_int(X[dk_i]) >= A)", // 36 EltLower
    "dk_all(dk_i, F, T, dk_int(X[dk_i]) <= A)", // 37 EltUpper
    "dk_all(dk_i, F, T, dk_int(X[dk_i]) != 0)", // 38 EltNonZero
    "dk_all(dk_i, F, T - 1, dk_int(X[dk_i]) < dk_int(X[dk_i + 1]))", // 39 SortedLt
    "dk_all(dk_i, F, T - 1, dk_int(X[dk_i]) <= dk_int(X[dk_i + 1]))", // 40 SortedLe
    "dk_all(dk_i, F, T - 1, dk_int(X[dk_i]) > dk_int(X[dk_i + 1]))", // 41 SortedGt
    "dk_all(dk_i, F, T - 1, dk_int(X[dk_i]) >= dk_int(X[dk_i + 1]))", // 42 SortedGe
    "dk_all(dk_i, F, T - 1, dk_int(X[dk_i]) == dk_int(X[dk_i + 1]))", // 43 EltsEqual
    "dk_all(dk_i, F, T, dk_one_of(dk_bool(X[dk_i]), L))", // 44 EltOneOfBool
    "dk_all(dk_i, F, T, dk_code(X[dk_i]) == 0)", // 45 EltOneOfHash
    "dk_all(dk_i, F, T, dk_code(X[dk_i]) != 0)", // 46 EltNonNullHash
    "dk_all(dk_i, F, T, dk_one_text(X[dk_i], L))", // 47 EltOneOfStr
    "dk_all(dk_i, F, T, X[dk_i] != 0)", // 48 EltNonNullStr
    "dk_any(dk_i, G, U, dk_int(Y[dk_i]) == dk_int(X))", // 49 MemberInt
    "dk_any(dk_i, G, U, dk_code(Y[dk_i]) == dk_code(X))", // 50 MemberHash
    "dk_any(dk_i, G, U, dk_same_text(Y[dk_i], X))", // 51 MemberStr
    "dk_all(dk_i, F, T, dk_int(X[dk_i]) == dk_int(Y))", // 52 EltEq
    "dk_all(dk_i, F, T, dk_int(X[dk_i]) < dk_int(Y))", // 53 EltLt
    "dk_all(dk_i, F, T, dk_int(X[dk_i]) <= dk_int(Y))", // 54 EltLe
    "dk_all(dk_i, F, T, dk_int(X[dk_i]) > dk_int(Y))", // 55 EltGt
    "dk_all(dk_i, F, T, dk_int(X[dk_i]) >= dk_int(Y))", // 56 EltGe
    "T - F == U - G && dk_all(dk_i, F, T, dk_int(X[dk_i]) == dk_int(Y[dk_i - F + G]))", // 57 EqIntSeq
    "T - F == U - G && dk_all(dk_i, F, T, dk_bool(X[dk_i]) == dk_bool(Y[dk_i - F + G]))", // 58 EqBoolSeq
    "T - F == U - G && dk_all(dk_i, F, T, dk_code(X[dk_i]) == dk_code(Y[dk_i - F + G]))", // 59 EqHashSeq
    "T - F == U - G && dk_all(dk_i, F, T, dk_same_text(X[dk_i], Y[dk_i - F + G]))", // 60 EqStrSeq
    "T - F == U - G && dk_all(dk_i, F, T, dk_int(X[dk_i]) < dk_int(Y[dk_i - F + G]))", // 61 PairLt
    "T - F == U - G && dk_all(dk_i, F, T, dk_int(X[dk_i]) <= dk_int(Y[dk_i - F + G]))", // 62 PairLe
    "dk_all(dk_i, F, T, dk_any(dk_j, G, U, dk_int(X[dk_i]) == dk_int(Y[dk_j])))", // 63 SubsetInt
    "dk_all(dk_i, F, T, dk_any(dk_j, G, U, dk_code(X[dk_i]) == dk_code(Y[dk_j])))", // 64 SubsetHash
    "dk_all(dk_i, F, T, dk_any(dk_j, G, U, dk_same_text(X[dk_i], Y[dk_j])))", // 65 SubsetStr
    "T - F == U - G && dk_all(dk_i, F, T, dk_int(X[dk_i]) == dk_int(Y[U - 1 - (dk_i - F)]))", // 66 Reverse
    "A * dk_int(X) + B * dk_int(Y) == -(C * dk_int(Z)) - (D)", // 67 LinearTernary
    "T - F == U - G && dk_all(dk_i, F, T, dk_int(Y[dk_i - F + G]) == dk_int(X[dk_i]) + A)", // 68 PairOffset
];

/// What the rows 0 to 68 say in C, with holes.
pub(crate) fn rows() -> &'static [&'static str]
    ensures { map (λ row. row.now) result.now ≡ c_rows }
{
    ROWS
}
