// The few values of each kind.
use dk_base::Kind;

const BOOLS: [&str; 10] = [
    "false", "true", "false", "true", "false", "true", "false", "true", "false", "true",
];

const INTS: [&str; 10] = [
    "0",
    "1",
    "2",
    "-1",
    "3",
    "4",
    "6",
    "-2",
    "9223372036854775807",
    "-9223372036854775808",
];

const HASHES: [&str; 10] = [
    "1",
    "null",
    "2",
    "1",
    "3",
    "2",
    "18446744073709551615",
    "1",
    "4",
    "null",
];

const STRINGS: [&str; 10] = [
    "\"a\"", "\"b\"", "null", "\"a\"", "\"\"", "\"c\"", "\"b\"", "\"null\"", "\"a\"", "\"d\"",
];

const BOOL_SEQUENCES: [&str; 10] = [
    "[true]",
    "[]",
    "[true true]",
    "[false]",
    "[true]",
    "[true false]",
    "[]",
    "[false false]",
    "[false true]",
    "[true true]",
];

const INT_SEQUENCES: [&str; 10] = [
    "[1]", "[1 2]", "[2 1]", "[0]", "[1 1]", "[]", "[2 3]", "[0 1 2]", "[-1 0 0]", "[3 1 2]",
];

const HASH_SEQUENCES: [&str; 10] = [
    "[1]", "[1 2]", "[2 1]", "[null]", "[1 1]", "[]", "[2]", "[2 null]", "[1 2 3]", "[3]",
];

const STRING_SEQUENCES: [&str; 10] = [
    "[\"a\"]",
    "[\"a\" \"b\"]",
    "[]",
    "[null]",
    "[\"b\" \"a\"]",
    "[\"a\" \"a\"]",
    "[\"b\"]",
    "[\"c\" null]",
    "[\"a\"]",
    "[\"d\"]",
];

/// Texts that write values of the kind. Few of them differ.
pub fn texts_of(kind: Kind) -> &'static [&'static str; 10] {
    match kind {
        Kind::Bool => &BOOLS,
        Kind::Int => &INTS,
        Kind::Hash => &HASHES,
        Kind::Str => &STRINGS,
        Kind::BoolSeq => &BOOL_SEQUENCES,
        Kind::IntSeq => &INT_SEQUENCES,
        Kind::HashSeq => &HASH_SEQUENCES,
        Kind::StrSeq => &STRING_SEQUENCES,
    }
}
