// What no clause says: that the calls succeed with ample memory; and a table of texts with their values.
use dk_base::*;
use std::alloc::Global;
use std::process::Abort;
use std::test::Fail;

/// A kind, a text, and the one text of the value that it writes, or none where it writes no value of the kind.
type Case = (Kind, &'static [u8], Option<&'static [u8]>);

/// The words for a missing value, and no text at all, for every kind.
static NO_VALUES: [Case; 20] = [
    (Kind::Bool, b"nonsensical", Some(b"missing")),
    (Kind::Int, b"uninit", Some(b"missing")),
    (Kind::Hash, b"missing", Some(b"missing")),
    (Kind::Str, b"nonsensical", Some(b"missing")),
    (Kind::BoolSeq, b"uninit", Some(b"missing")),
    (Kind::IntSeq, b"missing", Some(b"missing")),
    (Kind::HashSeq, b"nonsensical", Some(b"missing")),
    (Kind::StrSeq, b"uninit", Some(b"missing")),
    (Kind::IntSeq, b"null", Some(b"missing")),
    (Kind::HashSeq, b"null", Some(b"missing")),
    (Kind::StrSeq, b"null", Some(b"missing")),
    (Kind::Hash, b"-18446744073709551615", Some(b"missing")),
    (Kind::Bool, b"", None),
    (Kind::Int, b"", None),
    (Kind::Hash, b"", None),
    (Kind::Str, b"", None),
    (Kind::BoolSeq, b"", None),
    (Kind::IntSeq, b"", None),
    (Kind::HashSeq, b"", None),
    (Kind::StrSeq, b"", None),
];

/// Truth values.
static TRUTH_VALUES: [Case; 10] = [
    (Kind::Bool, b"true", Some(b"true")),
    (Kind::Bool, b"1", Some(b"true")),
    (Kind::Bool, b"false", Some(b"false")),
    (Kind::Bool, b"0", Some(b"false")),
    (Kind::Bool, b"TRUE", None),
    (Kind::Bool, b"2", None),
    (Kind::Bool, b"01", None),
    (Kind::Bool, b" true", None),
    (Kind::Bool, b"null", None),
    (Kind::Bool, b"uninit ", None),
];

/// Whole numbers, at both ends of their range and beyond.
static WHOLE_NUMBERS: [Case; 22] = [
    (Kind::Int, b"0", Some(b"0")),
    (Kind::Int, b"-0", Some(b"0")),
    (Kind::Int, b"007", Some(b"7")),
    (Kind::Int, b"-12", Some(b"-12")),
    (Kind::Int, b"true", Some(b"1")),
    (Kind::Int, b"false", Some(b"0")),
    (
        Kind::Int,
        b"9223372036854775807",
        Some(b"9223372036854775807"),
    ),
    (
        Kind::Int,
        b"-9223372036854775808",
        Some(b"-9223372036854775808"),
    ),
    (Kind::Int, b"9223372036854775808", Some(b"missing")),
    (Kind::Int, b"-9223372036854775809", Some(b"missing")),
    (Kind::Int, b"18446744073709551616", Some(b"missing")),
    (Kind::Int, b"-18446744073709551616", Some(b"missing")),
    (
        Kind::Int,
        b"100000000000000000000000000000",
        Some(b"missing"),
    ),
    (Kind::Int, b"3.5", None),
    (Kind::Int, b"+1", None),
    (Kind::Int, b"-", None),
    (Kind::Int, b"--1", None),
    (Kind::Int, b"1 2", None),
    (Kind::Int, b"0x10", None),
    (Kind::Int, b"1e3", None),
    (Kind::Int, b"100000000000000000000000000000x", None),
    (Kind::Int, b"null", None),
];

/// Hash codes, at both ends of their range and beyond.
static HASH_CODES: [Case; 22] = [
    (Kind::Hash, b"null", Some(b"null")),
    (Kind::Hash, b"0", Some(b"null")),
    (Kind::Hash, b"-0", Some(b"null")),
    (Kind::Hash, b"0x0", Some(b"null")),
    (Kind::Hash, b"31", Some(b"0x1f")),
    (Kind::Hash, b"0x1f", Some(b"0x1f")),
    (Kind::Hash, b"0x1F", Some(b"0x1f")),
    (Kind::Hash, b"0x00ff", Some(b"0xff")),
    (
        Kind::Hash,
        b"18446744073709551615",
        Some(b"0xffffffffffffffff"),
    ),
    (
        Kind::Hash,
        b"0xFFFFFFFFFFFFFFFF",
        Some(b"0xffffffffffffffff"),
    ),
    (Kind::Hash, b"18446744073709551616", Some(b"missing")),
    (Kind::Hash, b"0x10000000000000000", Some(b"missing")),
    (Kind::Hash, b"-1", Some(b"missing")),
    (Kind::Hash, b"-18446744073709551616", Some(b"missing")),
    (Kind::Hash, b"0x", None),
    (Kind::Hash, b"0X1f", None),
    (Kind::Hash, b"0x1g", None),
    (Kind::Hash, b"1f", None),
    (Kind::Hash, b"-0x1", None),
    (Kind::Hash, b"-", None),
    (Kind::Hash, b"+1", None),
    (Kind::Hash, b"true", None),
];

/// Strings: quotes, backslashes, LF and other bytes.
static STRINGS: [Case; 17] = [
    (Kind::Str, b"null", Some(b"null")),
    (Kind::Str, b"\"\"", Some(b"\"\"")),
    (Kind::Str, b"\"a b\"", Some(b"\"a b\"")),
    (Kind::Str, b"\"a\\\"b\"", Some(b"\"a\\\"b\"")),
    (Kind::Str, b"\"a\\\\\"", Some(b"\"a\\\\\"")),
    (Kind::Str, b"\"\t\r[\"", Some(b"\"\t\r[\"")),
    (Kind::Str, b"\"missing\"", Some(b"\"missing\"")),
    (Kind::Str, b"\"", None),
    (Kind::Str, b"\"a\\\"", None),
    (Kind::Str, b"\"a\\\\\\\"", None),
    (Kind::Str, b"a", None),
    (Kind::Str, b"\"a\"b\"", None),
    (Kind::Str, b"\"a\" ", None),
    (Kind::Str, b" \"a\"", None),
    (Kind::Str, b"\"a\nb\"", None),
    (Kind::Str, b"\"a\\\nb\"", None),
    (Kind::Str, b"NULL", None),
];

/// Sequences of truth values: brackets, blanks, tabs, missing items and bad ones.
static TRUTH_SEQUENCES: [Case; 23] = [
    (Kind::BoolSeq, b"[]", Some(b"[]")),
    (Kind::BoolSeq, b"[ ]", Some(b"[]")),
    (Kind::BoolSeq, b"[   ]", Some(b"[]")),
    (Kind::BoolSeq, b"[true]", Some(b"[true]")),
    (Kind::BoolSeq, b"[ true  0 1 ]", Some(b"[true false true]")),
    (Kind::BoolSeq, b"null", Some(b"missing")),
    (Kind::BoolSeq, b"[true missing]", Some(b"missing")),
    (Kind::BoolSeq, b"[missing]", Some(b"missing")),
    (Kind::BoolSeq, b"[missing x]", None),
    (Kind::BoolSeq, b"[x missing]", None),
    (Kind::BoolSeq, b"[", None),
    (Kind::BoolSeq, b"]", None),
    (Kind::BoolSeq, b"][", None),
    (Kind::BoolSeq, b"[true", None),
    (Kind::BoolSeq, b"true]", None),
    (Kind::BoolSeq, b"[[true]]", None),
    (Kind::BoolSeq, b"[[]]", None),
    (Kind::BoolSeq, b"true", None),
    (Kind::BoolSeq, b"[true\tfalse]", None),
    (Kind::BoolSeq, b"[\t]", None),
    (Kind::BoolSeq, b" []", None),
    (Kind::BoolSeq, b"[] ", None),
    (Kind::BoolSeq, b"[truefalse]", None),
];

/// Sequences of other kinds, likewise.
static SEQUENCES: [Case; 26] = [
    (Kind::IntSeq, b"[1 -2 true]", Some(b"[1 -2 1]")),
    (
        Kind::IntSeq,
        b"[-9223372036854775808 9223372036854775807]",
        Some(b"[-9223372036854775808 9223372036854775807]"),
    ),
    (Kind::IntSeq, b"[9223372036854775808 1]", Some(b"missing")),
    (Kind::IntSeq, b"[1 9223372036854775808 x]", None),
    (Kind::IntSeq, b"[1,2]", None),
    (Kind::IntSeq, b"[1 [2] 3]", None),
    (Kind::IntSeq, b"[1 null]", None),
    (Kind::IntSeq, b"[3.5]", None),
    (Kind::HashSeq, b"[null 31 0x1F]", Some(b"[null 0x1f 0x1f]")),
    (Kind::HashSeq, b"[-1 0]", Some(b"missing")),
    (Kind::HashSeq, b"[0x]", None),
    (
        Kind::StrSeq,
        b"[\"a\\\"]\" null \"b c\"]",
        Some(b"[\"a\\\"]\" null \"b c\"]"),
    ),
    (Kind::StrSeq, b"[ \"a\"   \"b\" ]", Some(b"[\"a\" \"b\"]")),
    (Kind::StrSeq, b"[\"]\"]", Some(b"[\"]\"]")),
    (Kind::StrSeq, b"[\"  \" \" \"]", Some(b"[\"  \" \" \"]")),
    (Kind::StrSeq, b"[\"\\\\\" \"a\"]", Some(b"[\"\\\\\" \"a\"]")),
    (Kind::StrSeq, b"[\"a\" missing]", Some(b"missing")),
    (Kind::StrSeq, b"[nonsensical]", Some(b"missing")),
    (Kind::StrSeq, b"[\"a\"\"b\"]", None),
    (Kind::StrSeq, b"[\"a\"null]", None),
    (Kind::StrSeq, b"[\"a\" \"b]", None),
    (Kind::StrSeq, b"[missing \"b]", None),
    (Kind::StrSeq, b"[\"a\"\t\"b\"]", None),
    (Kind::StrSeq, b"[\"a\\\"]", None),
    (Kind::StrSeq, b"[a]", None),
    (Kind::StrSeq, b"[\"a\nb\"]", None),
];

// Whether a value is kept and placed as it is.
fn is_placed_alike(alloc: Global, arena: &Arena, view: View<'_>) -> Result<bool, NoMemory> {
    let kept = Value::keep(alloc, view)?;
    let placed = kept.place(arena)?;
    Ok(same(view, placed))
}

// Whether two values are kept as one.
fn are_kept_alike(alloc: Global, one: View<'_>, other: View<'_>) -> Result<bool, NoMemory> {
    let kept = Value::keep(alloc, one)?;
    let again = Value::keep(alloc, other)?;
    Ok(same_kept(&kept, &again))
}

// A value of this kind, spelled, read again, kept and placed.
fn check_value(
    rt: &impl Abort,
    alloc: Global,
    arena: &Arena,
    kind: Kind,
    view: View<'_>,
    expected: &[u8],
) -> Result<(), Fail> {
    let spelled = spell(alloc, view)?;
    assert!(rt; spelled.as_slice() == expected);
    let again = parse_value(arena, kind, expected)?;
    assert!(rt; same(view, again));
    assert!(rt; is_placed_alike(alloc, arena, view)?);
    assert!(rt; are_kept_alike(alloc, view, again)?);
    Ok(())
}

fn check_case(rt: &impl Abort, alloc: Global, case: Case) -> Result<(), Fail> {
    let (kind, text, expected) = case;
    let arena = Arena::new(alloc);
    match (parse_value(&arena, kind, text), expected) {
        (Ok(view), Some(spelled)) => check_value(rt, alloc, &arena, kind, view, spelled)?,
        (found, wanted) => assert!(rt; found.err() == Some(ValueFault::Bad) && wanted.is_none()),
    }
    Ok(())
}

fn check_cases(rt: &impl Abort, alloc: Global, cases: &[Case]) -> Result<(), Fail> {
    for case in cases {
        check_case(rt, alloc, *case)?;
    }
    Ok(())
}

#[test]
fn texts_write_values(rt: HostRuntime) -> Result<(), Fail> {
    let alloc = rt.alloc();
    check_cases(&rt, alloc, &NO_VALUES)?;
    check_cases(&rt, alloc, &TRUTH_VALUES)?;
    check_cases(&rt, alloc, &WHOLE_NUMBERS)?;
    check_cases(&rt, alloc, &HASH_CODES)?;
    check_cases(&rt, alloc, &STRINGS)?;
    check_cases(&rt, alloc, &TRUTH_SEQUENCES)?;
    check_cases(&rt, alloc, &SEQUENCES)?;
    Ok(())
}

#[test]
fn lists_and_texts_grow(rt: HostRuntime) -> Result<(), Fail> {
    let mut list = List::from_slice(rt.alloc(), &[1u8, 2])?;
    list.push(3)?;
    assert!(rt; list == List::from_slice(rt.alloc(), &[1, 2, 3])?);
    assert!(rt; list.into_vec().as_slice() == [1, 2, 3].as_slice());
    let mut text = Text::from_slice(rt.alloc(), b"a")?;
    text.push(b'b')?;
    text.append(b"cd")?;
    assert!(rt; same_bytes(text.as_slice(), b"abcd") && !same_bytes(text.as_slice(), b"abc"));
    assert!(rt; same_items(&[1u8, 2], &[1, 2]) && !same_items(&[1u8, 2], &[2, 1]));
    assert!(rt; text.len() == 4 && !text.is_empty());
    assert!(rt; text == Text::from_slice(rt.alloc(), b"abcd")?);
    Ok(())
}

#[test]
fn texts_and_comparabilities_are_told(rt: HostRuntime) -> Result<(), Fail> {
    assert!(&rt;
        is_text(b"null") && is_text(b"\"a\\\"\"") && !is_text(b"\"a") && !is_text(b"missing")
    );
    let one = Compar { elem: 1, index: -1 };
    let other = Compar { elem: 2, index: -1 };
    let any = Compar { elem: -1, index: 3 };
    assert!(&rt; comparable(one, one) && !comparable(one, other) && comparable(any, other));
    Ok(())
}
