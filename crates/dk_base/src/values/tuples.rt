// The values of a tuple, by their roles.
ghost use Rattle.std.specs.Prelude.{◌≡◌, ◌<◌, length, map, Some};
ghost use Rattle.dk_base.specs.Values.{kind_of, values_of};
ghost use Rattle.dk_base.specs.Values.Tuples.{bool_of, bools_of, hash_of, hashes_of, int_of, ints_of, text_of, texts_of, value_at};

use crate::{Kind, View};

/// The truth value at a role of a tuple.
pub fn bool_at(tuple: &[View<'_>], role: usize) -> bool
    requires within { role < length tuple.now }
    requires kind { kind_of (value_at (values_of tuple.now) role) ≡ Some Kind.Bool }
    ensures { result ≡ bool_of (value_at (values_of tuple.now) role) }
{
    match tuple[role] {
        View::Bool(found) => found,
        _ => unreachable!(),
    }
}

/// The whole number at a role of a tuple.
pub fn int_at(tuple: &[View<'_>], role: usize) -> i64
    requires within { role < length tuple.now }
    requires kind { kind_of (value_at (values_of tuple.now) role) ≡ Some Kind.Int }
    ensures { result ≡ int_of (value_at (values_of tuple.now) role) }
{
    match tuple[role] {
        View::Int(found) => found,
        _ => unreachable!(),
    }
}

/// The hash code at a role of a tuple.
pub fn hash_at(tuple: &[View<'_>], role: usize) -> u64
    requires within { role < length tuple.now }
    requires kind { kind_of (value_at (values_of tuple.now) role) ≡ Some Kind.Hash }
    ensures { result ≡ hash_of (value_at (values_of tuple.now) role) }
{
    match tuple[role] {
        View::Hash(found) => found,
        _ => unreachable!(),
    }
}

/// The string at a role of a tuple.
pub fn text_at<'a>(tuple: &[View<'a>], role: usize) -> &'a [u8]
    requires within { role < length tuple.now }
    requires kind { kind_of (value_at (values_of tuple.now) role) ≡ Some Kind.Str }
    ensures { result.now ≡ text_of (value_at (values_of tuple.now) role) }
{
    match tuple[role] {
        View::Str(found) => found,
        _ => unreachable!(),
    }
}

/// The truth values at a role of a tuple.
pub fn bools_at<'a>(tuple: &[View<'a>], role: usize) -> &'a [bool]
    requires within { role < length tuple.now }
    requires kind { kind_of (value_at (values_of tuple.now) role) ≡ Some Kind.BoolSeq }
    ensures { result.now ≡ bools_of (value_at (values_of tuple.now) role) }
{
    match tuple[role] {
        View::BoolSeq(found) => found,
        _ => unreachable!(),
    }
}

/// The whole numbers at a role of a tuple.
pub fn ints_at<'a>(tuple: &[View<'a>], role: usize) -> &'a [i64]
    requires within { role < length tuple.now }
    requires kind { kind_of (value_at (values_of tuple.now) role) ≡ Some Kind.IntSeq }
    ensures { result.now ≡ ints_of (value_at (values_of tuple.now) role) }
{
    match tuple[role] {
        View::IntSeq(found) => found,
        _ => unreachable!(),
    }
}

/// The hash codes at a role of a tuple.
pub fn hashes_at<'a>(tuple: &[View<'a>], role: usize) -> &'a [u64]
    requires within { role < length tuple.now }
    requires kind { kind_of (value_at (values_of tuple.now) role) ≡ Some Kind.HashSeq }
    ensures { result.now ≡ hashes_of (value_at (values_of tuple.now) role) }
{
    match tuple[role] {
        View::HashSeq(found) => found,
        _ => unreachable!(),
    }
}

/// The strings at a role of a tuple.
pub fn texts_at<'a>(tuple: &[View<'a>], role: usize) -> &'a [&'a [u8]]
    requires within { role < length tuple.now }
    requires kind { kind_of (value_at (values_of tuple.now) role) ≡ Some Kind.StrSeq }
    ensures { map (λ t. t.now) result.now ≡ texts_of (value_at (values_of tuple.now) role) }
{
    match tuple[role] {
        View::StrSeq(found) => found,
        _ => unreachable!(),
    }
}
