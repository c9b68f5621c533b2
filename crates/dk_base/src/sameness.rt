// Equality of values, of texts and of lists.
ghost use Rattle.std.specs.Prelude.{◌≡◌, ◌↔◌, Decides, IsTrue, bytes_eq, map};
ghost use Rattle.dk_base.specs.Values.{value_of};

use crate::{Value, View};

/// Whether the two texts have the same bytes.
pub fn same_bytes(a: &[u8], b: &[u8]) -> bool
    ensures { result ≡ bytes_eq a.now b.now }
{
    a == b
}

/// Whether the two slices have the same items, which `==` tells apart.
pub fn same_items<T: PartialEq>(a: &[T], b: &[T]) -> bool
    requires { (x y : T) → Decides (T.eq x y) (x ≡ y) }
    ensures { IsTrue result ↔ (a.now ≡ b.now) }
{
    a == b
}

fn same_texts(a: &[&[u8]], b: &[&[u8]]) -> bool
    ensures { IsTrue result ↔ (map (λ t. t.now) a.now ≡ map (λ t. t.now) b.now) }
{
    a == b
}

/// Whether the two are one value. The missing value is the same as itself alone.
pub fn same(a: View<'_>, b: View<'_>) -> bool
    ensures { IsTrue result ↔ (value_of a.entry ≡ value_of b.entry) }
{
    match a {
        View::Missing => matches!(b, View::Missing),
        View::Bool(x) => match b {
            View::Bool(y) => x == y,
            _ => false,
        },
        View::Int(x) => match b {
            View::Int(y) => x == y,
            _ => false,
        },
        View::Hash(x) => match b {
            View::Hash(y) => x == y,
            _ => false,
        },
        View::Str(x) => match b {
            View::Str(y) => same_items(x, y),
            _ => false,
        },
        View::BoolSeq(x) => match b {
            View::BoolSeq(y) => same_items(x, y),
            _ => false,
        },
        View::IntSeq(x) => match b {
            View::IntSeq(y) => same_items(x, y),
            _ => false,
        },
        View::HashSeq(x) => match b {
            View::HashSeq(y) => same_items(x, y),
            _ => false,
        },
        View::StrSeq(x) => match b {
            View::StrSeq(y) => same_texts(x, y),
            _ => false,
        },
    }
}

/// Whether the two kept values are one value. The missing value is the same as itself alone.
pub fn same_kept(a: &Value, b: &Value) -> bool
    ensures { IsTrue result ↔ (a.now ≡ b.now) }
{
    match a {
        Value::Missing => matches!(b, Value::Missing),
        Value::Bool(x) => match b {
            Value::Bool(y) => *x == *y,
            _ => false,
        },
        Value::Int(x) => match b {
            Value::Int(y) => *x == *y,
            _ => false,
        },
        Value::Hash(x) => match b {
            Value::Hash(y) => *x == *y,
            _ => false,
        },
        Value::Str(x) => match b {
            Value::Str(y) => same_items(x.as_slice(), y.as_slice()),
            _ => false,
        },
        Value::BoolSeq(x) => match b {
            Value::BoolSeq(y) => same_items(x.as_slice(), y.as_slice()),
            _ => false,
        },
        Value::IntSeq(x) => match b {
            Value::IntSeq(y) => same_items(x.as_slice(), y.as_slice()),
            _ => false,
        },
        Value::HashSeq(x) => match b {
            Value::HashSeq(y) => same_items(x.as_slice(), y.as_slice()),
            _ => false,
        },
        Value::StrSeq(x) => match b {
            Value::StrSeq(y) => same_items(x.as_slice(), y.as_slice()),
            _ => false,
        },
    }
}
