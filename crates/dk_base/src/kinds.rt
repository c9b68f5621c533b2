// Kinds of values, and what the layers above name variables and points by.
ghost use Rattle.std.specs.Prelude.{◌≡◌};
ghost use Rattle.dk_base.specs.Comparability.{comparable as are_comparable};

use crate::Text;

/// The kinds of values: truth values, whole numbers, hash codes and strings, and sequences of them.
#[derive(Clone, Copy, Debug, PartialEq, Eq)]
pub enum Kind {
    /// `true` or `false`.
    Bool,
    /// A whole number from -2^63 to 2^63 - 1.
    Int,
    /// A hash code below 2^64; 0 is that of `null`.
    Hash,
    /// A string, kept as it is spelled, quotes included.
    Str,
    /// A sequence of truth values.
    BoolSeq,
    /// A sequence of whole numbers.
    IntSeq,
    /// A sequence of hash codes.
    HashSeq,
    /// A sequence of strings.
    StrSeq,
}

/// A point, by its place among the points of the table.
#[derive(Clone, Copy, Debug, Default, PartialEq, Eq, PartialOrd, Ord, Hash)]
pub struct PointId(pub u32);

/// A variable, by its place among the variables of its point.
#[derive(Clone, Copy, Debug, Default, PartialEq, Eq, PartialOrd, Ord, Hash)]
pub struct VarId(pub u32);

/// What a variable may be compared with: the number of its values or elements, and that of its indices. A negative number goes with all.
#[derive(Clone, Copy, Debug, PartialEq, Eq)]
pub struct Compar {
    pub elem: i64,
    pub index: i64,
}

/// Whether two variables are comparable: their element numbers are equal, or one of them is negative.
pub fn comparable(a: Compar, b: Compar) -> bool
    ensures { result ≡ are_comparable a b }
{
    a.elem == b.elem || a.elem < 0 || b.elem < 0
}

/// How a variable comes from the record: it is declared, it is the value that a declared one had at the entry, or it is
/// derived from a sequence, or from a sequence and a whole number as an index.
#[derive(Clone, Copy, Debug, PartialEq, Eq)]
pub enum Form {
    /// The variable stands in the declaration itself.
    Declared,
    /// What a declared one had at the entry.
    Orig,
    /// The number of elements.
    Size(VarId),
    /// The first element of the sequence that is the variable's value.
    First(VarId),
    /// The last element of the sequence that is the variable's value.
    Last(VarId),
    /// The element at the index.
    At(VarId, VarId),
    /// The elements up to the index.
    Upto(VarId, VarId),
    /// The elements before the index.
    Before(VarId, VarId),
    /// The elements from the index on.
    Since(VarId, VarId),
    /// The elements after the index.
    After(VarId, VarId),
}

/// A variable of a point.
#[derive(Debug, Drop, PartialEq, Eq)]
pub struct VarInfo {
    pub name: Text,
    pub kind: Kind,
    pub form: Form,
    pub compar: Compar,
}
