// The table of the rows.
ghost use Rattle.std.specs.Prelude.{◌≡◌, length};
ghost use Rattle.dk_template.specs.Templates.{IsRow, info_of, is_base, is_plain, is_symmetric, roles_of, template_of};

use crate::RowId;
use Kind::{Bool, BoolSeq, Hash, HashSeq, Int, IntSeq, Str, StrSeq};
use Role::{Any, Base};
use StateForm::{Code, Greatest, Ints, Least, Line, Modulus, Offset, Plain, Plane, Texts, Truth};
use Symmetry::{All, Arguments, Fixed};
use Takes::{One, Three, Two};
use dk_base::Kind;

/// What a role of a row takes.
#[derive(Clone, Copy, Debug, PartialEq, Eq)]
pub enum Role {
    /// Any variable of the kind, also a derived one.
    Any(Kind),
    /// Base variables of the kind alone.
    Base(Kind),
}

/// What a row takes, role by role.
#[derive(Clone, Copy, Debug, PartialEq, Eq)]
pub enum Takes {
    One(Role),
    Two(Role, Role),
    Three(Role, Role, Role),
}

/// Which roles of a row may be exchanged.
#[derive(Clone, Copy, Debug, PartialEq, Eq)]
pub enum Symmetry {
    /// None.
    Fixed,
    /// All.
    All,
    /// The two behind the first one: the arguments of a function whose value is the first.
    Arguments,
}

/// The forms of states.
#[derive(Clone, Copy, Debug, PartialEq, Eq)]
pub enum StateForm {
    /// Whether each tuple satisfies a relation.
    Plain,
    /// The least of the values.
    Least,
    /// The greatest of the values.
    Greatest,
    /// The distinct numbers, if they are at most three.
    Ints,
    /// The truth value, if there is only one.
    Truth,
    /// The hash code, if there is only one.
    Code,
    /// The distinct texts, if they are at most three.
    Texts,
    /// The remainder that the values share by a modulus.
    Modulus,
    /// The line through all points.
    Line,
    /// The plane through all points.
    Plane,
    /// The number by which the elements of a second sequence are greater than those of a first.
    Offset,
}

/// What the table says of a row.
#[derive(Clone, Copy, Debug, PartialEq, Eq)]
pub struct Template {
    /// What it takes.
    pub takes: Takes,
    /// Which of its roles may be exchanged.
    pub symmetry: Symmetry,
    /// The form of its states.
    pub form: StateForm,
    /// Its place in the order of rules: a premise of a rule has a lower rank than the conclusion.
    pub rank: u8,
}

macro_rules! row {
    ($takes:expr, $symmetry:expr, $form:expr, $rank:expr) => {
        Template {
            takes: $takes,
            symmetry: $symmetry,
            form: $form,
            rank: $rank,
        }
    };
}

// The rows, the first one first.
const ROWS: &[Template] = &[
    row!(One(Any(Int)), Fixed, Ints, 0), // 1 OneOfInt: the values of x
    row!(One(Any(Int)), Fixed, Least, 0), // 2 LowerBound: the least value of x
    row!(One(Any(Int)), Fixed, Greatest, 0), // 3 UpperBound: the greatest value of x
    row!(One(Any(Int)), Fixed, Plain, 1), // 4 NonZero: x isn't 0
    row!(One(Any(Int)), Fixed, Modulus, 0), // 5 Modulus: the modulus of x
    row!(One(Any(Bool)), Fixed, Truth, 0), // 6 OneOfBool: the value of x
    row!(One(Any(Hash)), Fixed, Code, 0), // 7 OneOfHash: the value of x
    row!(One(Any(Hash)), Fixed, Plain, 0), // 8 NonNullHash: x isn't 0
    row!(One(Any(Str)), Fixed, Texts, 0), // 9 OneOfStr: the values of x
    row!(One(Any(Str)), Fixed, Plain, 0), // 10 NonNullStr: x isn't `null`
    row!(Two(Any(Int), Any(Int)), All, Plain, 0), // 11 EqInt: x = y
    row!(Two(Any(Int), Any(Int)), All, Plain, 1), // 12 NeInt: x differs from y
    row!(Two(Any(Int), Any(Int)), Fixed, Plain, 0), // 13 Lt: x < y
    row!(Two(Any(Int), Any(Int)), Fixed, Plain, 1), // 14 Le: x <= y
    row!(Two(Any(Int), Any(Int)), All, Line, 0), // 15 Linear: the line through the points (x, y)
    row!(Two(Base(Int), Base(Int)), Fixed, Plain, 2), // 16 Divides: y isn't 0 and divides x
    row!(Two(Base(Int), Base(Int)), Fixed, Plain, 1), // 17 Square: x = y * y
    row!(Two(Any(Bool), Any(Bool)), All, Plain, 0), // 18 EqBool: x = y
    row!(Two(Any(Bool), Any(Bool)), All, Plain, 0), // 19 NeBool: x differs from y
    row!(Two(Any(Hash), Any(Hash)), All, Plain, 0), // 20 EqHash: x = y
    row!(Two(Any(Hash), Any(Hash)), All, Plain, 0), // 21 NeHash: x differs from y
    row!(Two(Any(Str), Any(Str)), All, Plain, 0), // 22 EqStr: x = y
    row!(Two(Any(Str), Any(Str)), All, Plain, 0), // 23 NeStr: x differs from y
    row!(Three(Base(Int), Base(Int), Base(Int)), Arguments, Plain, 1), // 24 Sum: z = x + y
    row!(Three(Base(Int), Base(Int), Base(Int)), Fixed, Plain, 2), // 25 Difference: z = x - y
    row!(Three(Base(Int), Base(Int), Base(Int)), Arguments, Plain, 1), // 26 Product: z = x * y
    row!(Three(Base(Int), Base(Int), Base(Int)), Arguments, Plain, 2), // 27 Minimum: z is the smaller of x, y
    row!(Three(Base(Int), Base(Int), Base(Int)), Arguments, Plain, 2), // 28 Maximum: z is the greater of x, y
    row!(Three(Base(Int), Base(Int), Base(Int)), Fixed, Plain, 2), // 29 Quotient: y isn't 0, and z is x / y cut towards 0
    row!(Three(Base(Int), Base(Int), Base(Int)), Fixed, Plain, 3), // 30 Remainder: y isn't 0, and z is the remainder of x / y cut towards 0
    row!(Three(Base(Int), Base(Int), Base(Int)), Arguments, Plain, 1), // 31 And: z is the bitwise and of x, y
    row!(Three(Base(Int), Base(Int), Base(Int)), Arguments, Plain, 1), // 32 Or: z is the bitwise or of x, y
    row!(Three(Base(Int), Base(Int), Base(Int)), Arguments, Plain, 1), // 33 Xor: z is the bitwise exclusive or of x, y
    row!(Three(Base(Int), Base(Int), Base(Int)), Arguments, Plain, 3), // 34 Gcd: z is the greatest common divisor of x, y
    row!(One(Any(IntSeq)), Fixed, Ints, 0), // 35 EltOneOfInt: the elements of s
    row!(One(Any(IntSeq)), Fixed, Least, 0), // 36 EltLower: the least element of s
    row!(One(Any(IntSeq)), Fixed, Greatest, 0), // 37 EltUpper: the greatest element of s
    row!(One(Any(IntSeq)), Fixed, Plain, 1), // 38 EltNonZero: no element is 0
    row!(One(Any(IntSeq)), Fixed, Plain, 0), // 39 SortedLt: each element < the next
    row!(One(Any(IntSeq)), Fixed, Plain, 1), // 40 SortedLe: each element <= the next
    row!(One(Any(IntSeq)), Fixed, Plain, 0), // 41 SortedGt: each element > the next
    row!(One(Any(IntSeq)), Fixed, Plain, 1), // 42 SortedGe: each element >= the next
    row!(One(Any(IntSeq)), Fixed, Plain, 0), // 43 EltsEqual: each element = the next
    row!(One(Any(BoolSeq)), Fixed, Truth, 0), // 44 EltOneOfBool: the element of s
    row!(One(Any(HashSeq)), Fixed, Code, 0), // 45 EltOneOfHash: the element of s
    row!(One(Any(HashSeq)), Fixed, Plain, 0), // 46 EltNonNullHash: no element is 0
    row!(One(Any(StrSeq)), Fixed, Texts, 0), // 47 EltOneOfStr: the elements of s
    row!(One(Any(StrSeq)), Fixed, Plain, 0), // 48 EltNonNullStr: no element is `null`
    row!(Two(Base(Int), Base(IntSeq)), Fixed, Plain, 0), // 49 MemberInt: x is an element of s
    row!(Two(Base(Hash), Base(HashSeq)), Fixed, Plain, 0), // 50 MemberHash: x is an element of s
    row!(Two(Base(Str), Base(StrSeq)), Fixed, Plain, 0), // 51 MemberStr: x is an element of s
    row!(Two(Any(IntSeq), Base(Int)), Fixed, Plain, 0), // 52 EltEq: each element of s = x
    row!(Two(Any(IntSeq), Base(Int)), Fixed, Plain, 0), // 53 EltLt: each element of s < x
    row!(Two(Any(IntSeq), Base(Int)), Fixed, Plain, 1), // 54 EltLe: each element of s <= x
    row!(Two(Any(IntSeq), Base(Int)), Fixed, Plain, 0), // 55 EltGt: each element of s > x
    row!(Two(Any(IntSeq), Base(Int)), Fixed, Plain, 1), // 56 EltGe: each element of s >= x
    row!(Two(Any(IntSeq), Any(IntSeq)), All, Plain, 0), // 57 EqIntSeq: s = t
    row!(Two(Any(BoolSeq), Any(BoolSeq)), All, Plain, 0), // 58 EqBoolSeq: s = t
    row!(Two(Any(HashSeq), Any(HashSeq)), All, Plain, 0), // 59 EqHashSeq: s = t
    row!(Two(Any(StrSeq), Any(StrSeq)), All, Plain, 0), // 60 EqStrSeq: s = t
    row!(Two(Base(IntSeq), Base(IntSeq)), Fixed, Plain, 0), // 61 PairLt: equal lengths, and each element of s < its partner in t
    row!(Two(Base(IntSeq), Base(IntSeq)), Fixed, Plain, 1), // 62 PairLe: equal lengths, and each element of s <= its partner in t
    row!(Two(Base(IntSeq), Base(IntSeq)), Fixed, Plain, 2), // 63 SubsetInt: each element of s is one of t
    row!(Two(Base(HashSeq), Base(HashSeq)), Fixed, Plain, 1), // 64 SubsetHash: each element of s is one of t
    row!(Two(Base(StrSeq), Base(StrSeq)), Fixed, Plain, 1), // 65 SubsetStr: each element of s is one of t
    row!(Two(Base(IntSeq), Base(IntSeq)), All, Plain, 1), // 66 Reverse: s read backwards is t
    row!(Three(Base(Int), Base(Int), Base(Int)), All, Plane, 0), // 67 LinearTernary: the plane through the points (x, y, z)
    row!(Two(Base(IntSeq), Base(IntSeq)), All, Offset, 0), // 68 PairOffset: by how much the elements of t are greater than those of s
];

/// What the table says of a row.
pub fn template_at(row: RowId) -> Template
    requires { IsRow row }
    ensures { result ≡ template_of row }
{
    ROWS[row.0 as usize - 1]
}

/// A row in short.
#[derive(Clone, Copy, Debug, PartialEq, Eq)]
pub struct RowInfo {
    /// The number of its roles.
    pub arity: u8,
    /// Whether some of its roles may be exchanged.
    pub symmetric: bool,
    /// Whether every role takes base variables alone.
    pub base: bool,
    /// Whether it has a relation, so that its states are Empty, Holds and Broken.
    pub plain: bool,
    /// Its place in the order of rules.
    pub rank: u8,
}

impl Role {
    ghost use Rattle.dk_template.specs.Templates.{is_base as takes_base};

    /// The kind of the variables that it takes.
    pub fn kind(self) -> Kind
        ensures { result ≡ Rattle.dk_template.specs.Templates.kind_of self }
    {
        match self {
            Role::Any(kind) => kind,
            Role::Base(kind) => kind,
        }
    }

    /// Whether it takes base variables alone.
    pub fn is_base(self) -> bool
        ensures { result ≡ takes_base self }
    {
        matches!(self, Role::Base(_))
    }
}

/// A row in short.
pub fn info(row: RowId) -> RowInfo
    requires { IsRow row }
    ensures { result ≡ info_of row }
{
    let template = template_at(row);
    let (arity, base) = match template.takes {
        Takes::One(a) => (1, a.is_base()),
        Takes::Two(a, b) => (2, a.is_base() && b.is_base()),
        Takes::Three(a, b, c) => (3, a.is_base() && b.is_base() && c.is_base()),
    };
    RowInfo {
        arity,
        symmetric: !matches!(template.symmetry, Symmetry::Fixed),
        base,
        plain: matches!(template.form, StateForm::Plain),
        rank: template.rank,
    }
}
