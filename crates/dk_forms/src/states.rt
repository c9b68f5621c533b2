// What is known of a list of tuples.
ghost use Rattle.std.specs.Prelude.{◌≡◌, IfOk, OnErr};

use crate::Few;
use crate::few::texts::copies;
use dk_base::{List, NoMemory, Text};
use std::alloc::Global;

/// What a row of the grammar knows of a list of tuples. Numbers are exact.
#[derive(Debug, Drop, PartialEq, Eq)]
pub enum State {
    /// There are no tuples, or no values.
    Empty,
    /// Nothing that the row could say is so of all tuples.
    Broken,
    /// Each tuple satisfies the relation.
    Holds,
    /// The least of the values.
    Least(i64),
    /// The greatest of the values.
    Greatest(i64),
    /// The distinct values, ascending: one to three.
    Ints(Few),
    /// The one truth value.
    Truth(bool),
    /// The one hash code.
    Code(u64),
    /// The distinct values, ascending by their bytes: one to three.
    Texts(List<Text>),
    /// The one value, which has no modulus yet.
    One(i64),
    /// Each value leaves the remainder `r` by `m`, which is at least 2 and as great as can be.
    Modulus {
        m: u64,
        r: u64,
    },
    /// The one point that all samples have had.
    Spot {
        x: i64,
        y: i64,
    },
    /// The points lie on the line `a * x + b * y + c = 0`, in lowest terms, the first of `a`, `b` that isn't 0 positive.
    Straight {
        a: i128,
        b: i128,
        c: i128,
    },
    /// The points lie on one line; the least and the greatest of them by x, then y, then z.
    Span {
        x1: i64,
        y1: i64,
        z1: i64,
        x2: i64,
        y2: i64,
        z2: i64,
    },
    /// The points lie in the plane `a * x + b * y + c * z + d = 0`, in lowest terms, the first of `a`, `b`, `c` that isn't 0 positive.
    Plane {
        a: i128,
        b: i128,
        c: i128,
        d: i128,
    },
    /// Each element of the second sequence is `k` more than its partner in the first.
    Offset {
        k: i128,
    },
}

impl State {
    ghost use Rattle.dk_forms.specs.Copies.{IsTexts};

    /// An equal state. Only one of texts wants memory.
    pub fn copy(&self, alloc: Global) -> Result<State, NoMemory>
        ensures ok { IfOk result (λ state. state ≡ self.now) }
        ensures err { OnErr result (IsTexts self.now) }
    {
        Ok(match self {
            State::Empty => State::Empty,
            State::Broken => State::Broken,
            State::Holds => State::Holds,
            State::Least(x) => State::Least(*x),
            State::Greatest(x) => State::Greatest(*x),
            State::Ints(few) => State::Ints(Few::of(alloc, few.as_slice())),
            State::Truth(b) => State::Truth(*b),
            State::Code(h) => State::Code(*h),
            State::Texts(texts) => State::Texts(copies(alloc, texts.as_slice())?),
            State::One(x) => State::One(*x),
            State::Modulus { m, r } => State::Modulus { m: *m, r: *r },
            State::Spot { x, y } => State::Spot { x: *x, y: *y },
            State::Straight { a, b, c } => State::Straight {
                a: *a,
                b: *b,
                c: *c,
            },
            State::Span {
                x1,
                y1,
                z1,
                x2,
                y2,
                z2,
            } => State::Span {
                x1: *x1,
                y1: *y1,
                z1: *z1,
                x2: *x2,
                y2: *y2,
                z2: *z2,
            },
            State::Plane { a, b, c, d } => State::Plane {
                a: *a,
                b: *b,
                c: *c,
                d: *d,
            },
            State::Offset { k } => State::Offset { k: *k },
        })
    }
}
