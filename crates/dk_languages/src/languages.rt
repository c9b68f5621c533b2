// The languages.

/// A language in which lines of a report are told.
#[derive(Clone, Copy, Debug, PartialEq, Eq)]
pub enum Language {
    /// Python 3.
    Python,
    /// C as GCC and Clang compile it: with whole numbers of 128 bits, `__auto_type` and statements in expressions.
    C,
    /// SMT-LIB 2.6, with `int2bv` of Z3 and cvc5 for the rows of single bits.
    Smtlib,
}
