// The facts of an instance.

/// What there is to say against an instance that holds. Each fact is one filter's.
#[derive(Clone, Copy, Debug, PartialEq, Eq)]
pub struct Facts {
    /// Its count is below the least number.
    pub few: bool,
    /// Its variables can't be compared.
    pub incomparable: bool,
    /// It speaks of a variable for which an earlier one stands.
    pub member: bool,
    /// It follows from others that hold.
    pub implied: bool,
    /// It speaks of a variable that has one value, and of another.
    pub constant: bool,
    /// It stands at a parent already.
    pub parent: bool,
}
