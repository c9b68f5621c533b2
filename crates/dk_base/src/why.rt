// Why input is refused.
ghost use Rattle.std.specs.Prelude.{◌≡◌, Some};
ghost use Rattle.dk_base.specs.Refusals.{why_number, why_name, why_text};

use std::fmt;

/// Why input is refused. It is shown as its number and its name, as in `12 Truncated`.
#[derive(Clone, Copy, Debug, PartialEq, Eq)]
pub enum Why {
    /// A line has too many bytes in front of its LF.
    LongLine = 1,
    /// A header line is none that is allowed.
    BadHeader = 2,
    /// A point is not declared as the format says.
    BadPoint = 3,
    /// A variable is not declared as the format says.
    BadVariable = 4,
    /// Another block has declared a point of this name.
    DuplicatePoint = 5,
    /// The edges between the points have a cycle.
    CyclicParents = 6,
    /// No point of this name is declared.
    UnknownPoint = 7,
    /// The nonce of a call is no number.
    BadNonce = 8,
    /// A record's line is not the name of the variable that is due.
    WrongName = 9,
    /// A record's value is none of its variable's kind.
    BadValue = 10,
    /// A record's mark is none of `0`, `1` and `2`.
    BadMark = 11,
    /// A record ends before its last mark.
    Truncated = 12,
    /// A record goes on behind its last mark.
    ExtraLine = 13,
    /// No entry waits for an exit.
    UnmatchedExit = 14,
    /// There are more points than the table takes.
    TooManyPoints = 15,
    /// A point has more variables than the table takes.
    TooManyVariables = 16,
    /// The files of the run have too many bytes.
    TooLong = 17,
    /// A state file is not one that saving gives.
    BadState = 18,
    /// A state file to be merged has other declarations, another word or another grammar than the one before it.
    DifferentState = 19,
    /// What states come to together is none that can be saved.
    JoinedState = 20,
}

impl Why {
    /// Its number, from 1 to 20.
    pub fn number(self) -> u8
        ensures { result ≡ why_number self }
    {
        self as u8
    }

    /// Its name, as in `Truncated`.
    pub fn name(self) -> &'static str
        ensures { result.now ≡ why_name self }
    {
        match self {
            Why::LongLine => "LongLine",
            Why::BadHeader => "BadHeader",
            Why::BadPoint => "BadPoint",
            Why::BadVariable => "BadVariable",
            Why::DuplicatePoint => "DuplicatePoint",
            Why::CyclicParents => "CyclicParents",
            Why::UnknownPoint => "UnknownPoint",
            Why::BadNonce => "BadNonce",
            Why::WrongName => "WrongName",
            Why::BadValue => "BadValue",
            Why::BadMark => "BadMark",
            Why::Truncated => "Truncated",
            Why::ExtraLine => "ExtraLine",
            Why::UnmatchedExit => "UnmatchedExit",
            Why::TooManyPoints => "TooManyPoints",
            Why::TooManyVariables => "TooManyVariables",
            Why::TooLong => "TooLong",
            Why::BadState => "BadState",
            Why::DifferentState => "DifferentState",
            Why::JoinedState => "JoinedState",
        }
    }
}

impl fmt::Display for Why {
    ghost output = { λ why. Some (why_text why) };

    fn fmt<W: fmt::Write>(&self, f: &mut fmt::Formatter<W>) -> fmt::Result {
        let number = self.number();
        let name = self.name();
        write!(f, "{number} {name}")
    }
}
