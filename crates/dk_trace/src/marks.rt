// A value and its mark.
ghost use Rattle.std.specs.Prelude.{◌≡◌, ◌∷◌, [], IfOk};
ghost use Rattle.std.specs.Str.{bytes_eq};
ghost use Rattle.dk_base.specs.Reading.{Line};
ghost use Rattle.dk_trace.specs.Answers.{Shows, shown_value};
ghost use Rattle.dk_trace.specs.Marks.{marked_value};

use dk_base::{Arena, BlockFault, Kind, NoMemory, ValueFault, View, Why, parse_value};

/// What the text of a value says, until its mark is read.
#[derive(Clone, Copy)]
pub(crate) enum Unmarked<'a> {
    /// The variable is opaque: its text is read past.
    Opaque,
    /// The text writes this value.
    Value(View<'a>),
    /// The text at this line writes no value of the variable's kind.
    NoValue(u64),
}

/// The block is refused at this line.
pub(crate) fn refuse(line: u64, why: Why) -> BlockFault
    ensures { result ≡ BlockFault.Refused line why }
{
    BlockFault::Refused { line, why }
}

// Whether the text is this one byte.
#[tactic(auto, using(crate::proofs::Marked::empty_is_no_byte, crate::proofs::Marked::one_byte, crate::proofs::Marked::more_is_no_byte))]
fn is_byte(text: &[u8], byte: u8) -> bool
    ensures { result ≡ bytes_eq text.now (byte ∷ []) }
{
    match text {
        [] => false,
        [only] => *only == byte,
        [_, _, ..] => false,
    }
}

impl<'a> Unmarked<'a> {
    ghost use Rattle.dk_trace.specs.MarksResumed.{missing_of, said_by, with_mark};

    /// What a text at this line says of a variable of this kind. A bad text is no fault until its mark is read.
    #[tactic(auto, unfolding(crate::specs::Marks::marked_value, crate::specs::Marks::read_value, crate::specs::MarksResumed::with_mark))]
    pub(crate) fn read(
        arena: &'a Arena,
        kind: Option<Kind>,
        line: u64,
        text: &[u8],
    ) -> Result<Unmarked<'a>, NoMemory>
        ensures { IfOk result (λ u. (mark : Line) → marked_value kind (record { number = line; bytes = text.now }) mark ≡ with_mark u mark) }
    {
        let Some(kind) = kind else {
            return Ok(Unmarked::Opaque);
        };
        match parse_value(arena, kind, text) {
            Ok(view) => Ok(Unmarked::Value(view)),
            Err(ValueFault::Bad) => Ok(Unmarked::NoValue(line)),
            Err(ValueFault::NoMemory) => Err(NoMemory),
        }
    }

    // The missing value; none for an opaque variable.
    pub(crate) fn missing(self) -> Option<View<'a>>
        ensures { shown_value result ≡ missing_of self.entry }
    {
        match self {
            Unmarked::Opaque => None,
            Unmarked::Value(_) => Some(View::Missing),
            Unmarked::NoValue(_) => Some(View::Missing),
        }
    }

    // The value that the text writes; none for an opaque variable.
    pub(crate) fn value(self) -> Result<Option<View<'a>>, BlockFault>
        ensures { Shows shown_value result (said_by self.entry) }
    {
        match self {
            Unmarked::Opaque => Ok(None),
            Unmarked::Value(view) => Ok(Some(view)),
            Unmarked::NoValue(line) => Err(refuse(line, Why::BadValue)),
        }
    }

    /// The value with the mark at this line; none for an opaque variable.
    #[tactic(auto, unfolding(crate::specs::MarksResumed::with_mark))]
    pub(crate) fn with_mark(self, line: u64, mark: &[u8]) -> Result<Option<View<'a>>, BlockFault>
        ensures { Shows shown_value result (with_mark self.entry (record { number = line; bytes = mark.now })) }
    {
        if is_byte(mark, b'2') {
            Ok(self.missing())
        } else if is_byte(mark, b'0') || is_byte(mark, b'1') {
            self.value()
        } else {
            Err(refuse(line, Why::BadMark))
        }
    }
}
