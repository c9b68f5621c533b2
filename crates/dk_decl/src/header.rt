// Header lines.
ghost use Rattle.std.specs.Prelude.{◌≡◌, false, Ok, Err, if◌then◌else◌};

use crate::line_words::{begins, operand};
use dk_base::{Why, same_bytes};

/// What the header lines so far have put in force.
///
/// `decl-version 2.0`, `var-comparability WORD` and `input-language ..` are header lines, and so are the line `VarComparability`
/// and the line behind it, which is a WORD. A WORD is `none` or `implicit`; it holds from its line on, until the next one.
#[derive(Clone, Copy, Debug)]
pub struct Header {
    pub(crate) implicit: bool,
    pub(crate) awaits_word: bool,
}

impl Header {
    ghost use Rattle.dk_decl.specs.Headers.{HeaderAnswers, awaits_word, comparability_word, first_header, header_line, is_implicit, with_text, with_word};

    /// Before any header line: the comparability word is `implicit`.
    pub fn new() -> Header
        ensures { result ≡ first_header }
    {
        Header {
            implicit: true,
            awaits_word: false,
        }
    }

    /// This comparability word is in force: `implicit`, or else `none`.
    pub fn with_word(implicit: bool) -> Header
        ensures { result ≡ with_word implicit }
    {
        Header {
            implicit,
            awaits_word: false,
        }
    }

    /// Whether the line is a header line, which then holds. It is refused as `BadHeader` where it is one that is not allowed.
    /// Only a header line that is taken changes anything.
    #[tactic(auto, unfolding(crate::specs::Headers::header_line))]
    pub fn line(&mut self, bytes: &[u8]) -> Result<bool, Why>
        ensures { HeaderAnswers (header_line self.old bytes.now) self.old result self.new }
    {
        if self.awaits_word {
            self.word(bytes)
        } else if same_bytes(bytes, b"VarComparability") {
            self.awaits_word = true;
            Ok(true)
        } else if begins(b"var-comparability", bytes) {
            self.word(operand(bytes))
        } else if begins(b"decl-version", bytes) {
            if same_bytes(operand(bytes), b"2.0") {
                Ok(true)
            } else {
                Err(Why::BadHeader)
            }
        } else {
            Ok(begins(b"input-language", bytes))
        }
    }

    // The comparability word is put in force.
    #[tactic(auto, unfolding(crate::specs::Headers::comparability_word))]
    fn word(&mut self, text: &[u8]) -> Result<bool, Why>
        ensures { HeaderAnswers (Some (with_text (comparability_word text.now))) self.old result self.new }
    {
        if same_bytes(text, b"implicit") {
            *self = Header {
                implicit: true,
                awaits_word: false,
            };
            Ok(true)
        } else if same_bytes(text, b"none") {
            *self = Header {
                implicit: false,
                awaits_word: false,
            };
            Ok(true)
        } else {
            Err(Why::BadHeader)
        }
    }

    /// The end of a block: it is refused as `BadHeader` exactly where the last header line was `VarComparability`.
    pub fn end(&mut self) -> Result<(), Why>
        ensures value { result ≡ (if awaits_word self.old then Err Why.BadHeader else Ok tt) }
        ensures unchanged { self.new ≡ self.old }
    {
        if !self.awaits_word {
            return Ok(());
        }
        Err(Why::BadHeader)
    }

    /// Whether the comparability word in force is `implicit`, and not `none`.
    pub fn implicit(&self) -> bool
        ensures { result ≡ is_implicit self.now }
    {
        self.implicit
    }
}
