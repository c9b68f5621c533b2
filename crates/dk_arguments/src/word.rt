// Words of a command line.
ghost use Rattle.std.specs.Prelude.{◌≡◌, IfOk};

use dk_base::NoMemory;
use std::alloc::Global;
use std::marker::Model;

/// A word of a command line, or a part of one. Contracts see its bytes, which are UTF-8.
#[derive(Debug, Drop)]
pub struct Word {
    kept: String,
}

impl Model for Word {
    ghost use Rattle.std.specs.Prelude.{ℕ, List, string_bytes};

    ghost Value = { List ℕ };

    ghost view = { λ w. string_bytes w.kept };
}

impl Word {
    /// A word with the bytes of a text.
    pub fn from_str(alloc: Global, text: &str) -> Result<Word, NoMemory>
        ensures { IfOk result (λ word. word ≡ text.now) }
    {
        Ok(Word {
            kept: String::from_str(alloc, text)?,
        })
    }

    /// The word as the text that its bytes are.
    pub fn as_str(&self) -> &str
        ensures { result.now ≡ self.now }
    {
        self.kept.as_str()
    }
}
