// Lists of bytes.
ghost use Rattle.std.specs.Prelude.{◌≡◌, ◌==◌, [], ◌∷◌, ◌++◌, IfOk, OnOk, OnErr, length};

use crate::NoMemory;
use itoa::{Buffer, Integer};
use std::alloc::Global;
use std::marker::Model;

/// Bytes, which contracts see as a list.
#[derive(Debug, Drop)]
pub struct Text {
    kept: Vec<u8>,
}

impl Model for Text {
    ghost use Rattle.std.specs.Prelude.{ℕ, List};

    ghost Value = { List ℕ };

    ghost view = { λ t. t.kept.items };
}

impl Text {
    /// No bytes. It takes no memory.
    pub fn new(alloc: Global) -> Text
        ensures { result ≡ [] }
    {
        Text {
            kept: Vec::new(alloc),
        }
    }

    /// A text with the bytes of a slice.
    pub fn from_slice(alloc: Global, items: &[u8]) -> Result<Text, NoMemory>
        ensures { IfOk result (λ text. text ≡ items.now) }
    {
        Ok(Text {
            kept: Vec::from_slice(alloc, items)?,
        })
    }

    /// The byte goes last. A refused push leaves the text as it was.
    pub fn push(&mut self, item: u8) -> Result<(), NoMemory>
        ensures ok { OnOk result (self.new ≡ self.old ++ item ∷ []) }
        ensures err { OnErr result (self.new ≡ self.old) }
    {
        self.kept.push(item)?;
        Ok(())
    }

    /// These bytes go last. A refused call leaves the text as it was.
    pub fn append(&mut self, items: &[u8]) -> Result<(), NoMemory>
        ensures ok { OnOk result (self.new ≡ self.old ++ items.now) }
        ensures err { OnErr result (self.new ≡ self.old) }
    {
        self.kept.extend_from_slice(items)?;
        Ok(())
    }

    /// The decimal numeral of the number goes last. A refused call leaves the text as it was.
    pub fn append_number<I: Integer>(&mut self, number: I) -> Result<(), NoMemory>
        ensures ok { OnOk result (self.new ≡ self.old ++ I.text number) }
        ensures err { OnErr result (self.new ≡ self.old) }
    {
        let mut buffer = Buffer::new();
        self.append(buffer.format(number).as_bytes())
    }

    /// How many bytes there are.
    pub fn len(&self) -> usize
        ensures { result ≡ length self.now }
    {
        self.kept.len()
    }

    /// Whether there are no bytes.
    pub fn is_empty(&self) -> bool
        ensures { result ≡ (length self.now == 0) }
    {
        self.kept.is_empty()
    }

    /// All bytes of the text, as they stand in its memory.
    pub fn as_slice(&self) -> &[u8]
        ensures { result.now ≡ self.now }
    {
        self.kept.as_slice()
    }

    /// The bytes, with the memory that they lie in.
    pub fn into_vec(self) -> Vec<u8>
        ensures { result.items ≡ self }
    {
        self.kept
    }
}

impl PartialEq for Text {
    ghost use Rattle.std.specs.Prelude.{nat_eq};
    ghost use Rattle.std.specs.Cmp.{partial_equiv_from_equiv};
    ghost use Rattle.std.specs.Cmp.Lexicographic.{nat_list_eq_equiv, pointwise};

    ghost eq = { pointwise nat_eq };

    ghost laws = { partial_equiv_from_equiv nat_list_eq_equiv };

    fn eq(&self, other: &Self) -> bool {
        self.as_slice() == other.as_slice()
    }
}

impl Eq for Text {
    ghost use Rattle.std.specs.Cmp.Lexicographic.{nat_list_eq_equiv};

    ghost laws = { nat_list_eq_equiv };
}
