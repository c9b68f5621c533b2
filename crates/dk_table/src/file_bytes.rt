// The bytes of a file that is read.
ghost use Rattle.std.specs.Prelude.{◌≡◌, IsTrue};
ghost use Rattle.dk_table.specs.Tables.Cutting.{IsUnquoted};

use crate::rows::lines::is_unquoted;
use dk_base::Text;
use std::marker::Model;

/// The bytes of a file, in which a quote is looked for once. Contracts see the bytes.
#[derive(Drop)]
pub(crate) struct FileBytes {
    bytes: Vec<u8>,
    is_unquoted: bool,
}

impl Model for FileBytes {
    ghost use Rattle.std.specs.Prelude.{List, ℕ, IsTrue};
    ghost use Rattle.dk_table.specs.Tables.Cutting.{IsUnquoted};

    ghost Value = { List ℕ };

    ghost view = { λ f. f.bytes.items };

    ghost invariant = { λ f. IsTrue f.is_unquoted → IsUnquoted f.bytes.items };
}

impl FileBytes {
    pub(crate) fn new(bytes: Text) -> FileBytes
        ensures { result ≡ bytes }
    {
        FileBytes::from_vec(bytes.into_vec())
    }

    pub(crate) fn from_vec(bytes: Vec<u8>) -> FileBytes
        ensures { result ≡ bytes.items }
    {
        let is_unquoted = is_unquoted(bytes.as_slice());
        FileBytes { bytes, is_unquoted }
    }

    pub(crate) fn as_slice(&self) -> &[u8]
        ensures { result.now ≡ self.now }
    {
        self.bytes.as_slice()
    }

    /// Whether none of the bytes is a quote.
    pub(crate) fn is_unquoted(&self) -> bool
        ensures { IsTrue result → IsUnquoted self.now }
    {
        self.is_unquoted
    }
}
