// The words of a line.
ghost use Rattle.std.specs.Prelude.{◌≡◌, IfOk, map};
ghost use Rattle.dk_decl.specs.LineWords.{begins, operand, operands};

use dk_base::{NoMemory, first_word, rest_of_line, same_bytes, words};
use std::alloc::Global;

/// Whether this is the line's first word.
#[tactic(auto, unfolding(crate::specs::LineWords::begins))]
pub(crate) fn begins(word: &[u8], bytes: &[u8]) -> bool
    ensures { result ≡ begins word.now bytes.now }
{
    same_bytes(first_word(bytes), word)
}

/// What stands behind the first word of the line.
#[tactic(auto, unfolding(crate::specs::LineWords::operand))]
pub(crate) fn operand(bytes: &[u8]) -> &[u8]
    ensures { result.now ≡ operand bytes.now }
{
    rest_of_line(bytes)
}

/// The words behind the first word of the line.
#[tactic(auto, unfolding(crate::specs::LineWords::operands))]
pub(crate) fn operands(alloc: Global, bytes: &[u8]) -> Result<Vec<&[u8]>, NoMemory>
    ensures { IfOk result (λ found. map (λ word. word.now) found.items ≡ operands bytes.entry.now) }
{
    words(alloc, rest_of_line(bytes))
}
