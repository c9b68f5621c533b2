// The lines between reports.
ghost use Rattle.std.specs.Prelude.{◌≡◌, IfOk, string_bytes};
ghost use Rattle.dk_print.specs.Sections.{after_blocks_line, end_line};

use std::alloc::{AllocError, Global};

/// In front of a report by the way.
pub(crate) fn after_blocks_line(alloc: Global, blocks: u64) -> Result<String, AllocError>
    ensures { IfOk result (λ text. string_bytes text ≡ after_blocks_line blocks) }
{
    format!(in alloc; "--- after {blocks} blocks\n")
}

/// In front of the last report, where there are reports by the way.
pub(crate) fn end_line(alloc: Global, blocks: u64) -> Result<String, AllocError>
    ensures { IfOk result (λ text. string_bytes text ≡ end_line blocks) }
{
    format!(in alloc; "--- end after {blocks} blocks\n")
}
