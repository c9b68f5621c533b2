// What lines are, by their bytes.
ghost use Rattle.std.specs.Prelude.{◌≡◌};
ghost use Rattle.dk_claims.specs.Claims.{is_blank_line, is_remark, is_ruler};

use dk_base::is_blank;

/// Whether a line has blanks and tabs alone, or nothing.
pub(crate) fn is_blank_line(line: &[u8]) -> bool
    ensures { result ≡ is_blank_line line.now }
{
    line.iter().all(|byte| is_blank(*byte))
}

/// Whether a line that isn't blank has `=` alone.
pub(crate) fn is_ruler(line: &[u8]) -> bool
    ensures { result ≡ is_ruler line.now }
{
    line.iter().all(|byte| *byte == b'=')
}

/// Whether a line tells of blocks or of sizes, as lines of a report do that stand outside of its sections.
pub(crate) fn is_remark(line: &[u8]) -> bool
    ensures { result ≡ is_remark line.now }
{
    line.starts_with(b"--- ") || line.starts_with(b"stats ")
}
