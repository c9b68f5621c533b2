// The lines of bytes in memory, one after another.
ghost use Rattle.std.specs.Prelude.{◌≡◌, ◌≤◌, ◌<◌, [], ◌∷◌, length, IfSome, MatchOption};
ghost use Rattle.dk_lines.specs.Cutting.{line_len};
ghost use Rattle.dk_lines.specs.Left.{without_cr};
ghost use Rattle.dk_turns.specs.Reading.{trimmed_lines};

use dk_base::trim_blanks;
use memchr::memchr;

// How many bytes stand in front of the first LF, or all.
fn lf_place(bytes: &[u8]) -> usize
    ensures len { result ≡ line_len bytes.now }
    ensures within { result ≤ length bytes.now }
{
    match memchr(b'\n', bytes) {
        Some(place) => place,
        None => bytes.len(),
    }
}

// Leaves one CR at the end out.
fn drop_cr(line: &[u8]) -> &[u8]
    ensures { result.now ≡ without_cr line.now }
{
    match line {
        [front @ .., b'\r'] => front,
        _ => line,
    }
}

/// The first line, without the blanks and tabs at its two ends, and what is left behind it; none where nothing is left.
pub(crate) fn next_line(bytes: &[u8]) -> Option<(&[u8], &[u8])>
    ensures first { MatchOption result (bytes.now ≡ []) (λ r. trimmed_lines bytes.now ≡ r.0.now ∷ trimmed_lines r.1.now) }
    ensures shorter { IfSome result (λ r. length r.1.now < length bytes.now) }
{
    if bytes.is_empty() {
        return None;
    }
    let len = lf_place(bytes);
    let behind = bytes.len().min(len + 1);
    Some((trim_blanks(drop_cr(&bytes[..len])), &bytes[behind..]))
}
