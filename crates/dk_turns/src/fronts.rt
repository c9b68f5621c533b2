// What stands in front of a block's record, and where that begins.
ghost use Rattle.std.specs.Prelude.{◌≡◌, is_some, unwrap_or};
ghost use Rattle.dk_turns.specs.Blocks.{begins_sample, behind_header, has_lines, has_sample};
ghost use Rattle.dk_turns.specs.Reading.{first_block, is_plain, trimmed_lines};

use crate::lines::next_line;
use dk_blocks::{is_comment, is_declaration, is_list_of_implementors};
use dk_decl::Header;

/// Whether it is a header line, also one that is refused; what it puts in force then holds.
pub(crate) fn takes_header(header: &mut Header, line: &[u8]) -> bool
    ensures taken { result ≡ is_some (behind_header header.old line.now) }
    ensures header { header.new ≡ unwrap_or (behind_header header.old line.now) header.old }
{
    match header.line(line) {
        Ok(is_header) => is_header,
        Err(_) => {
            *header = Header::with_word(header.implicit());
            true
        }
    }
}

// Whether a sample record begins at this line.
fn begins_sample(line: &[u8]) -> bool
    ensures { result ≡ begins_sample line.now }
{
    !is_declaration(line) && !is_list_of_implementors(line)
}

// Whether something is left of the first run of lines without the comments in front.
fn has_lines(bytes: &[u8]) -> bool
    ensures { result ≡ has_lines (first_block (trimmed_lines bytes.now)) }
{
    let mut left = bytes;
    'front: while let Some((line, rest)) = next_line(left) {
        if !is_comment(line) {
            return !line.is_empty();
        }
        left = rest;
    }
    false
}

/// Whether the first run of lines has a sample record.
pub(crate) fn has_sample(bytes: &[u8]) -> bool
    ensures { result ≡ has_sample (first_block (trimmed_lines bytes.now)) }
{
    let mut header = Header::new();
    let mut left = bytes;
    'front: while let Some((line, rest)) = next_line(left) {
        left = rest;
        if is_comment(line) {
            continue 'front;
        }
        if line.is_empty() {
            return false;
        }
        if !takes_header(&mut header, line) {
            return begins_sample(line);
        }
    }
    false
}

/// Whether the first run of lines is a block without a sample.
pub(crate) fn is_plain(bytes: &[u8]) -> bool
    ensures { result ≡ is_plain (first_block (trimmed_lines bytes.now)) }
{
    has_lines(bytes) && !has_sample(bytes)
}
