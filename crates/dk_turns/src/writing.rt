// Blocks behind a text.
ghost use Rattle.std.specs.Prelude.{◌≡◌, [], ◌∷◌, ◌++◌, IfOk, OnOk};
ghost use Rattle.dk_turns.specs.Turns.{block_text, lines_text};
ghost use Rattle.dk_turns.specs.Reading.{first_block, first_run, trimmed_lines, with_block, with_gap};

use crate::fronts::takes_header;
use crate::lines::next_line;
use dk_base::{NoMemory, Text};
use dk_blocks::is_comment;
use dk_decl::Header;

// A line and the LF that ends it.
fn push_line(text: &mut Text, line: &[u8]) -> Result<(), NoMemory>
    ensures { OnOk result (text.new ≡ text.old ++ (line.now ++ 10 ∷ [])) }
{
    text.append(line)?;
    text.push(b'\n')?;
    Ok(())
}

// The lines up to the first blank one.
fn push_run(text: &mut Text, bytes: &[u8]) -> Result<(), NoMemory>
    ensures { OnOk result (text.new ≡ text.old ++ lines_text (first_run (trimmed_lines bytes.now))) }
{
    let mut left = bytes;
    'run: while let Some((line, rest)) = next_line(left) {
        if line.is_empty() {
            return Ok(());
        }
        push_line(text, line)?;
        left = rest;
    }
    Ok(())
}

// The header lines in front of a record. What is left begins with the record.
fn push_headers<'a>(text: &mut Text, bytes: &'a [u8]) -> Result<&'a [u8], NoMemory>
    ensures { IfOk result (λ left. text.new ++ lines_text (first_run (trimmed_lines left.now))
        ≡ text.old ++ block_text (first_block (trimmed_lines bytes.entry.now))) }
{
    let mut header = Header::new();
    let mut left = bytes;
    'front: while let Some((line, rest)) = next_line(left) {
        if is_comment(line) {
            left = rest;
            continue 'front;
        }
        if line.is_empty() {
            return Ok(left);
        }
        if !takes_header(&mut header, line) {
            return Ok(left);
        }
        push_line(text, line)?;
        left = rest;
    }
    Ok(left)
}

// A blank line behind the blocks of a text, if it has any.
fn push_gap(text: &mut Text) -> Result<(), NoMemory>
    ensures { OnOk result (text.new ≡ with_gap text.old) }
{
    if text.is_empty() {
        return Ok(());
    }
    text.push(b'\n')?;
    Ok(())
}

/// The first block of these bytes goes behind the text, and a blank line between them.
pub(crate) fn push_block(text: &mut Text, bytes: &[u8]) -> Result<(), NoMemory>
    ensures { OnOk result (text.new ≡ with_block text.old (first_block (trimmed_lines bytes.now))) }
{
    push_gap(text)?;
    let record = push_headers(text, bytes)?;
    push_run(text, record)?;
    Ok(())
}
