// The blocks of one file, one after another.
ghost use Rattle.std.specs.Prelude.{◌≡◌, ◌<◌, true, drop, fold, length, take, if◌then◌else◌, IfOk, OnOk};
ghost use Rattle.dk_turns.specs.Blocks.{has_sample, plain_blocks, sample_blocks};
ghost use Rattle.dk_turns.specs.Reading.{behind_run, first_block, is_plain, trimmed_lines, with_block};

use crate::fronts::{has_sample, is_plain};
use crate::lines::next_line;
use crate::writing::push_block;
use dk_base::{NoMemory, Text};

// What is left behind the first blank line.
fn behind_run(bytes: &[u8]) -> &[u8]
    ensures lines { trimmed_lines result.now ≡ behind_run (trimmed_lines bytes.now) }
    ensures shorter { 0 < length bytes.now → length result.now < length bytes.now }
{
    let mut left = bytes;
    'run: while let Some((line, rest)) = next_line(left) {
        left = rest;
        if line.is_empty() {
            return left;
        }
    }
    left
}

// The first run of lines goes behind the text if it is a block without a sample.
fn push_if_plain(text: &mut Text, bytes: &[u8]) -> Result<(), NoMemory>
    ensures { let first = first_block (trimmed_lines bytes.now) in OnOk result (text.new ≡ (if is_plain first then with_block text.old first else text.old)) }
{
    if !is_plain(bytes) {
        return Ok(());
    }
    push_block(text, bytes)?;
    Ok(())
}

/// The blocks without a sample go behind the text.
pub(crate) fn push_plain_blocks(text: &mut Text, file: &[u8]) -> Result<(), NoMemory>
    ensures { OnOk result (text.new ≡ fold with_block text.old (plain_blocks file.now)) }
{
    let mut left = file;
    'runs: while !left.is_empty() {
        push_if_plain(text, left)?;
        left = behind_run(left);
    }
    Ok(())
}

// What is left from the next sample block on, or nothing where there is none.
fn from_sample(bytes: &[u8]) -> &[u8]
    ensures blocks { sample_blocks result.now ≡ sample_blocks bytes.now }
    ensures first { 0 < length result.now → has_sample (first_block (trimmed_lines result.now)) ≡ true }
{
    let mut left = bytes;
    'runs: while !left.is_empty() {
        if has_sample(left) {
            return left;
        }
        left = behind_run(left);
    }
    left
}

/// The next n sample blocks go behind the text, or all where there are no more. What is left of the file comes back; it is nothing where
/// no sample block is left.
pub(crate) fn push_sample_blocks<'a>(
    text: &mut Text,
    n: u64,
    file: &'a [u8],
) -> Result<&'a [u8], NoMemory>
    ensures text { OnOk result (text.new ≡ fold with_block text.old (take n (sample_blocks file.entry.now))) }
    ensures left { IfOk result (λ left. sample_blocks left.now ≡ drop n (sample_blocks file.entry.now)) }
    ensures some { IfOk result (λ left. 0 < length left.now → 0 < length (sample_blocks left.now)) }
{
    let mut left = from_sample(file);
    let mut wanted = n;
    'runs: while wanted > 0 && !left.is_empty() {
        push_block(text, left)?;
        left = from_sample(behind_run(left));
        wanted -= 1;
    }
    Ok(left)
}
