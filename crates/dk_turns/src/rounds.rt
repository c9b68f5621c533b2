// Sample blocks of several files in turns.
ghost use Rattle.std.specs.Prelude.{◌≡◌, ◌≤◌, ◌<◌, [], ◌∷◌, ◌++◌, drop, flat_map, fold, length, map, take, IfOk, OnOk};
ghost use Rattle.dk_turns.specs.Blocks.{sample_blocks};
ghost use Rattle.dk_turns.specs.Reading.{some_left, with_block};
ghost use Rattle.dk_turns.specs.Turns.{in_rounds, turns_of};

use crate::files::{push_plain_blocks, push_sample_blocks};
use dk_base::{List, NoMemory, Text};
use std::alloc::Global;

// What is left of a file goes behind that of others, if it is anything.
fn keep_some<'a>(left: &mut Vec<&'a [u8]>, file: &'a [u8]) -> Result<(), NoMemory>
    requires { 0 < length file.now → 0 < length (sample_blocks file.now) }
    ensures { OnOk result (map (λ file. sample_blocks file.now) left.new.items
        ≡ map (λ file. sample_blocks file.now) left.old.items ++ some_left (sample_blocks file.entry.now ∷ [])) }
{
    if file.is_empty() {
        return Ok(());
    }
    left.push(file)?;
    Ok(())
}

// One round: the next n sample blocks of each file go behind the text. What is left of the files comes back, without those that are over.
fn push_round<'a>(
    alloc: Global,
    text: &mut Text,
    n: u64,
    files: &[&'a [u8]],
) -> Result<Vec<&'a [u8]>, NoMemory>
    ensures text { OnOk result (text.new ≡ fold with_block text.old (flat_map (take n) (map (λ file. sample_blocks file.now) files.now))) }
    ensures left { IfOk result (λ left. map (λ file. sample_blocks file.now) left.items
        ≡ some_left (map (drop n) (map (λ file. sample_blocks file.now) files.now))) }
{
    let mut left = Vec::new(alloc);
    for file in files {
        let rest = push_sample_blocks(text, n, file)?;
        keep_some(&mut left, rest)?;
    }
    Ok(left)
}

// The sample blocks of all files go behind the text, in rounds until none is left.
fn push_rounds(alloc: Global, text: &mut Text, n: u64, files: Vec<&[u8]>) -> Result<(), NoMemory>
    requires { 0 < n }
    ensures { OnOk result (text.new ≡ fold with_block text.old (in_rounds n (map (λ file. sample_blocks file.now) files.entry.items))) }
{
    let mut left = files;
    'rounds: while !left.is_empty() {
        left = push_round(alloc, text, n, &left)?;
    }
    Ok(())
}

/// The files as one text: file by file the blocks without a sample, and then `n` sample blocks of the first file, `n` of the second
/// and so on, in rounds until none is left. A block keeps its header lines and those of its record, without the blanks and tabs at
/// their ends; comments in front of these are left out. One blank line stands between two blocks, and each line is ended by LF.
pub fn turns(alloc: Global, n: u32, files: &List<Text>) -> Result<Text, NoMemory>
    requires { 1 ≤ n }
    ensures { IfOk result (λ text. text ≡ turns_of n files.now) }
{
    in_turns(alloc, u64::from(n), files)
}

/// The same for a number of 64 bits, as arguments tell it.
pub fn in_turns(alloc: Global, n: u64, files: &List<Text>) -> Result<Text, NoMemory>
    requires { 1 ≤ n }
    ensures { IfOk result (λ text. text ≡ turns_of n files.now) }
{
    let mut text = Text::new(alloc);
    let mut left = Vec::new(alloc);
    for file in files.as_slice() {
        push_plain_blocks(&mut text, file.as_slice())?;
        left.push(file.as_slice())?;
    }
    push_rounds(alloc, &mut text, n, left)?;
    Ok(text)
}
