// Blanks and words of a line.
ghost use Rattle.std.specs.Prelude.{◌≡◌, ◌≤◌, IfOk, length, map, reverse};
ghost use Rattle.dk_base.specs.Words.{first_word, rest_of_line, trim_blanks, without_front, word_len, words};

use crate::NoMemory;
use crate::splitting::{Cut, is_blank, next_piece};
use std::alloc::Global;

fn drop_front(bytes: &[u8]) -> &[u8]
    ensures { result.now ≡ without_front bytes.now }
{
    let mut left = bytes;
    'front: while let [first, rest @ ..] = left {
        if !is_blank(*first) {
            return left;
        }
        left = rest;
    }
    left
}

fn drop_back(bytes: &[u8]) -> &[u8]
    ensures { result.now ≡ reverse (without_front (reverse bytes.now)) }
{
    let mut left = bytes;
    'back: while let [rest @ .., last] = left {
        if !is_blank(*last) {
            return left;
        }
        left = rest;
    }
    left
}

/// The line without the blanks and tabs at its two ends.
pub fn trim_blanks(bytes: &[u8]) -> &[u8]
    ensures { result.now ≡ trim_blanks bytes.now }
{
    drop_back(drop_front(bytes))
}

fn word_len(bytes: &[u8]) -> usize
    ensures value { result ≡ word_len bytes.now }
    ensures within { result ≤ length bytes.now }
{
    for (i, byte) in bytes.iter().enumerate() {
        if is_blank(*byte) {
            return i;
        }
    }
    bytes.len()
}

/// The first word of a line that begins with no blank or tab.
pub fn first_word(bytes: &[u8]) -> &[u8]
    ensures { result.now ≡ first_word bytes.now }
{
    &bytes[..word_len(bytes)]
}

/// What follows the first word of such a line and the blanks and tabs behind it.
pub fn rest_of_line(bytes: &[u8]) -> &[u8]
    ensures { result.now ≡ rest_of_line bytes.now }
{
    drop_front(&bytes[word_len(bytes)..])
}

/// The words of a line: the longest runs of bytes that are neither blank nor tab.
pub fn words(alloc: Global, bytes: &[u8]) -> Result<Vec<&[u8]>, NoMemory>
    ensures { IfOk result (λ found. map (λ word. word.now) found.items ≡ words bytes.entry.now) }
{
    let mut found = Vec::new(alloc);
    let mut left = bytes;
    'words: while let Some((word, rest)) = next_piece(Cut::AtBlanksAndTabs, left) {
        found.push(word)?;
        left = rest;
    }
    Ok(found)
}
