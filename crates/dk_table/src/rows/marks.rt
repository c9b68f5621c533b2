// The bytes that end cells, 64 at a time.
ghost use Rattle.std.specs.Prelude.{◌≡◌, ◌≢◌, ◌≤◌, ◌<◌, ◌+◌, ◌==◌, ℕ, length, min, slice_index, if◌then◌else◌};
ghost use Rattle.std.specs.Int.{bit_at};
ghost use Rattle.dk_table.specs.Tables.Marks.{AreAhead, HasBytes, IsMask, IsNextEnd, ends_cell};

use std::simd::prelude::*;

/// How many bytes a block has: one for each bit of a mask.
const BLOCK: usize = 64;

fn ends_cell(separator: u8, byte: u8) -> bool
    ensures { result ≡ ends_cell separator byte }
{
    byte == separator || byte == b'\r' || byte == b'\n'
}

// The bytes of a block.
#[inline(always)]
fn lanes_of(bytes: &[u8], block: usize) -> u8x64
    requires { block + 64 ≤ length bytes.now }
    ensures { HasBytes bytes.now block result }
{
    u8x64::from_slice(&bytes[block..])
}

// The bits of the lanes that are this byte.
#[inline(always)]
fn mask_of_byte(lanes: u8x64, byte: u8) -> u64
    ensures { (k : ℕ) → k < 64 → bit_at result k ≡ (if slice_index lanes k == byte then 1 else 0) }
{
    lanes.simd_eq(u8x64::splat(byte)).to_bitmask()
}

// The mask of a whole block.
#[inline(always)]
fn mask_of_block(separator: u8, bytes: &[u8], block: usize) -> u64
    requires { block + 64 ≤ length bytes.now }
    ensures { IsMask separator bytes.now block result }
{
    let lanes = lanes_of(bytes, block);
    mask_of_byte(lanes, separator) | mask_of_byte(lanes, b'\r') | mask_of_byte(lanes, b'\n')
}

#[inline(always)]
fn with_bit(mask: u64, bit: usize) -> u64
    requires { bit < 64 }
    ensures set { bit_at result bit ≡ 1 }
    ensures kept { (k : ℕ) → k ≢ bit → bit_at result k ≡ bit_at mask k }
{
    mask | (1 << bit)
}

// The mask of a last block, which has fewer bytes.
fn mask_of_rest(separator: u8, bytes: &[u8], block: usize) -> u64
    requires begins { block ≤ length bytes.now }
    requires short { length bytes.now < block + 64 }
    ensures { IsMask separator bytes.now block result }
{
    let mut mask = 0;
    for bit in 0..bytes.len() - block {
        if ends_cell(separator, bytes[block + bit]) {
            mask = with_bit(mask, bit);
        }
    }
    mask
}

// The mask of the block that begins at a place.
#[inline(always)]
fn mask_of(separator: u8, bytes: &[u8], block: usize) -> u64
    requires { block ≤ length bytes.now }
    ensures { IsMask separator bytes.now block result }
{
    if bytes.len() - block >= BLOCK {
        mask_of_block(separator, bytes, block)
    } else {
        mask_of_rest(separator, bytes, block)
    }
}

#[inline(always)]
fn lowest(mask: u64) -> usize
    requires { mask ≢ 0 }
    ensures bound { result < 64 }
    ensures set { bit_at mask result ≡ 1 }
    ensures below { (k : ℕ) → k < result → bit_at mask k ≡ 0 }
{
    mask.trailing_zeros() as usize
}

#[inline(always)]
fn without(mask: u64, bit: usize) -> u64
    requires { bit < 64 }
    ensures cleared { bit_at result bit ≡ 0 }
    ensures kept { (k : ℕ) → k < 64 → k ≢ bit → bit_at result k ≡ bit_at mask k }
{
    mask & !(1 << bit)
}

/// Where the next byte that ends a cell is looked for, and the bytes of a block that do and are still ahead, a bit for each.
#[derive(Clone, Copy, Debug)]
pub(crate) struct Marks {
    place: usize,
    block: usize,
    ahead: u64,
}

impl Marks {
    /// Those from the beginning of the bytes on.
    pub(crate) fn new(separator: u8, bytes: &[u8]) -> Marks
        ensures ahead { AreAhead separator bytes.now result }
        ensures place { result.place ≡ 0 }
    {
        Marks {
            place: 0,
            block: 0,
            ahead: mask_of(separator, bytes, 0),
        }
    }

    /// Where the next one is looked for.
    pub(crate) fn place(self) -> usize
        ensures { result ≡ self.place }
    {
        self.place
    }

    // Goes on to the next block that has one, or to the last block.
    #[inline(always)]
    fn found(self, separator: u8, bytes: &[u8]) -> Marks
        requires { AreAhead separator bytes.now self }
        ensures ahead { AreAhead separator bytes.now result }
        ensures place { result.place ≡ self.place }
        ensures last { result.ahead ≡ 0 → length bytes.now ≤ result.block + 64 }
    {
        let mut marks = self;
        'blocks: while marks.ahead == 0 && bytes.len() - marks.block > BLOCK {
            marks.block += BLOCK;
            marks.ahead = mask_of(separator, bytes, marks.block);
        }
        marks
    }

    /// Goes past the next byte that ends a cell, and answers its place, or how many bytes there are.
    #[inline(always)]
    pub(crate) fn next(&mut self, separator: u8, bytes: &[u8]) -> usize
        requires { AreAhead separator bytes.now self.old }
        ensures end { IsNextEnd separator bytes.now self.old.place result }
        ensures ahead { AreAhead separator bytes.now self.new }
        ensures place { self.new.place ≡ min (length bytes.now) (result + 1) }
    {
        let marks = self.found(separator, bytes);
        if marks.ahead == 0 {
            let end = bytes.len();
            *self = Marks {
                place: end,
                ..marks
            };
            return end;
        }
        let bit = lowest(marks.ahead);
        let end = marks.block + bit;
        *self = Marks {
            place: end + 1,
            block: marks.block,
            ahead: without(marks.ahead, bit),
        };
        end
    }
}
