//! Converts UTF-16 units that are characters, of one to three UTF-8 bytes (Unicode Standard, section 3.9, D92).
//! Vectorized: SIMD lanes compute four bytes for each unit, and a look-up table of shuffles compresses them, four units
//! at a time.

ghost use Rattle.std.specs.Prelude.{◌≡◌, ◌+◌, ◌*◌, ◌≤◌, ◌<◌, ◌++◌, ℕ, slice_index, length, take};
ghost use Rattle.wide_utf16_to_utf8.specs.Encoded.{EncodedUnits};
ghost use Rattle.wide_utf16_to_utf8.specs.ThreeBytes.{HoldsWord, Size, compressed_bytes, packed, mask_of, row_at, row_of};

use crate::lead_bytes::{last_lanes, lead_lanes};
use crate::three_bytes_rows::{ROW_LENS, ROWS};
use std::simd::prelude::*;

// Returns two bits for each of eight units, the top bits of the two bytes of its lane. Both are set if the unit has one
// byte in UTF-8, only that of the second byte if it has two, and none if it has three. So the top bits of the first
// eight bytes are the row number of the first four units, and the top bits of the last eight bytes are the row number
// of the last four units.
#[inline(always)]
fn masks_of(keys: u16x8) -> u16x8
    ensures { (k : ℕ) → k < 8 → slice_index result k ≡ mask_of (slice_index keys k) }
{
    let is_ascii = keys.simd_lt(u16x8::splat(0x80));
    let is_narrow = keys.simd_lt(u16x8::splat(0x800));
    let narrow = is_narrow.select(u16x8::splat(0xff00), u16x8::splat(0));
    is_ascii.select(u16x8::splat(0xffff), narrow)
}

// Returns the row numbers in `ROWS` of the first four of eight units and of the last four.
#[inline(always)]
fn rows_of(keys: u16x8) -> (usize, usize)
    ensures first { result.0 ≡ row_at keys 0 }
    ensures second { result.1 ≡ row_at keys 4 }
{
    let masks = masks_of(keys).to_le_bytes();
    let bits = masks.simd_ge(u8x16::splat(0x80)).to_bitmask() as usize;
    (bits % 0x100, bits / 0x100)
}

// Writes the UTF-8 of four units at the offset `at`, given the number of their row in `ROWS`, and returns the offset
// after it. `words` holds four bytes for each unit. Up to twelve bytes after the text may be overwritten.
#[inline(always)]
fn put_row(words: u8x16, row: usize, out: &mut [u8], at: usize) -> usize
    requires below { row < 256 }
    requires space { at + 16 ≤ length out.old }
    ensures text { (a b c d : Size) → row ≡ row_of a b c d → take result out.new ≡ take at out.old ++ compressed_bytes a b c d words }
    ensures high { result ≤ at + 12 }
{
    let shuffle = u8x16::from_slice(&ROWS[row]);
    words
        .swizzle_dyn_within::<16>(shuffle)
        .copy_to_slice(&mut out[at..at + 16]);
    at + ROW_LENS[row]
}

// Returns four bytes for each of eight units: the first four units in the first vector, the last four in the second.
// The first two bytes of a unit are in `leads`, and the third is in `backs`.
#[inline(always)]
fn words_of(leads: u16x8, backs: u16x8) -> (u8x16, u8x16)
    ensures low { (k : ℕ) → k < 4 → HoldsWord result.0 (4 * k) (slice_index leads k) (slice_index backs k) }
    ensures high { (k : ℕ) → k < 4 → HoldsWord result.1 (4 * k) (slice_index leads (k + 4)) (slice_index backs (k + 4)) }
{
    let low = leads.shuffle(backs, [0, 8, 1, 9, 2, 10, 3, 11]);
    let high = leads.shuffle(backs, [4, 12, 5, 13, 6, 14, 7, 15]);
    (low.to_le_bytes(), high.to_le_bytes())
}

/// Writes the bytes of eight units, and returns the offset in bytes after them. A unit has up to three bytes: the first
/// two are in `leads` and the third is in `backs`. Of these, as many are written as the UTF-8 of the unit's key, read
/// as a character, is long. Up to twelve bytes after the text may be overwritten.
///
/// # Requires
///
/// `out` has at least 28 bytes from `at` on.
#[inline(always)]
pub(crate) fn put_packed(
    keys: u16x8,
    leads: u16x8,
    backs: u16x8,
    out: &mut [u8],
    at: usize,
) -> usize
    requires space { at + 28 ≤ length out.old }
    ensures text { take result out.new ≡ take at out.old ++ packed keys leads backs }
    ensures high { result ≤ at + 24 }
{
    let (first, second) = rows_of(keys);
    let (low, high) = words_of(leads, backs);
    let half = put_row(low, first, out, at);
    put_row(high, second, out, half)
}

// Writes eight units that are characters as UTF-8, and returns the offset in bytes after them. Up to twelve bytes after
// them may be overwritten.
#[inline(always)]
fn put_eight_words(units: &[u16], out: &mut [u8], at: usize) -> usize
    requires whole { length units.now ≡ 8 }
    requires space { at + 28 ≤ length out.old }
    requires plain { (k : ℕ) → k < 8 → 0xd800 ≤ slice_index units.now k → 0xe000 ≤ slice_index units.now k }
    ensures text { EncodedUnits units.now (take at out.old) (take result out.new) }
    ensures high { result ≤ at + 24 }
{
    let lanes = u16x8::from_slice(units);
    put_packed(lanes, lead_lanes(lanes), last_lanes(lanes), out, at)
}

/// Writes sixteen units without surrogates as UTF-8 at the offset `at`, and returns the offset in bytes after them. Up
/// to twelve bytes after them may be overwritten.
///
/// # Requires
///
/// The block has sixteen units, none of them a surrogate. `out` has at least 52 bytes from `at` on.
#[inline(always)]
pub fn put_three_bytes(block: &[u16], out: &mut [u8], at: usize) -> usize
    requires whole { length block.now ≡ 16 }
    requires space { at + 52 ≤ length out.old }
    requires plain { (k : ℕ) → k < 16 → 0xd800 ≤ slice_index block.now k → 0xe000 ≤ slice_index block.now k }
    ensures text { EncodedUnits block.now (take at out.old) (take result out.new) }
    ensures high { result ≤ at + 48 }
{
    let half = put_eight_words(&block[..8], out, at);
    put_eight_words(&block[8..16], out, half)
}
