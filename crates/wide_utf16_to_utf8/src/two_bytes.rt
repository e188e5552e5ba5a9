//! Converts UTF-16 units below 0x800 to UTF-8 (Unicode Standard, section 3.9, D92), one or two bytes for each unit.
//! Vectorized: SIMD lanes compute two bytes for each unit, and a look-up table of shuffles compresses them.

ghost use Rattle.std.specs.Prelude.{◌≡◌, ◌+◌, ◌*◌, ◌≤◌, ◌<◌, ◌++◌, ℕ, List, slice_index, length, take};
ghost use Rattle.wide_utf16_to_utf8.specs.Encoded.{EncodedUnits};
ghost use Rattle.wide_utf16_to_utf8.specs.TwoBytes.{IsPair, below_bits, compressed};

use crate::lead_bytes::{lanes_below, short_lead_lanes};
use crate::two_bytes_rows::SHUFFLES;
use std::simd::prelude::*;

// Writes the UTF-8 of eight units at the offset `at`, and returns the offset after it. `pairs` holds two bytes for each
// unit, and bit k of `ascii` is set if unit k is ASCII. Up to eight bytes after the text may be overwritten.
#[inline(always)]
fn put_pair_bytes(pairs: u8x16, ascii: usize, out: &mut [u8], at: usize) -> usize
    requires below { ascii < 256 }
    requires space { at + 16 ≤ length out.old }
    ensures text { (units : List ℕ) → length units ≡ 8 → ascii ≡ below_bits 0x80 units → take result out.new ≡ take at out.old ++ compressed units 0 pairs }
    ensures high { result ≤ at + 16 }
{
    let shuffle = u8x16::from_slice(&SHUFFLES[ascii]);
    pairs
        .swizzle_dyn_within::<16>(shuffle)
        .copy_to_slice(&mut out[at..at + 16]);
    at + (16 - ascii.count_ones() as usize)
}

// Returns two UTF-8 bytes for each of eight units below 0x800.
#[inline(always)]
fn pairs_of(units: u16x8) -> u8x16
    requires narrow { (k : ℕ) → k < 8 → slice_index units k < 0x800 }
    ensures { (k : ℕ) → k < 8 → IsPair (slice_index units k) (slice_index result (2 * k)) (slice_index result (2 * k + 1)) }
{
    short_lead_lanes(units).to_le_bytes()
}

// Writes eight units below 0x800 as UTF-8, and returns the offset in bytes after them. Up to eight bytes after them may
// be overwritten.
#[inline(always)]
fn put_eight(units: &[u16], out: &mut [u8], at: usize) -> usize
    requires whole { length units.now ≡ 8 }
    requires space { at + 16 ≤ length out.old }
    requires narrow { (k : ℕ) → k < 8 → slice_index units.now k < 0x800 }
    ensures text { EncodedUnits units.now (take at out.old) (take result out.new) }
    ensures high { result ≤ at + 16 }
{
    let lanes = u16x8::from_slice(units);
    put_pair_bytes(pairs_of(lanes), lanes_below(lanes, 0x80), out, at)
}

/// Writes sixteen units below 0x800 as UTF-8 at the offset `at`, and returns the offset in bytes after them. Up to
/// eight bytes after them may be overwritten.
///
/// # Requires
///
/// The block has sixteen units, all below 0x800. `out` has at least 32 bytes from `at` on.
#[inline(always)]
pub fn put_two_bytes(block: &[u16], out: &mut [u8], at: usize) -> usize
    requires whole { length block.now ≡ 16 }
    requires space { at + 32 ≤ length out.old }
    requires narrow { (k : ℕ) → k < 16 → slice_index block.now k < 0x800 }
    ensures text { EncodedUnits block.now (take at out.old) (take result out.new) }
    ensures high { result ≤ at + 32 }
{
    let half = put_eight(&block[..8], out, at);
    put_eight(&block[8..16], out, half)
}
