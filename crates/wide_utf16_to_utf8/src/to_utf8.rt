//! Converts UTF-16 to UTF-8 (Unicode Standard, section 3.9, D91 and D92), sixteen units in one step. Vectorized: each
//! block of units is classified in SIMD lanes, as ASCII, as units below 0x800, as units without surrogates, or as units
//! with surrogates, and encoded by the method for its class.

ghost use Rattle.std.specs.Prelude.{◌≡◌, ◌+◌, ◌*◌, ◌/◌, ◌%◌, ◌-◌, ◌≤◌, ◌<◌, ◌++◌, ◌∷◌, [], false, ℕ, slice_index, IsTrue, length, take, drop, is_some, true, None, IfNone, IfSome};
ghost use Rattle.wide_forms.specs.EncodingForm.{Utf16};
ghost use Rattle.wide_forms.specs.Items.{IsWellFormed, chars};
ghost use Rattle.wide_forms.specs.Utf8.{utf8};
ghost use Rattle.wide_utf16_to_utf8.specs.Encoded.{ArePaired, EncodedUnits, StopsBefore, top_bits};

use crate::one_unit::{encode_plain, put_pair};
use crate::paired_text::put_paired_text;
use crate::three_bytes::put_three_bytes;
use crate::two_bytes::put_two_bytes;
use std::simd::prelude::*;
use wide_forms::{HIGH_TOP, LOW_TOP, SURROGATE_TOP, StrictProgress};

// Returns the bitwise or of sixteen units. No unit is greater than it.
#[inline(always)]
fn bits_of(block: &[u16]) -> u16
    requires { length block.now ≡ 16 }
    ensures { (k : ℕ) → k < 16 → slice_index block.now k ≤ result }
{
    let mut bits = 0;
    for k in 0..16 {
        bits |= block[k];
    }
    bits
}

/// Writes sixteen ASCII characters as bytes at the offset `at` in `out`.
///
/// # Requires
///
/// The block has sixteen units, all below 0x80. `out` has at least 16 bytes from `at` on.
#[inline(always)]
pub fn put_ascii(block: &[u16], out: &mut [u8], at: usize)
    requires whole { length block.now ≡ 16 }
    requires space { at + 16 ≤ length out.old }
    requires ascii { (k : ℕ) → k < 16 → slice_index block.now k < 0x80 }
    ensures { take (at + 16) out.new ≡ take at out.old ++ block.now }
{
    // A local array cannot overlap the block, so the compiler vectorizes this loop.
    let mut bytes = [0u8; 16];
    for k in 0..16 {
        bytes[k] = block[k] as u8;
    }
    u8x16::from_slice(&bytes).copy_to_slice(&mut out[at..at + 16]);
}

// Returns whether a block of sixteen units contains a surrogate.
#[inline(always)]
fn has_surrogate(block: &[u16]) -> bool
    requires { length block.now ≡ 16 }
    ensures { result ≡ false → (k : ℕ) → k < 16 → 0xd800 ≤ slice_index block.now k → 0xe000 ≤ slice_index block.now k }
{
    let mut found = false;
    for k in 0..16 {
        found |= block[k] / 0x800 == SURROGATE_TOP;
    }
    found
}

// Returns a bit mask of the first sixteen units: bit k is set if the upper six bits of unit k are `top`.
#[inline(always)]
fn bits_of_tops(units: &[u16], top: u16) -> u64
    requires { 16 ≤ length units.now }
    ensures { result ≡ top_bits top 16 units.now }
{
    (u16x16::from_slice(units) / u16x16::splat(0x400))
        .simd_eq(u16x16::splat(top))
        .to_bitmask()
}

// Returns whether the surrogates among seventeen units are paired: the first unit is no low surrogate, and each of the
// first sixteen is a high surrogate exactly if the unit after it is a low one.
#[inline(always)]
fn is_paired(units: &[u16]) -> bool
    requires { length units.now ≡ 17 }
    ensures first { IsTrue result → 0xdc00 ≤ slice_index units.now 0 → 0xe000 ≤ slice_index units.now 0 }
    ensures pairs { IsTrue result → (k : ℕ) → k < 16 → ArePaired (slice_index units.now k) (slice_index units.now (k + 1)) }
{
    let highs = bits_of_tops(units, HIGH_TOP);
    let lows = bits_of_tops(&units[1..], LOW_TOP);
    units[0] / 0x400 != LOW_TOP && highs == lows
}

// Returns whether the units at even indices of a block are high surrogates, and those at odd indices are not.
#[inline(always)]
fn are_pairs(block: &[u16]) -> bool
    requires { length block.now ≡ 16 }
    ensures { IsTrue result → (k : ℕ) → k < 8 → slice_index block.now (2 * k) / 0x400 ≡ 0xd800 / 0x400 }
{
    bits_of_tops(block, HIGH_TOP) == 0x5555
}

// Writes eight surrogate pairs as UTF-8, four bytes each, and returns the offset after them, in bytes.
#[inline(always)]
fn put_pairs(block: &[u16], out: &mut [u8], at: usize) -> usize
    requires whole { length block.now ≡ 16 }
    requires space { at + 32 ≤ length out.old }
    requires high { (k : ℕ) → k < 8 → slice_index block.now (2 * k) / 0x400 ≡ 0xd800 / 0x400 }
    requires low { (k : ℕ) → k < 8 → slice_index block.now (2 * k + 1) / 0x400 ≡ 0xdc00 / 0x400 }
    ensures text { EncodedUnits block.now (take at out.old) (take result out.new) }
    ensures high { result ≡ at + 32 }
{
    for k in 0..8 {
        put_pair(out, at + 4 * k, block[2 * k], block[2 * k + 1]);
    }
    at + 32
}

// Writes the sixteen units from `from` on as UTF-8, or fifteen if the last one is a high surrogate. Their surrogates
// are paired. It also reads the unit before them, if there is one. Up to fourteen bytes after the text may be
// overwritten.
#[inline(always)]
fn put_paired(units: &[u16], from: usize, out: &mut [u8], at: usize) -> StrictProgress
    requires whole { from + 17 ≤ length units.now }
    requires space { at + 52 ≤ length out.old }
    requires first { 0xdc00 ≤ slice_index units.now from → 0xe000 ≤ slice_index units.now from }
    requires pairs { (k : ℕ) → k < 16 → ArePaired (slice_index units.now (from + k)) (slice_index units.now (from + k + 1)) }
    ensures some { 15 ≤ result.read }
    ensures all { result.read ≤ 16 }
    ensures text { EncodedUnits (take result.read (drop from units.now)) (take at out.old) (take result.written out.new) }
    ensures high { result.written ≤ at + 3 * result.read }
    ensures no_fault { result.fault ≡ None }
{
    if from > 0 {
        return put_paired_text(&units[from - 1..from + 16], out, at);
    }
    // No unit precedes the first one, so the window begins with a NUL.
    let mut window = [0u16; 17];
    window[1..].copy_from_slice(&units[..16]);
    put_paired_text(&window, out, at)
}

// Encodes at most seventeen of the units from `from` on, and stops before a fault. It is called if the first sixteen
// contain a surrogate.
#[inline(always)]
fn encode_surrogates(units: &[u16], from: usize, out: &mut [u8], at: usize) -> StrictProgress
    requires long { from + 17 ≤ length units.now }
    requires space { at + 55 ≤ length out.old }
    ensures read { result.read ≤ 17 }
    ensures some { is_some result.fault ≡ false → 0 < result.read }
    ensures written { result.written ≤ at + 3 * result.read }
    ensures text { EncodedUnits (take result.read (drop from units.now)) (take at out.old) (take result.written out.new) }
    ensures stop { is_some result.fault ≡ true → StopsBefore (drop result.read (drop from units.now)) result.fault }
{
    let block = &units[from..from + 17];
    if !is_paired(block) {
        return encode_plain(block, out, at);
    }
    if are_pairs(&block[..16]) {
        return StrictProgress {
            read: 16,
            written: put_pairs(&block[..16], out, at),
            fault: None,
        };
    }
    put_paired(units, from, out, at)
}

// Returns whether the first eight units are ASCII characters.
#[inline(always)]
fn are_eight_ascii(units: &[u16]) -> bool
    requires { 8 ≤ length units.now }
    ensures { IsTrue result → (k : ℕ) → k < 8 → slice_index units.now k < 0x80 }
{
    u16x8::from_slice(units)
        .simd_ge(u16x8::splat(0x80))
        .to_bitmask()
        == 0
}

// Writes the first eight units, which are ASCII characters, as bytes at the offset `at` in `out`.
#[inline(always)]
fn put_eight_ascii(units: &[u16], out: &mut [u8], at: usize)
    requires whole { 8 ≤ length units.now }
    requires space { at + 8 ≤ length out.old }
    requires ascii { (k : ℕ) → k < 8 → slice_index units.now k < 0x80 }
    ensures { take (at + 8) out.new ≡ take at out.old ++ take 8 units.now }
{
    // A local array cannot overlap the units, so the compiler vectorizes this loop.
    let mut bytes = [0u8; 8];
    for k in 0..8 {
        bytes[k] = units[k] as u8;
    }
    u8x8::from_slice(&bytes).copy_to_slice(&mut out[at..at + 8]);
}

// Encodes the units up to a fault or the end: ASCII at the beginning eight units in one step, and from there on one
// character in one step.
#[inline(always)]
fn encode_rest(units: &[u16], out: &mut [u8], at: usize) -> StrictProgress
    requires { at + 3 * length units.now + 4 ≤ length out.old }
    ensures read { result.read ≤ length units.now }
    ensures written { result.written ≤ at + 3 * result.read }
    ensures text { EncodedUnits (take result.read units.now) (take at out.old) (take result.written out.new) }
    ensures stop { StopsBefore (drop result.read units.now) result.fault }
{
    let mut read = 0;
    'eights: while units.len() - read >= 8 && are_eight_ascii(&units[read..]) {
        put_eight_ascii(&units[read..], out, at + read);
        read += 8;
    }
    let step = encode_plain(&units[read..], out, at + read);
    StrictProgress {
        read: read + step.read,
        written: step.written,
        fault: step.fault,
    }
}

/// Encodes the units as UTF-8 after the first `at` bytes of `out`. It stops before the first unpaired surrogate or at
/// the end. A high surrogate that is the last unit is not read, and is not reported as a fault. `read` counts units,
/// and `written` is an offset in bytes. Any byte of `out` after the text may be overwritten.
///
/// # Requires
///
/// `out` has at least `at + 3 * units.len() + 4` bytes.
pub fn utf16_to_utf8_until_fault(units: &[u16], out: &mut [u8], at: usize) -> StrictProgress
    requires { at + 3 * length units.now + 4 ≤ length out.old }
    ensures read { result.read ≤ length units.now }
    ensures written { result.written ≤ at + 3 * result.read }
    ensures text { EncodedUnits (take result.read units.now) (take at out.old) (take result.written out.new) }
    ensures stop { StopsBefore (drop result.read units.now) result.fault }
{
    let mut read = 0;
    let mut written = at;
    // A block is sixteen units. The unit after it shows whether a high surrogate at its end is paired.
    'sixteens: while units.len() - read >= 17 {
        let block = &units[read..read + 16];
        let bits = bits_of(block);
        if bits < 0x80 {
            put_ascii(block, out, written);
            read += 16;
            written += 16;
        } else if bits < 0x800 {
            written = put_two_bytes(block, out, written);
            read += 16;
        } else if !has_surrogate(block) {
            written = put_three_bytes(block, out, written);
            read += 16;
        } else {
            let step = encode_surrogates(units, read, out, written);
            read += step.read;
            written = step.written;
            if step.fault.is_some() {
                return StrictProgress {
                    read,
                    written,
                    fault: step.fault,
                };
            }
        }
    }
    let step = encode_rest(&units[read..], out, written);
    StrictProgress {
        read: read + step.read,
        written: step.written,
        fault: step.fault,
    }
}

/// Encodes 16-bit units as UTF-8 (Unicode Standard, D92) at the beginning of `text`, and returns the length in bytes.
/// Returns `None` if the units are ill-formed (D85). The units are read once. Bytes after the text may be overwritten,
/// and any byte if the units are ill-formed.
///
/// # Requires
///
/// `text` has at least `3 * units.len() + 4` bytes.
pub fn checked_utf16_to_utf8(units: &[u16], text: &mut [u8]) -> Option<usize>
    requires space { 3 * length units.now + 4 ≤ length text.old }
    ensures valid { IfSome result (λ len. IsWellFormed Utf16 units.now) }
    ensures fault { IfNone result (IsWellFormed Utf16 units.now → ⊥) }
    ensures written { IfSome result (λ len. len ≤ length text.new) }
    ensures text { IfSome result (λ len. take len text.new ≡ utf8 (chars Utf16 units.now)) }
{
    let step = utf16_to_utf8_until_fault(units, text, 0);
    if step.read == units.len() {
        Some(step.written)
    } else {
        None
    }
}
