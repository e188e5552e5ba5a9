//! Converts UTF-16 with surrogate pairs to UTF-8 (Unicode Standard, section 3.9, D91 and D92), sixteen units in one
//! step. Vectorized: each surrogate of a pair yields two of the four bytes, so one SIMD lane for each unit suffices. A
//! look-up table of shuffles then compresses the bytes.

ghost use Rattle.std.specs.Prelude.{◌≡◌, ◌+◌, ◌*◌, ◌/◌, ◌%◌, ◌≤◌, ◌<◌, ◌++◌, ℕ, None, slice_index, length, take, drop};
ghost use Rattle.wide_utf16_to_utf8.specs.Encoded.{ArePaired, EncodedUnits};
ghost use Rattle.wide_utf16_to_utf8.specs.PairedText.{IsPairedLead, paired_key, paired_text};

use crate::lead_bytes::{last_lanes, lead_lanes};
use crate::three_bytes::put_packed;
use std::simd::prelude::*;
use wide_forms::{HIGH_TOP, LOW_TOP, SURROGATE_TOP, StrictProgress};

// Returns the first two UTF-8 bytes of each of eight units, low byte first, given the unit before each. A high
// surrogate yields the first two bytes of its pair, and a low surrogate the last two.
#[inline(always)]
fn paired_leads_of(befores: u16x8, units: u16x8) -> u16x8
    ensures { (k : ℕ) → k < 8 → IsPairedLead (slice_index befores k) (slice_index units k) (slice_index result k) }
{
    // The scalar value divided by 0x400.
    let top = units % u16x8::splat(0x400) + u16x8::splat(0x40);
    let second = top / u16x8::splat(4) % u16x8::splat(0x40) * u16x8::splat(0x100);
    let high = u16x8::splat(0x80f0) + top / u16x8::splat(0x100) + second;
    let third = befores % u16x8::splat(4) * u16x8::splat(0x10);
    let middle = units / u16x8::splat(0x40) % u16x8::splat(0x10);
    let last = units % u16x8::splat(0x40) * u16x8::splat(0x100);
    let low = u16x8::splat(0x8080) + third + middle + last;
    let is_low = (units / u16x8::splat(0x400)).simd_eq(u16x8::splat(LOW_TOP));
    let is_surrogate = (units / u16x8::splat(0x800)).simd_eq(u16x8::splat(SURROGATE_TOP));
    is_surrogate.select(is_low.select(low, high), lead_lanes(units))
}

// Returns keys that select how many bytes each unit yields: the unit itself, or 0x80 for a surrogate, which yields two
// bytes as a unit from 0x80 up to 0x7FF does.
#[inline(always)]
fn paired_keys_of(units: u16x8) -> u16x8
    ensures { (k : ℕ) → k < 8 → slice_index result k ≡ paired_key (slice_index units k) }
{
    let is_surrogate = (units / u16x8::splat(0x800)).simd_eq(u16x8::splat(SURROGATE_TOP));
    is_surrogate.select(u16x8::splat(0x80), units)
}

// Writes the bytes of the last eight of nine units at the offset `at`, and returns the offset after them. Up to twelve
// bytes after them may be overwritten.
#[inline(always)]
fn put_eight_paired(window: &[u16], out: &mut [u8], at: usize) -> usize
    requires whole { length window.now ≡ 9 }
    requires space { at + 28 ≤ length out.old }
    ensures text { take result out.new ≡ take at out.old ++ paired_text window.now }
    ensures high { result ≤ at + 24 }
{
    let befores = u16x8::from_slice(window);
    let units = u16x8::from_slice(&window[1..]);
    put_packed(
        paired_keys_of(units),
        paired_leads_of(befores, units),
        last_lanes(units),
        out,
        at,
    )
}

/// Writes the last sixteen units of the window as UTF-8, or the fifteen before the last one if that is a high
/// surrogate. The result reports no fault. Up to fourteen bytes after the text may be overwritten.
///
/// # Requires
///
/// The window has seventeen units. The surrogates from the second unit on are paired, except that the last unit may be
/// a high surrogate. `out` has at least 52 bytes from `at` on.
#[inline(never)]
pub(crate) fn put_paired_text(window: &[u16], out: &mut [u8], at: usize) -> StrictProgress
    requires whole { length window.now ≡ 17 }
    requires space { at + 52 ≤ length out.old }
    requires first { 0xdc00 ≤ slice_index window.now 1 → 0xe000 ≤ slice_index window.now 1 }
    requires pairs { (k : ℕ) → k < 15 → ArePaired (slice_index window.now (k + 1)) (slice_index window.now (k + 2)) }
    ensures some { 15 ≤ result.read }
    ensures all { result.read ≤ 16 }
    ensures text { EncodedUnits (take result.read (drop 1 window.now)) (take at out.old) (take result.written out.new) }
    ensures high { result.written ≤ at + 3 * result.read }
    ensures no_fault { result.fault ≡ None }
{
    let half = put_eight_paired(&window[..9], out, at);
    let end = put_eight_paired(&window[8..17], out, half);
    // A high surrogate at the end is not counted: its pair is encoded together with the next unit.
    let cut = usize::from(window[16] / 0x400 == HIGH_TOP);
    StrictProgress {
        read: 16 - cut,
        written: end - 2 * cut,
        fault: None,
    }
}
