//! Leaves out of repaired UTF-16 each U+FFFD that a policy does not write (Unicode Standard, section 3.9, "U+FFFD
//! Substitution of Maximal Subparts"). Vectorized: a step takes a window of nine units, decides for each of the last
//! eight by the unit before it, and compresses those that are retained by a look-up table of shuffles.

ghost use Rattle.std.specs.Prelude.{◌≡◌, ◌++◌, ◌∷◌, [], ◌+◌, ◌<◌, ◌≤◌, ℕ, length, slice_index, take, drop, if◌then◌else◌};
ghost use Rattle.wide_forms.specs.EncodingForm.{Utf16, encode};
ghost use Rattle.wide_forms.specs.Items.{items};
ghost use Rattle.wide_forms.specs.Lossy.{lossy, lossy_after};
ghost use Rattle.wide_repair.specs.Compressed.{compressed_lanes, retained_bits, is_retained};
ghost use Rattle.wide_forms.specs.Bits.{bit_of};

use crate::compression::compress;
use std::simd::prelude::*;
use wide_forms::{Policy, replacement};

// Returns whether a repaired unit is retained: if the unit was not replaced, or if the policy writes a replacement for
// it, given whether the unit before it was replaced.
#[inline(always)]
fn is_retained(policy: Policy, before: u16, repaired_before: u16, unit: u16, repaired: u16) -> bool
    ensures { result ≡ is_retained policy before repaired_before unit repaired }
{
    unit == repaired || replacement(policy, before != repaired_before).is_some()
}

// Sets lane k to 1 if unit k + 1 of a window is retained, and otherwise to 0.
#[inline(always)]
fn retained_lanes(policy: Policy, units: &[u16], repaired: &[u16], lanes: &mut [u16])
    requires units { length units.now ≡ 9 }
    requires repaired { length repaired.now ≡ 9 }
    requires space { length lanes.old ≡ 8 }
    ensures { (k : ℕ) → k < 8 → slice_index lanes.new k ≡ bit_of (is_retained policy (slice_index units.now k) (slice_index repaired.now k) (slice_index units.now (k + 1)) (slice_index repaired.now (k + 1))) }
{
    // What the policy writes for the first fault of a run, and for each later one, does not depend on the units. It is
    // computed before the loop, which then has no branches.
    let is_first_written = replacement(policy, false).is_some();
    let is_later_written = replacement(policy, true).is_some();
    for k in 0..8 {
        let is_written = if units[k] == repaired[k] {
            is_first_written
        } else {
            is_later_written
        };
        lanes[k] = u16::from(units[k + 1] == repaired[k + 1] || is_written);
    }
}

// Returns a bit mask of the last eight units of a window: bit k is set if unit k + 1 is retained.
#[inline(always)]
fn retained_bits(policy: Policy, units: &[u16], repaired: &[u16]) -> usize
    requires units { length units.now ≡ 9 }
    requires repaired { length repaired.now ≡ 9 }
    ensures bits { result ≡ retained_bits 8 policy (slice_index units.now 0) (slice_index repaired.now 0) (drop 1 units.now) (drop 1 repaired.now) }
    ensures below { result < 256 }
{
    let mut lanes = [0u16; 8];
    retained_lanes(policy, units, repaired, &mut lanes);
    let mask = u16x8::from_array(lanes).simd_ne(u16x8::splat(0));
    mask.to_bitmask() as usize
}

// Writes those of the last eight units of a window that are retained, and returns the index after them. The eight units
// from `at` on are overwritten.
#[inline(always)]
fn put_retained(
    policy: Policy,
    units: &[u16],
    repaired: &[u16],
    compressed: &mut [u16],
    at: usize,
) -> usize
    requires units { length units.now ≡ 9 }
    requires repaired { length repaired.now ≡ 9 }
    requires space { at + 8 ≤ length compressed.old }
    ensures units { take result compressed.new ≡ take at compressed.old ++ compressed_lanes (retained_bits 8 policy (slice_index units.now 0) (slice_index repaired.now 0) (drop 1 units.now) (drop 1 repaired.now)) (drop 1 repaired.now) }
    ensures high { result ≤ at + 8 }
{
    let bits = retained_bits(policy, units, repaired);
    let lanes = compress(u16x8::from_slice(&repaired[1..]), bits);
    lanes.copy_to_slice(&mut compressed[at..at + 8]);
    at + bits.count_ones() as usize
}

/// Writes one repaired unit if it is retained, and returns the index after it.
///
/// # Requires
///
/// `compressed` has an element at `at`.
#[inline(always)]
pub(crate) fn put_one<T: Copy>(
    is_retained: bool,
    repaired: T,
    compressed: &mut [T],
    at: usize,
) -> usize
    requires { at < length compressed.old }
    ensures units { take result compressed.new ≡ take at compressed.old ++ (if is_retained then repaired ∷ [] else []) }
    ensures high { result ≤ at + 1 }
{
    if is_retained {
        compressed[at] = repaired;
        at + 1
    } else {
        at
    }
}

/// Writes the repaired units that are retained, and returns how many there are. If `after_fault` is true, a fault
/// precedes the units.
///
/// # Requires
///
/// `repaired` are the units with U+FFFD for each fault. `compressed` is at least as long.
pub(crate) fn retain_after(
    policy: Policy,
    after_fault: bool,
    units: &[u16],
    repaired: &[u16],
    compressed: &mut [u16],
) -> usize
    requires repaired { repaired.now ≡ encode Utf16 (lossy (items Utf16 units.now)) }
    requires long { length repaired.now ≡ length units.now }
    requires space { length units.now ≤ length compressed.old }
    ensures units { take result compressed.new ≡ encode Utf16 (lossy_after policy after_fault (items Utf16 units.now)) }
    ensures within { result ≤ length units.now }
{
    if units.is_empty() {
        return 0;
    }
    // No unit precedes the first one. 0 is passed as the unit before it, and as that unit repaired 1 if a fault precedes
    // the units, and otherwise 0: a unit that repair changes is a fault.
    let first = is_retained(policy, 0, u16::from(after_fault), units[0], repaired[0]);
    let mut at = put_one(first, repaired[0], compressed, 0);
    let mut done = 1;
    'eights: while units.len() - done >= 8 {
        let window = &units[done - 1..done + 8];
        at = put_retained(
            policy,
            window,
            &repaired[done - 1..done + 8],
            compressed,
            at,
        );
        done += 8;
    }
    'ones: while done < units.len() {
        let before = done - 1;
        let is_retained = is_retained(
            policy,
            units[before],
            repaired[before],
            units[done],
            repaired[done],
        );
        at = put_one(is_retained, repaired[done], compressed, at);
        done += 1;
    }
    at
}
