//! Replaces each unit that belongs to no character by U+FFFD (Unicode Standard, section 3.9, "U+FFFD Substitution of
//! Maximal Subparts"), in loops that the compiler vectorizes.
ghost use Rattle.std.specs.Prelude.{◌≡◌, ◌+◌, ◌≤◌, ◌<◌, ◌∷◌, ℕ, slice_index, length, take, drop};
ghost use Rattle.wide_forms.specs.EncodingForm.{Utf16, Utf32, encode};
ghost use Rattle.wide_forms.specs.Items.{items};
ghost use Rattle.wide_forms.specs.Lossy.{lossy};
ghost use Rattle.wide_repair.specs.Repaired.{repaired_at, repaired_unit, repaired_scalar};

use std::simd::prelude::*;
use wide_forms::{is_high_surrogate, is_low_surrogate, is_no_scalar};

// U+FFFD REPLACEMENT CHARACTER.
const REPLACEMENT: u16 = 0xfffd;

// Returns the unit, or U+FFFD if it is an unpaired surrogate between its neighbours.
#[inline(always)]
fn repaired_unit(before: u16, unit: u16, after: u16) -> u16
    ensures { result ≡ repaired_unit before unit after }
{
    // `&` and `|` evaluate both sides. With `&&` and `||` the compiler made a branch for each unit here.
    let lone_high = is_high_surrogate(unit) & !is_low_surrogate(after);
    let lone_low = is_low_surrogate(unit) & !is_high_surrogate(before);
    if lone_high | lone_low {
        REPLACEMENT
    } else {
        unit
    }
}

// Repairs the sixteen units between the first and the last of eighteen.
#[inline(always)]
fn repaired_lanes(units: &[u16], repaired: &mut [u16])
    requires whole { length units.now ≡ 18 }
    requires space { length repaired.old ≡ 16 }
    ensures { (k : ℕ) → k < 16 → slice_index repaired.new k ≡ repaired_unit (slice_index units.now k) (slice_index units.now (k + 1)) (slice_index units.now (k + 2)) }
{
    for k in 0..16 {
        repaired[k] = repaired_unit(units[k], units[k + 1], units[k + 2]);
    }
}

// Writes the sixteen repaired units from an index on, which is not the first.
#[inline(always)]
fn put_repaired(units: &[u16], repaired: &mut [u16], at: usize)
    requires some { 0 < at }
    requires more { at + 17 ≤ length units.now }
    requires space { length repaired.old ≡ length units.now }
    ensures before { (k : ℕ) → k < at → slice_index repaired.new k ≡ slice_index repaired.old k }
    ensures each { (k : ℕ) → at ≤ k → k < at + 16 → slice_index repaired.new k ≡ repaired_at units.now k }
    ensures space { length repaired.new ≡ length units.now }
{
    let mut lanes = [0u16; 16];
    repaired_lanes(&units[at - 1..at + 17], &mut lanes);
    // `copy_from_slice` would check whether the two slices overlap.
    u16x16::from_array(lanes).copy_to_slice(&mut repaired[at..at + 16]);
}

// Returns the unit before an index, or 0 at the beginning.
#[inline(always)]
#[tactic(auto, using(crate::proofs::Repairs::unit_after_first))]
fn unit_before(units: &[u16], at: usize) -> u16
    requires { at < length units.now }
    ensures { result ≡ slice_index (0 ∷ units.now) at }
{
    if at == 0 { 0 } else { units[at - 1] }
}

// Returns the unit after an index, or 0 at the end.
#[inline(always)]
#[tactic(auto, using(crate::proofs::Repairs::none_after_last))]
fn unit_after(units: &[u16], at: usize) -> u16
    requires { at < length units.now }
    ensures { result ≡ slice_index units.now (at + 1) }
{
    if units.len() - at == 1 {
        0
    } else {
        units[at + 1]
    }
}

// Writes the repaired units over a slice of the same length. The first unit is repaired separately, since a vectorized
// step reads the unit before its own.
fn repair_whole(units: &[u16], repaired: &mut [u16])
    requires { length repaired.old ≡ length units.now }
    ensures each { (k : ℕ) → k < length units.now → slice_index repaired.new k ≡ repaired_at units.now k }
    ensures space { length repaired.new ≡ length repaired.old }
{
    let mut done = 0;
    if units.len() > 1 {
        repaired[0] = repaired_unit(0, units[0], units[1]);
        done = 1;
    }
    'sixteens: while done > 0 && units.len() - done >= 17 {
        put_repaired(units, repaired, done);
        done += 16;
    }
    'units: while done < units.len() {
        repaired[done] = repaired_unit(
            unit_before(units, done),
            units[done],
            unit_after(units, done),
        );
        done += 1;
    }
}

/// Writes the repaired units of UTF-16 to the beginning of `repaired`. The elements after them are unchanged.
///
/// # Requires
///
/// `repaired` is at least as long as `units`.
pub fn repair_16(units: &[u16], repaired: &mut [u16])
    requires { length units.now ≤ length repaired.old }
    ensures units { take (length units.now) repaired.new ≡ encode Utf16 (lossy (items Utf16 units.now)) }
    ensures beyond { drop (length units.now) repaired.new ≡ drop (length units.now) repaired.old }
{
    repair_whole(units, &mut repaired[..units.len()]);
}

/// Returns the unit, or U+FFFD if it is no Unicode scalar value.
#[inline(always)]
pub(crate) fn repaired_scalar(unit: u32) -> u32
    ensures { result ≡ repaired_scalar unit }
{
    if is_no_scalar(unit) {
        u32::from(REPLACEMENT)
    } else {
        unit
    }
}

// Writes the repaired units over a slice of the same length.
fn repair_scalars(units: &[u32], repaired: &mut [u32])
    requires { length repaired.old ≡ length units.now }
    ensures each { (k : ℕ) → k < length units.now → slice_index repaired.new k ≡ repaired_scalar (slice_index units.now k) }
    ensures space { length repaired.new ≡ length repaired.old }
{
    for k in 0..units.len() {
        repaired[k] = repaired_scalar(units[k]);
    }
}

/// Writes the repaired units of UTF-32 to the beginning of `repaired`. The elements after them are unchanged.
///
/// # Requires
///
/// `repaired` is at least as long as `units`.
pub fn repair_32(units: &[u32], repaired: &mut [u32])
    requires { length units.now ≤ length repaired.old }
    ensures units { take (length units.now) repaired.new ≡ encode Utf32 (lossy (items Utf32 units.now)) }
    ensures beyond { drop (length units.now) repaired.new ≡ drop (length units.now) repaired.old }
{
    repair_scalars(units, &mut repaired[..units.len()]);
}
