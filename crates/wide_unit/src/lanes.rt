//! Searches in a slice of units in SIMD lanes: sixteen 16-bit units, or eight 32-bit units, in one step.
ghost use Rattle.std.specs.Prelude.{◌≡◌, ◌≤◌, ◌<◌, ◌^◌, ◌-◌, ℕ, length, map, drop};
ghost use Rattle.std.specs.List.{count_by};
ghost use Rattle.std.specs.Simd.Lanes.{mask_l};
ghost use Rattle.std.proofs.Common.{rules};
ghost use Rattle.wide_forms.specs.Searches.{is_high, is_low, is_surrogate, is_no_scalar, is_unit, first_offset};
ghost use Rattle.wide_forms.specs.EncodingForm.{Utf16};
ghost use Rattle.wide_forms.specs.Items.{BeginsWithChars};

use std::simd::prelude::*;
use wide_forms::{is_low_surrogate, is_no_scalar, is_surrogate};

// A test of units: of one unit, and of a block of `N` units in one step.
trait Test<C: Copy, const N: usize>: Copy {
    ghost use Rattle.std.specs.Prelude.{Bool, ℕ};

    // Whether a unit passes.
    ghost passes: { Self → C → Bool };

    // Returns whether the unit passes.
    fn accepts(self, unit: C) -> bool
        ensures { result ≡ passes self unit };

    // Returns a bit mask: bit k is set if unit k passes.
    fn bits(self, block: &[C]) -> u64
        requires { length block.now ≡ N }
        ensures { result ≡ mask_l (map (passes self) block.now) };
}

// Returns the index of the first unit that passes, or the length if there is none. The caller has found that no unit
// before the last sixteen passes.
#[inline(always)]
fn first_in_last_16<T: Test<u16, 16>>(units: &[u16], test: T) -> usize
    requires whole { 16 ≤ length units.now }
    requires before { length units.now - 16 ≤ first_offset (T.passes test) units.now }
    ensures { result ≡ first_offset (T.passes test) units.now }
{
    let start = units.len() - 16;
    let bits = test.bits(&units[start..]);
    if bits == 0 {
        return units.len();
    }
    start + bits.trailing_zeros() as usize
}

// Returns the index of the first 16-bit unit that passes, or the length if there is none.
#[inline(always)]
fn first_of_16<T: Test<u16, 16>>(units: &[u16], test: T) -> usize
    ensures { result ≡ first_offset (T.passes test) units.now }
{
    let (blocks, rest) = units.as_chunks::<16>();
    for (i, block) in blocks.iter().enumerate() {
        let bits = test.bits(block);
        if bits != 0 {
            return i * 16 + bits.trailing_zeros() as usize;
        }
    }
    if units.len() >= 16 && !rest.is_empty() {
        return first_in_last_16(units, test);
    }
    for k in blocks.len() * 16..units.len() {
        if test.accepts(units[k]) {
            return k;
        }
    }
    units.len()
}

// Returns the index of the first unit that passes, or the length if there is none. The caller has found that no unit
// before the last eight passes.
#[inline(always)]
fn first_in_last_32<T: Test<u32, 8>>(units: &[u32], test: T) -> usize
    requires whole { 8 ≤ length units.now }
    requires before { length units.now - 8 ≤ first_offset (T.passes test) units.now }
    ensures { result ≡ first_offset (T.passes test) units.now }
{
    let start = units.len() - 8;
    let bits = test.bits(&units[start..]);
    if bits == 0 {
        return units.len();
    }
    start + bits.trailing_zeros() as usize
}

// Returns the index of the first 32-bit unit that passes, or the length if there is none.
#[inline(always)]
fn first_of_32<T: Test<u32, 8>>(units: &[u32], test: T) -> usize
    ensures { result ≡ first_offset (T.passes test) units.now }
{
    let (blocks, rest) = units.as_chunks::<8>();
    for (i, block) in blocks.iter().enumerate() {
        let bits = test.bits(block);
        if bits != 0 {
            return i * 8 + bits.trailing_zeros() as usize;
        }
    }
    if units.len() >= 8 && !rest.is_empty() {
        return first_in_last_32(units, test);
    }
    for k in blocks.len() * 8..units.len() {
        if test.accepts(units[k]) {
            return k;
        }
    }
    units.len()
}

// Passes surrogates, D800 to DFFF.
#[derive(Clone, Copy)]
struct Surrogate;

impl Test<u16, 16> for Surrogate {
    ghost passes = { λ _. is_surrogate };

    #[inline(always)]
    fn accepts(self, unit: u16) -> bool {
        is_surrogate(unit)
    }

    #[inline(always)]
    fn bits(self, block: &[u16]) -> u64 {
        let lanes = u16x16::from_slice(block) & u16x16::splat(0xf800);
        lanes.simd_eq(u16x16::splat(0xd800)).to_bitmask()
    }
}

// Passes units that are no Unicode scalar value: surrogates, and units greater than 10FFFF.
#[derive(Clone, Copy)]
struct NoScalar;

impl Test<u32, 8> for NoScalar {
    ghost passes = { λ _. is_no_scalar };

    #[inline(always)]
    fn accepts(self, unit: u32) -> bool {
        is_no_scalar(unit)
    }

    // Surrogates become FFFFFFFF, so that one comparison with 10FFFF finds them and the units greater than 10FFFF.
    #[inline(always)]
    fn bits(self, block: &[u32]) -> u64 {
        let units = u32x8::from_slice(block);
        let surrogates = (units & u32x8::splat(0xffff_f800)).simd_eq(u32x8::splat(0xd800));
        surrogates
            .select(u32x8::splat(0xffff_ffff), units)
            .simd_gt(u32x8::splat(0x10_ffff))
            .to_bitmask()
    }
}

// Passes the units that are equal to a given unit.
#[derive(Clone, Copy)]
struct Same<C> {
    unit: C,
}

impl Test<u16, 16> for Same<u16> {
    ghost passes = { λ same. is_unit same.unit };

    #[inline(always)]
    fn accepts(self, unit: u16) -> bool {
        unit == self.unit
    }

    #[inline(always)]
    fn bits(self, block: &[u16]) -> u64 {
        u16x16::from_slice(block)
            .simd_eq(u16x16::splat(self.unit))
            .to_bitmask()
    }
}

impl Test<u32, 8> for Same<u32> {
    ghost passes = { λ same. is_unit same.unit };

    #[inline(always)]
    fn accepts(self, unit: u32) -> bool {
        unit == self.unit
    }

    #[inline(always)]
    fn bits(self, block: &[u32]) -> u64 {
        u32x8::from_slice(block)
            .simd_eq(u32x8::splat(self.unit))
            .to_bitmask()
    }
}

/// Returns the index of the first surrogate, or the length if there is none.
pub fn first_surrogate(units: &[u16]) -> usize
    ensures { result ≡ first_offset is_surrogate units.now }
{
    first_of_16(units, Surrogate)
}

/// Returns the index of the first unit that is no Unicode scalar value, or the length if there is none.
pub fn first_no_scalar(units: &[u32]) -> usize
    ensures { result ≡ first_offset is_no_scalar units.now }
{
    first_of_32(units, NoScalar)
}

/// Returns the index of the first 16-bit unit that equals `unit`, or the length if there is none.
pub(crate) fn first_same_16(units: &[u16], unit: u16) -> usize
    ensures { result ≡ first_offset (is_unit unit) units.now }
{
    first_of_16(units, Same { unit })
}

/// Returns the index of the first 32-bit unit that equals `unit`, or the length if there is none.
pub(crate) fn first_same_32(units: &[u32], unit: u32) -> usize
    ensures { result ≡ first_offset (is_unit unit) units.now }
{
    first_of_32(units, Same { unit })
}

// Returns a bit mask: bit k is set if unit k is a high surrogate.
#[inline(always)]
fn high_bits(block: &[u16]) -> u64
    requires { length block.now ≡ 16 }
    ensures { result ≡ mask_l (map is_high block.now) }
{
    let lanes = u16x16::from_slice(block) & u16x16::splat(0xfc00);
    lanes.simd_eq(u16x16::splat(0xd800)).to_bitmask()
}

// Returns a bit mask: bit k is set if unit k is a low surrogate.
#[inline(always)]
fn low_bits(block: &[u16]) -> u64
    requires { length block.now ≡ 16 }
    ensures { result ≡ mask_l (map is_low block.now) }
{
    let lanes = u16x16::from_slice(block) & u16x16::splat(0xfc00);
    lanes.simd_eq(u16x16::splat(0xdc00)).to_bitmask()
}

/// Returns the length of a prefix, checked in blocks, that consists of whole characters.
///
/// The high surrogates of a block are compared with the low surrogates of the block one unit later. If they are at the
/// same positions, a low surrogate follows each high one, and a high one precedes each low one except the first unit.
pub(crate) fn leading_pairs(units: &[u16]) -> usize
    ensures within { result ≤ length units.now }
    ensures text { BeginsWithChars Utf16 units.now (drop result units.now) }
{
    if units.len() < 17 || is_low_surrogate(units[0]) {
        return 0;
    }
    let mut at = 0;
    while units.len() - at >= 17
        && high_bits(&units[at..at + 16]) == low_bits(&units[at + 1..at + 17])
    {
        at += 16;
    }
    if is_low_surrogate(units[at]) {
        at + 1
    } else {
        at
    }
}
