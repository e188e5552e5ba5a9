//! Compares two slices block by block in SIMD lanes: sixteen 16-bit units, or eight 32-bit units, in one step.
ghost use Rattle.std.specs.Prelude.{◌≡◌, ◌≤◌, ◌<◌, length, take};
ghost use Rattle.std.proofs.Common.{rules};
ghost use lib.Count.{count_trailing_zeros};

use crate::any_units::AnyUnits;
use crate::unit::Unit;
use std::simd::prelude::*;

// A code unit that fits a SIMD lane.
trait Lane: Copy {
    ghost use Rattle.std.specs.Prelude.{ℕ};

    ghost COUNT: { ℕ };

    // How many lanes a block has.
    const COUNT: usize;

    // Returns a bit mask: bit k is set if units k of the two blocks differ.
    fn differences(left: &[Self], right: &[Self]) -> u64
        requires left { length left.now ≡ COUNT }
        requires right { length right.now ≡ COUNT }
        ensures none { result ≡ 0 → left.now ≡ right.now }
        ensures within { ¬ (result ≡ 0) → count_trailing_zeros 64 result ≤ COUNT }
        ensures same { ¬ (result ≡ 0) → take (count_trailing_zeros 64 result) left.now ≡ take (count_trailing_zeros 64 result) right.now };

    ghost some_lanes: { 0 < COUNT };
}

impl Lane for u16 {
    ghost COUNT = { 16 };

    ghost some_lanes = { Prim.search rules };

    const COUNT: usize = 16;

    #[inline(always)]
    fn differences(left: &[u16], right: &[u16]) -> u64 {
        let differ = u16x16::from_slice(left).simd_ne(u16x16::from_slice(right));
        differ.to_bitmask()
    }
}

impl Lane for u32 {
    ghost COUNT = { 8 };

    ghost some_lanes = { Prim.search rules };

    const COUNT: usize = 8;

    #[inline(always)]
    fn differences(left: &[u32], right: &[u32]) -> u64 {
        let differ = u32x8::from_slice(left).simd_ne(u32x8::from_slice(right));
        differ.to_bitmask()
    }
}

// Returns how many units at the beginning are equal, or 0 for slices that are shorter than a block. The last block
// overlaps the one before it, so that no unit is left over.
#[inline(always)]
fn same_lanes<L: Lane>(left: &[L], right: &[L]) -> usize
    requires { length left.now ≡ length right.now }
    ensures within { result ≤ length left.now }
    ensures same { take result left.now ≡ take result right.now }
{
    let len = left.len();
    let mut at = 0;
    while len - at >= L::COUNT {
        let end = at + L::COUNT;
        let bits = L::differences(&left[at..end], &right[at..end]);
        if bits != 0 {
            return at + bits.trailing_zeros() as usize;
        }
        at = end;
    }
    if at < len && len >= L::COUNT {
        let start = len - L::COUNT;
        let bits = L::differences(&left[start..len], &right[start..len]);
        if bits != 0 {
            return start + bits.trailing_zeros() as usize;
        }
        return len;
    }
    at
}

// Returns how many units at the beginning are equal, or 0 for slices that are shorter than a block. It is inlined, so
// that those need no call.
#[inline]
pub(crate) fn same_blocks<C: Unit>(left: &[C], right: &[C]) -> usize
    requires { length left.now ≡ length right.now }
    ensures within { result ≤ length left.now }
    ensures same { take result left.now ≡ take result right.now }
{
    match (C::as_any(left), C::as_any(right)) {
        (AnyUnits::U16(left), AnyUnits::U16(right)) => same_lanes(left, right),
        (AnyUnits::U32(left), AnyUnits::U32(right)) => same_lanes(left, right),
        _ => 0,
    }
}
