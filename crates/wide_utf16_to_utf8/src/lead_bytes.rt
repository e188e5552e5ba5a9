//! Computes the UTF-8 bytes of eight UTF-16 units that are characters (Unicode Standard, section 3.9, D92, Table 3-6).
//! Vectorized: one SIMD lane for each unit. A lane of sixteen bits holds the first two bytes, and a lane of another
//! vector holds the third.

ghost use Rattle.std.specs.Prelude.{◌≡◌, ◌+◌, ◌%◌, ◌<◌, ℕ, slice_index};
ghost use Rattle.wide_utf16_to_utf8.specs.Encoded.{IsLead};
ghost use Rattle.wide_utf16_to_utf8.specs.TwoBytes.{below_bits};

use std::simd::prelude::*;

/// Returns a bit mask of eight lanes: bit k is set if lane k is below the bound.
#[inline(always)]
pub(crate) fn lanes_below(lanes: u16x8, bound: u16) -> usize
    ensures { result ≡ below_bits bound lanes }
{
    lanes.simd_lt(u16x8::splat(bound)).to_bitmask() as usize
}

/// Returns the first two UTF-8 bytes of each of eight units that is below 0x800, low byte first. The second byte is 0
/// if the unit is ASCII.
#[inline(always)]
pub(crate) fn short_lead_lanes(units: u16x8) -> u16x8
    ensures { (k : ℕ) → k < 8 → slice_index units k < 0x800 → IsLead (slice_index units k) (slice_index result k) }
{
    let last = units % u16x8::splat(0x40) * u16x8::splat(0x100);
    let two = u16x8::splat(0x80c0) + units / u16x8::splat(0x40) + last;
    units.simd_lt(u16x8::splat(0x80)).select(units, two)
}

/// Returns the first two UTF-8 bytes of each of eight units that are characters, low byte first. The second byte is 0
/// if the unit is ASCII.
#[inline(always)]
pub(crate) fn lead_lanes(units: u16x8) -> u16x8
    ensures { (k : ℕ) → k < 8 → IsLead (slice_index units k) (slice_index result k) }
{
    let middle = units / u16x8::splat(0x40) % u16x8::splat(0x40) * u16x8::splat(0x100);
    let three = u16x8::splat(0x80e0) + units / u16x8::splat(0x1000) + middle;
    let is_narrow = units.simd_lt(u16x8::splat(0x800));
    is_narrow.select(short_lead_lanes(units), three)
}

/// Returns the third UTF-8 byte of each of eight units. It belongs to the text only if the unit is at least 0x800.
#[inline(always)]
pub(crate) fn last_lanes(units: u16x8) -> u16x8
    ensures { (k : ℕ) → k < 8 → slice_index result k ≡ 0x80 + slice_index units k % 0x40 }
{
    u16x8::splat(0x80) + units % u16x8::splat(0x40)
}
