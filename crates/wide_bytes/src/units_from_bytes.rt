//! Converts UTF-16 bytes to code units in either byte order (Unicode Standard, section 3.10, D96 and D97). Vectorized:
//! a shuffle swaps the bytes of eight big-endian units in one step. Little-endian units are copied, which the compiler
//! vectorizes.

ghost use Rattle.std.specs.Prelude.{◌≡◌, ◌≤◌, ◌<◌, ◌+◌, ◌*◌, ◌/◌, ℕ, slice_index, length, take};
ghost use Rattle.wide_bytes.specs.Bytes.{unit_in, units_in};
ghost use Rattle.wide_bytes.specs.declared.order.BoM.TheVariants.{Big, Little};

use super::order::BoM;
use std::simd::prelude::*;

/// Returns the code unit of two bytes (Unicode Standard, D96 and D97).
#[inline(always)]
pub fn unit_in(order: BoM, first: u8, second: u8) -> u16
    ensures { result ≡ unit_in order first second }
{
    let (first, second) = (u16::from(first), u16::from(second));
    match order {
        BoM::Little => first + 0x100 * second,
        BoM::Big => 0x100 * first + second,
    }
}

// Stores little-endian units, whose bytes are copied unchanged.
fn fill_little(bytes: &[u8], units: &mut [u16])
    requires { length bytes.now / 2 ≤ length units.old }
    ensures long { length units.new ≡ length units.old }
    ensures units { (k : ℕ) → k < length bytes.now / 2 → slice_index units.new k ≡ unit_in Little (slice_index bytes.now (2 * k)) (slice_index bytes.now (2 * k + 1)) }
{
    for k in 0..bytes.len() / 2 {
        units[k] = unit_in(BoM::Little, bytes[2 * k], bytes[2 * k + 1]);
    }
}

// Returns eight big-endian units.
#[inline(always)]
fn big_lanes(bytes: &[u8]) -> u16x8
    requires { 16 ≤ length bytes.now }
    ensures { (k : ℕ) → k < 8 → slice_index result k ≡ unit_in Big (slice_index bytes.now (2 * k)) (slice_index bytes.now (2 * k + 1)) }
{
    let pairs = u8x16::from_slice(bytes);
    let swapped = pairs.swizzle([1, 0, 3, 2, 5, 4, 7, 6, 9, 8, 11, 10, 13, 12, 15, 14]);
    u16x8::from_le_bytes(swapped)
}

// Stores big-endian units, eight in one step and the last ones one by one.
fn fill_big(bytes: &[u8], units: &mut [u16])
    requires { length bytes.now / 2 ≤ length units.old }
    ensures long { length units.new ≡ length units.old }
    ensures units { (k : ℕ) → k < length bytes.now / 2 → slice_index units.new k ≡ unit_in Big (slice_index bytes.now (2 * k)) (slice_index bytes.now (2 * k + 1)) }
{
    let count = bytes.len() / 2;
    let mut done = 0;
    'eights: while count - done >= 8 {
        big_lanes(&bytes[2 * done..]).copy_to_slice(&mut units[done..done + 8]);
        done += 8;
    }
    'ones: while done < count {
        units[done] = unit_in(BoM::Big, bytes[2 * done], bytes[2 * done + 1]);
        done += 1;
    }
}

/// Stores the code units of the whole pairs of bytes (Unicode Standard, D96 and D97) at the beginning of `units`. The
/// units after them may be overwritten.
///
/// # Requires
///
/// `units` is at least half as long as `bytes`, rounded down.
pub fn fill_units(order: BoM, bytes: &[u8], units: &mut [u16])
    requires { length bytes.now / 2 ≤ length units.old }
    ensures { take (length bytes.now / 2) units.new ≡ units_in order bytes.now }
{
    match order {
        BoM::Little => fill_little(bytes, units),
        BoM::Big => fill_big(bytes, units),
    }
}
