//! Compresses SIMD lanes that hold characters, and stores them as units (Unicode Standard, section 3.9, D90 and D91). A
//! look-up table of shuffles moves the selected lanes to the beginning.

ghost use Rattle.std.specs.Prelude.{◌≡◌, ◌++◌, ◌+◌, ◌<◌, ◌≤◌, ℕ, length, map, slice_index, take};
ghost use Rattle.std.specs.Char.{IsScalar};
ghost use Rattle.wide_repair.specs.Compressed.{compressed_lanes};

use std::simd::prelude::*;
use wide_repair::compress;
use wide_unit::{Unit, char_of};

// Stores eight lanes, each as a character of one unit.
#[inline(always)]
fn put_lanes<C: Unit>(lanes: u16x8, units: &mut [C], at: usize)
    requires space { at + 8 ≤ length units.old }
    requires scalars { (k : ℕ) → k < 8 → IsScalar (slice_index lanes k) }
    ensures { map C.number (take (at + 8) units.new) ≡ map C.number (take at units.old) ++ take 8 lanes }
{
    // A local array cannot overlap the units, so the compiler vectorizes this loop.
    let codes = lanes.to_array();
    for k in 0..8 {
        let (unit, _) = C::encode_char(char_of(u32::from(codes[k])));
        units[at + k] = unit;
    }
}

/// Stores the lanes whose bits are set, each as a character of one unit, and returns the index after them. The eight
/// units from `at` on are overwritten.
///
/// # Requires
///
/// `bits` is below 256. Each lane is a scalar value, also if its bit is not set. `units` has at least 8 units from `at`
/// on.
#[inline(always)]
pub(crate) fn put_compressed<C: Unit>(
    lanes: u16x8,
    bits: usize,
    units: &mut [C],
    at: usize,
) -> usize
    requires below { bits < 256 }
    requires space { at + 8 ≤ length units.old }
    requires scalars { (k : ℕ) → k < 8 → IsScalar (slice_index lanes k) }
    ensures units { map C.number (take result units.new) ≡ map C.number (take at units.old) ++ compressed_lanes bits lanes }
    ensures offset { result ≡ at + length (compressed_lanes bits lanes) }
    ensures high { result ≤ at + 8 }
{
    put_lanes(compress(lanes, bits), units, at);
    at + bits.count_ones() as usize
}
