//! Converts runs of characters of three and of four bytes of UTF-8 to units (Unicode Standard, section 3.9, Table 3-6).
//! Vectorized: a run is recognized in SIMD lanes by the upper bits of its leading bytes, sixteen bytes in one step.

ghost use Rattle.std.specs.Prelude.{◌≡◌, ◌++◌, ◌+◌, ◌*◌, ◌<◌, ◌≤◌, ℕ, IsTrue, length, map, bit_and, slice_index, take};
ghost use Rattle.std.specs.Char.{IsScalar};
ghost use Rattle.std.specs.Str.{IsUtf8};
ghost use Rattle.wide_from_utf8.specs.Decoded.{IsDecoded, LeadsThree, code_of_four, code_of_three, codes_of_three};

use std::simd::prelude::*;
use wide_unit::{Unit, char_of, put_char};

// Returns how many of the first sixteen bytes precede the first byte whose masked bits differ from the wanted ones: 16
// if none differs.
#[inline(always)]
fn alike_len(text: &[u8], masks: &[u8; 16], wanted: &[u8; 16]) -> usize
    requires { 16 ≤ length text.now }
    ensures within { result ≤ 16 }
    ensures alike { (k : ℕ) → k < result → bit_and (slice_index text.now k) (slice_index masks.now k) ≡ slice_index wanted.now k }
{
    let masked = u8x16::from_slice(text) & u8x16::from_array(*masks);
    let bits = masked.simd_ne(u8x16::from_array(*wanted)).to_bitmask();
    if bits == 0 {
        16
    } else {
        bits.trailing_zeros() as usize
    }
}

// The mask of the bits by which the leading byte of a character of three bytes is recognized, at each third byte: the
// upper four bits (Unicode Standard, Table 3-6). The other bytes are not looked at.
const THREE_MASKS: [u8; 16] = [
    0xf0, 0, 0, 0xf0, 0, 0, 0xf0, 0, 0, 0xf0, 0, 0, 0xf0, 0, 0, 0,
];

// What the masked bits are in the leading byte of a character of three bytes, at each third byte: 1110 (Unicode
// Standard, Table 3-6).
const THREE_BITS: [u8; 16] = [
    0xe0, 0, 0, 0xe0, 0, 0, 0xe0, 0, 0, 0xe0, 0, 0, 0xe0, 0, 0, 0,
];

/// Returns whether the text begins with five characters of three bytes each.
///
/// # Requires
///
/// `text` has at least 16 bytes.
#[inline(always)]
pub(crate) fn are_threes(text: &[u8]) -> bool
    requires { 16 ≤ length text.now }
    ensures { IsTrue result → (k : ℕ) → k < 5 → LeadsThree (slice_index text.now (3 * k)) }
{
    alike_len(text, &THREE_MASKS, &THREE_BITS) == 16
}

// Returns the character of three bytes (Unicode Standard, Table 3-6).
#[inline(always)]
fn char_of_three(first: u8, second: u8, third: u8) -> char
    requires { IsScalar (code_of_three first second third) }
    ensures { result ≡ code_of_three first second third }
{
    let prefix = u32::from(first) % 0x10 * 0x1000 + u32::from(second) % 0x40 * 0x40;
    char_of(prefix + u32::from(third) % 0x40)
}

/// Stores five characters of three bytes, each as one unit.
///
/// # Requires
///
/// `text` has at least 16 bytes, and begins with five characters of three bytes each. `units` has at least 5 units from
/// `at` on.
#[inline(always)]
pub(crate) fn put_threes<C: Unit>(text: &[u8], units: &mut [C], at: usize)
    requires whole { 16 ≤ length text.now }
    requires space { at + 5 ≤ length units.old }
    requires scalars { (k : ℕ) → k < 5 → IsScalar (slice_index (codes_of_three text.now) k) }
    ensures { map C.number (take (at + 5) units.new) ≡ map C.number (take at units.old) ++ take 5 (codes_of_three text.now) }
{
    let bytes = u8x16::from_slice(text).to_array();
    for k in 0..5 {
        let c = char_of_three(bytes[3 * k], bytes[3 * k + 1], bytes[3 * k + 2]);
        let (unit, _) = C::encode_char(c);
        units[at + k] = unit;
    }
}

// The upper four bits of the leading byte of a character of four bytes, 1111, at each fourth byte (Unicode Standard,
// Table 3-6). They are also the mask of the bits by which it is recognized, since all four are set. The other bytes are
// not looked at.
const FOUR_BITS: [u8; 16] = [0xf0, 0, 0, 0, 0xf0, 0, 0, 0, 0xf0, 0, 0, 0, 0xf0, 0, 0, 0];

/// Returns whether the text begins with four characters of four bytes each.
///
/// # Requires
///
/// `text` has at least 16 bytes.
#[inline(always)]
pub(crate) fn are_fours(text: &[u8]) -> bool
    requires { 16 ≤ length text.now }
    ensures { IsTrue result → (k : ℕ) → k < 4 → 0xf0 ≤ slice_index text.now (4 * k) }
{
    alike_len(text, &FOUR_BITS, &FOUR_BITS) == 16
}

// Returns the character of four bytes (Unicode Standard, Table 3-6).
#[inline(always)]
fn char_of_four(first: u8, second: u8, third: u8, fourth: u8) -> char
    requires scalar { IsScalar (code_of_four first second third fourth) }
    requires beyond { 0x1_0000 ≤ code_of_four first second third fourth }
    ensures { result ≡ code_of_four first second third fourth }
{
    let prefix = u32::from(first) % 8 * 0x4_0000 + u32::from(second) % 0x40 * 0x1000;
    let code = prefix + u32::from(third) % 0x40 * 0x40 + u32::from(fourth) % 0x40;
    // By the maximum the compiler knows that the character is a surrogate pair in UTF-16.
    char_of(code.max(0x1_0000))
}

/// Writes the units of four characters of four bytes, and returns the index after them.
///
/// # Requires
///
/// The text is well-formed UTF-8, and begins with four characters of four bytes each. `units` has at least 8 units from
/// `at` on.
#[inline(always)]
pub(crate) fn put_fours<C: Unit>(text: &[u8], units: &mut [C], at: usize) -> usize
    requires text { IsUtf8 text.now }
    requires whole { 16 ≤ length text.now }
    requires fours { (k : ℕ) → k < 4 → 0xf0 ≤ slice_index text.now (4 * k) }
    requires space { at + 8 ≤ length units.old }
    ensures from { at ≤ result }
    ensures few { result ≤ at + 8 }
    ensures units { IsDecoded C.form text.now 16 (map C.number (take at units.old)) (map C.number (take result units.new)) }
{
    let bytes = u8x16::from_slice(text).to_array();
    let mut beyond = at;
    for k in 0..4 {
        let (first, second) = (bytes[4 * k], bytes[4 * k + 1]);
        let c = char_of_four(first, second, bytes[4 * k + 2], bytes[4 * k + 3]);
        beyond = put_char(units, beyond, c);
    }
    beyond
}
