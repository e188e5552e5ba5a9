//! Converts runs of ASCII characters of UTF-8 to units (Unicode Standard, section 3.9, Table 3-6). Vectorized: sixteen
//! bytes are classified and stored in one step, or eight where fewer are left.

ghost use Rattle.std.specs.Prelude.{◌≡◌, ◌++◌, ◌+◌, ◌<◌, ◌≤◌, ℕ, IsTrue, length, map, slice_index, take};
ghost use Rattle.std.specs.Str.{IsUtf8};
ghost use Rattle.wide_from_utf8.specs.Decoded.{IsDecoded};

use std::simd::prelude::*;
use wide_unit::Unit;

// Stores bytes, each as a character. If they are a local array, they cannot overlap the units, so the compiler
// vectorizes the loop.
#[inline(always)]
fn put_each<C: Unit>(bytes: &[u8], units: &mut [C], at: usize)
    requires { at + length bytes.now ≤ length units.old }
    ensures { map C.number (take (at + length bytes.now) units.new) ≡ map C.number (take at units.old) ++ bytes.now }
{
    for k in 0..bytes.len() {
        let (unit, _) = C::encode_char(char::from(bytes[k]));
        units[at + k] = unit;
    }
}

/// Stores the first sixteen bytes of text, each as a character.
///
/// # Requires
///
/// `text` has at least 16 bytes, and `units` at least 16 units from `at` on.
#[inline(always)]
pub fn put_bytes<C: Unit>(text: &[u8], units: &mut [C], at: usize)
    requires whole { 16 ≤ length text.now }
    requires space { at + 16 ≤ length units.old }
    ensures { map C.number (take (at + 16) units.new) ≡ map C.number (take at units.old) ++ take 16 text.now }
{
    put_each(&u8x16::from_slice(text).to_array(), units, at);
}

/// Stores the first eight bytes of text, each as a character.
///
/// # Requires
///
/// `text` has at least 8 bytes, and `units` at least 8 units from `at` on.
#[inline(always)]
pub(crate) fn put_eight_bytes<C: Unit>(text: &[u8], units: &mut [C], at: usize)
    requires whole { 8 ≤ length text.now }
    requires space { at + 8 ≤ length units.old }
    ensures { map C.number (take (at + 8) units.new) ≡ map C.number (take at units.old) ++ take 8 text.now }
{
    put_each(&u8x8::from_slice(text).to_array(), units, at);
}

/// Returns how many of the first sixteen bytes of text precede the first byte that is not below the bound: 16 if all
/// are below it.
///
/// # Requires
///
/// `text` has at least 16 bytes.
#[inline(always)]
pub fn low_len(text: &[u8], bound: u8) -> usize
    requires { 16 ≤ length text.now }
    ensures within { result ≤ 16 }
    ensures low { (k : ℕ) → k < result → slice_index text.now k < bound }
    ensures stop { result < 16 → bound ≤ slice_index text.now result }
{
    let bits = u8x16::from_slice(text)
        .simd_ge(u8x16::splat(bound))
        .to_bitmask();
    if bits == 0 {
        16
    } else {
        bits.trailing_zeros() as usize
    }
}

/// Returns whether the first eight bytes of text are ASCII.
///
/// # Requires
///
/// `text` has at least 8 bytes.
#[inline(always)]
pub(crate) fn are_eight_ascii(text: &[u8]) -> bool
    requires { 8 ≤ length text.now }
    ensures { IsTrue result → (k : ℕ) → k < 8 → slice_index text.now k < 0x80 }
{
    u8x8::from_slice(text)
        .simd_ge(u8x8::splat(0x80))
        .to_bitmask()
        == 0
}

/// Stores the blocks of sixteen ASCII characters at the beginning of text, as many as fit, and returns how many
/// characters were stored.
///
/// # Requires
///
/// The text is well-formed UTF-8. `at` is at most the length of `units`.
#[inline(always)]
pub(crate) fn put_ascii_blocks<C: Unit>(text: &[u8], units: &mut [C], at: usize) -> usize
    requires text { IsUtf8 text.now }
    requires at { at ≤ length units.old }
    ensures read { result ≤ length text.now }
    ensures space { at + result ≤ length units.new }
    ensures units { IsDecoded C.form text.now result (map C.number (take at units.old)) (map C.number (take (at + result) units.new)) }
{
    let mut count = 0;
    'sixteens: while text.len() - count >= 16 && units.len() - (at + count) >= 16 {
        if low_len(&text[count..], 0x80) < 16 {
            return count;
        }
        put_bytes(&text[count..], units, at + count);
        count += 16;
    }
    count
}
