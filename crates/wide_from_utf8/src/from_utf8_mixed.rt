//! Converts UTF-8 that mixes characters of one to three bytes to units (Unicode Standard, section 3.9, Table 3-6).
//! Vectorized: SIMD lanes compute a scalar value at each byte, as if a character began there, and a look-up table of
//! shuffles retains the lanes of the bytes that begin a character.

ghost use Rattle.std.specs.Prelude.{◌≡◌, ◌++◌, ◌+◌, ◌*◌, ◌<◌, ◌≤◌, ℕ, length, map, slice_index, take};
ghost use Rattle.std.specs.Str.{IsUtf8};
ghost use Rattle.wide_from_utf8.specs.Decoded.{IsDecoded};
ghost use Rattle.wide_from_utf8.specs.Mixed.{codes_at, lead_bits, trailing_len};

use crate::compressed_units::put_compressed;
use crate::from_utf8_ascii::low_len;
use std::simd::prelude::*;
use wide_forms::Progress;
use wide_unit::Unit;

// Returns the scalar values at the first eight bytes, as if a character of one to three bytes began at each.
#[inline(always)]
fn codes_of(text: &[u8]) -> u16x8
    requires { 10 ≤ length text.now }
    ensures { result ≡ codes_at 8 text.now }
{
    let first = u8x8::from_slice(text).cast::<u16>();
    let second = u8x8::from_slice(&text[1..]).cast::<u16>() % u16x8::splat(0x40);
    let third = u8x8::from_slice(&text[2..]).cast::<u16>() % u16x8::splat(0x40);
    let two = first % u16x8::splat(0x20) * u16x8::splat(0x40) + second;
    // The multiplication drops the bits of the first byte that exceed sixteen bits.
    let three = first * u16x8::splat(0x1000) + second * u16x8::splat(0x40) + third;
    let short = first.simd_lt(u16x8::splat(0x80)).select(first, two);
    first.simd_lt(u16x8::splat(0xe0)).select(short, three)
}

// Returns a bit mask of the first sixteen bytes: bit k is set if byte k begins a character.
#[inline(always)]
fn leads_of(text: &[u8]) -> usize
    requires { 16 ≤ length text.now }
    ensures { result ≡ lead_bits 16 text.now }
{
    let high = u8x16::from_slice(text) & u8x16::splat(0xc0);
    high.simd_ne(u8x16::splat(0x80)).to_bitmask() as usize
}

// Returns how many of the first two bytes continue a character that began before them.
#[inline(always)]
fn rest_len(text: &[u8]) -> usize
    requires { 2 ≤ length text.now }
    ensures { result ≡ trailing_len text.now }
{
    let (first, second) = (text[0], text[1]);
    if first / 0x40 != 2 {
        0
    } else if second / 0x40 != 2 {
        1
    } else {
        2
    }
}

/// Writes the units of the characters that begin in the first sixteen bytes of text, up to the first character of four
/// bytes. Returns how many bytes were read and how many units were written. The sixteen units from `at` on may be
/// overwritten.
///
/// # Requires
///
/// The text is well-formed UTF-8 of at least 18 bytes. Its first character has at most three bytes. `units` has at
/// least 16 units from `at` on.
#[inline(always)]
pub(crate) fn put_mixed<C: Unit>(text: &[u8], units: &mut [C], at: usize) -> Progress
    requires text { IsUtf8 text.now }
    requires whole { 18 ≤ length text.now }
    requires first { slice_index text.now 0 < 0xf0 }
    requires space { at + 16 ≤ length units.old }
    ensures read { result.read ≤ length text.now }
    ensures some { 0 < result.read }
    ensures few { result.written ≤ 2 * result.read }
    ensures space { at + result.written ≤ length units.new }
    ensures units { IsDecoded C.form text.now result.read (map C.number (take at units.old)) (map C.number (take (at + result.written) units.new)) }
{
    // Only characters before the first one of four bytes are converted. If there is none, the last one may end after
    // the sixteen bytes.
    let end = low_len(text, 0xf0);
    let leads = leads_of(text) % (1 << end);
    let middle = put_compressed(codes_of(text), leads % 256, units, at);
    let beyond = put_compressed(codes_of(&text[8..]), leads / 256, units, middle);
    Progress {
        read: end + rest_len(&text[end..]),
        written: beyond - at,
    }
}
