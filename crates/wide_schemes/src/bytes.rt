//! Units of 16 bits as bytes.

ghost use Rattle.std.specs.Prelude.{◌≡◌, ◌+◌, ◌*◌, ◌≤◌, ◌<◌, ◌++◌, true, length, take, drop};
ghost use Rattle.wide_forms.specs.EncodingForm.{Utf16};
ghost use Rattle.wide_forms.specs.Items.{IsWellFormed, chars};
ghost use Rattle.wide_unit.specs.CodePoints.{code_points};
ghost use Rattle.wide_bytes.specs.Bytes.{bytes_in};
ghost use Rattle.wide_schemes.specs.Layouts.{bytes32_in, encoded, needs_text};
ghost use Rattle.wide_schemes.specs.Wtf8.{wtf8};

use crate::layout::Layout;
use wide_bytes::BoM;
use wide_from_units::{between_forms_prefix, put_be_bytes, put_le_bytes};
use wide_utf16_to_utf8::{put_unit, utf16_to_utf8_until_fault};

// How many units of 32 bits are made before their bytes are written.
const BLOCK_UNITS: usize = 128;

/// Writes units as WTF-8 at the beginning of `out`, and returns the length in bytes. Well-formed parts are UTF-8 (Unicode
/// Standard, D92), and an unpaired surrogate has the three bytes of its code point. The units are read once. Bytes after
/// the text may be overwritten.
///
/// # Requires
///
/// `out` has at least `3 * units.len() + 4` bytes.
pub fn put_wtf8(units: &[u16], out: &mut [u8]) -> usize
    requires { 3 * length units.now + 4 ≤ length out.old }
    ensures text { take result out.new ≡ wtf8 units.now }
    ensures written { result ≤ 3 * length units.now }
{
    let mut read = 0;
    let mut written = 0;
    while read < units.len() {
        let (_, rest) = units.split_at(read);
        let step = utf16_to_utf8_until_fault(rest, out, written);
        read += step.read;
        written = step.written;
        if read < units.len() {
            // A surrogate that belongs to no pair, or the last unit, a high one.
            written = put_unit(out, written, units[read]);
            read += 1;
        }
    }
    written
}

// Writes the bytes of units of 16 bits (Unicode Standard, D96 and D97) at the beginning of `out`, and returns how many
// these are.
fn put_utf16(order: BoM, units: &[u16], out: &mut [u8]) -> usize
    requires { 2 * length units.now ≤ length out.old }
    ensures text { take result out.new ≡ bytes_in order units.now }
    ensures written { result ≡ 2 * length units.now }
{
    match order {
        BoM::Little => put_le_bytes(units, out),
        BoM::Big => put_be_bytes(units, out),
    }
    2 * units.len()
}

// Writes the bytes of units of 32 bits (Unicode Standard, D99 and D100) at the beginning of `out`, and returns how many
// these are.
fn put_block_32(order: BoM, codes: &[u32], out: &mut [u8]) -> usize
    requires { 4 * length codes.now ≤ length out.old }
    ensures text { take result out.new ≡ bytes32_in order codes.now }
    ensures written { result ≡ 4 * length codes.now }
{
    match order {
        BoM::Little => put_le_bytes(codes, out),
        BoM::Big => put_be_bytes(codes, out),
    }
    4 * codes.len()
}

// Writes the characters of well-formed units as UTF-32 at the beginning of `out`, block by block, and returns the
// length in bytes.
fn put_utf32(order: BoM, units: &[u16], out: &mut [u8]) -> usize
    requires space { 4 * length units.now ≤ length out.old }
    requires well_formed { IsWellFormed Utf16 units.now }
    ensures text { take result out.new ≡ bytes32_in order (chars Utf16 units.now) }
    ensures written { result ≤ 4 * length units.now }
{
    let mut codes = [0u32; BLOCK_UNITS];
    let mut read = 0;
    let mut written = 0;
    while read < units.len() {
        let step = between_forms_prefix(&units[read..], &mut codes);
        written += put_block_32(order, &codes[..step.written], &mut out[written..]);
        read += step.read;
    }
    written
}

/// Writes units of 16 bits in a layout at the beginning of `out`, and returns the length in bytes (Unicode Standard,
/// D92 and D96 to D100). Nothing is lost: a surrogate that belongs to no pair has the bytes of its code point, three in
/// UTF-8 as in WTF-8, and two in UTF-16. No BOM is written. Bytes after the text may be overwritten.
///
/// # Requires
///
/// `out` has at least `4 * units.len() + 64` bytes. The units are well formed if the layout is UTF-32, in which such a
/// surrogate has no bytes.
pub fn encode(layout: Layout, units: &[u16], out: &mut [u8]) -> usize
    requires space { 4 * length units.now + 64 ≤ length out.old }
    requires well_formed { needs_text layout ≡ true → IsWellFormed Utf16 units.now }
    ensures text { take result out.new ≡ encoded layout (code_points Utf16 units.now) }
    ensures written { result ≤ 4 * length units.now }
{
    match layout {
        Layout::Utf8 | Layout::Wtf8 => put_wtf8(units, out),
        Layout::Utf16(order) => put_utf16(order, units, out),
        Layout::Utf32(order) => put_utf32(order, units, out),
    }
}
