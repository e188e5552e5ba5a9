//! Decodes a chunk of bytes in any layout.

ghost use Rattle.std.specs.Prelude.{◌≡◌, ◌-◌, ◌≤◌, false, length, take, drop};
ghost use Rattle.wide_forms.specs.EncodingForm.{Utf16};
ghost use Rattle.wide_forms.specs.Items.{IsWellFormed};
ghost use Rattle.wide_unit.specs.CodePoints.{code_points};
ghost use Rattle.wide_schemes.specs.Layouts.{Decodes, StopsBefore, encoded};

use crate::layout::Layout;
use crate::progress::Decoding;
use crate::utf8::decode_utf8;
use crate::utf16::decode_utf16;
use crate::utf32::decode_utf32;
use crate::wtf8::decode_wtf8;

/// Decodes a chunk of bytes, up to a fault, an incomplete character or unit, or the end, and writes the units of its
/// characters at the beginning of `units` (Unicode Standard, D91). If `keeps` is true, surrogates that belong to no pair
/// are characters of UTF-16 and WTF-8. `after_high` says whether the first half of a pair directly precedes the chunk,
/// past faults, which matters in WTF-8 alone. If `is_last` is true, no bytes follow the chunk. The units after those
/// written may be overwritten.
///
/// # Requires
///
/// If `keeps` is false, so is `after_high`.
pub fn decode(
    layout: Layout,
    keeps: bool,
    after_high: bool,
    bytes: &[u8],
    is_last: bool,
    units: &mut [u16],
) -> Decoding
    requires { keeps ≡ false → after_high ≡ false }
    ensures read { result.read ≤ length bytes.now }
    ensures written { result.written ≤ length units.new }
    ensures bytes { take result.read bytes.now ≡ encoded layout (code_points Utf16 (take result.written units.new)) }
    ensures items { Decodes layout keeps after_high bytes.now is_last result.read (take result.written units.new) result.after_high }
    ensures state { keeps ≡ false → result.after_high ≡ false }
    ensures well_formed { keeps ≡ false → IsWellFormed Utf16 (take result.written units.new) }
    ensures stop { StopsBefore layout keeps result.after_high (drop result.read bytes.now) is_last (length units.new - result.written) result.stop }
{
    match layout {
        Layout::Utf8 => decode_utf8(bytes, is_last, units),
        Layout::Wtf8 => decode_wtf8(keeps, after_high, bytes, is_last, units),
        Layout::Utf16(order) => decode_utf16(order, keeps, bytes, is_last, units),
        Layout::Utf32(order) => decode_utf32(order, bytes, is_last, units),
    }
}
