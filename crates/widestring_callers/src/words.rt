//! Contracts with the definitions of every module, all imported through the library.
ghost use Rattle.std.specs.Prelude.{◌≡◌, IfOk, OnOk, IfErr, false};
ghost use Rattle.std.specs.Char.Escape.{escape_unicode};
ghost use Rattle.std.specs.List.{flat_map};
ghost use Rattle.widestring.specs.Bytes.{units_of_bytes, is_odd, bom_of};
ghost use Rattle.widestring.specs.CStringView as c_view;
ghost use Rattle.widestring.specs.EncodingForm.{Utf16, Utf32};
ghost use Rattle.widestring.specs.Escapes.{unicode_left};
ghost use Rattle.widestring.specs.Include.{ReportsOfBytes};
ghost use Rattle.widestring.specs.Items.{items, IsWellFormed};
ghost use Rattle.widestring.specs.Iter.{chars_rest};
ghost use Rattle.widestring.specs.Lines.{lines_of};
ghost use Rattle.widestring.specs.LinesLeft.{lines_left};
ghost use Rattle.widestring.specs.Lossy.{lossy, lossy_by};
ghost use Rattle.widestring.specs.Printed.{displayed};
ghost use Rattle.widestring.specs.UnitIter.{items_left, lossy_left};
ghost use Rattle.widestring.specs.UnitLossyWith.{lossy_with_left};
ghost use Rattle.widestring.specs.UnitView as unit_view;
ghost use Rattle.widestring.specs.UnitsOfBytes.{units_left};
ghost use Rattle.widestring.specs.View.{units_seen, items_seen, text_seen};

use std::alloc::Global;
use widestring::bytes::{BoM, UnitsOfBytes, byte_order, include_utf16str, units_of_bytes};
use widestring::error::Utf16BytesError;
use widestring::utfstr::{EscapeUnicode, Lines};
use widestring::{Policy, U16CStr, U16Str, U32Str, Utf16Str, Utf16String, ucstr, ustr, utfstr};

/// Returns the items of a view of units.
pub fn items_of_view(view: U16Str<'_>) -> ustr::CharsUtf16<'_>
    ensures { items_left Utf16 (λ u. u) result ≡ items Utf16 (unit_view.units_seen view.entry) }
{
    view.chars()
}

/// Returns the lossy characters of a C string's contents.
pub fn lossy_contents(view: U16CStr<'_>) -> ucstr::CharsLossyUtf16<'_>
    ensures { lossy_left Utf16 (λ u. u) result ≡ lossy (items Utf16 (c_view.contents_seen view.entry)) }
{
    view.chars_lossy()
}

/// Returns the characters of a view of units, with faults replaced by the policy.
pub fn characters_by(view: U32Str<'_>, policy: Policy) -> ustr::CharsLossyWith<'_, u32>
    ensures { lossy_with_left Utf32 (λ u. u) result ≡ lossy_by policy (items Utf32 (unit_view.units_seen view.entry)) }
{
    view.chars_lossy_with(policy)
}

/// Returns the value that prints a view of units.
pub fn printed(view: U16Str<'_>) -> ustr::Display<'_, u16>
    ensures { unit_view.units_seen (displayed result) ≡ unit_view.units_seen view.entry }
{
    view.display()
}

/// Returns the lines of a text.
pub fn lines_of_text(text: Utf16Str<'_>) -> Lines<Utf16Str<'_>>
    ensures { lines_left (items_seen Utf16 (λ u. u)) result ≡ lines_of (items Utf16 (units_seen text.entry)) }
{
    text.lines()
}

/// Returns the characters of a text.
pub fn characters_of(text: Utf16Str<'_>) -> utfstr::CharsUtf16<'_>
    ensures { chars_rest result ≡ units_seen text.entry }
{
    text.chars()
}

/// Returns a text with each character escaped by its number.
pub fn numbered(text: Utf16Str<'_>) -> EscapeUnicode<'_, u16>
    ensures { unicode_left result ≡ flat_map escape_unicode (text_seen text.entry) }
{
    text.escape_unicode()
}

/// Returns the byte order of a BOM, and the units after it.
pub fn marked_units(bytes: &[u8]) -> (Option<BoM>, UnitsOfBytes<'_>)
    ensures mark { result.0 ≡ bom_of bytes.now }
    ensures units { units_left result.1 ≡ units_of_bytes bytes.now }
{
    (byte_order(bytes), units_of_bytes(bytes))
}

/// Returns the text of bytes of well-formed UTF-16.
///
/// # Errors
///
/// The first fault, an odd number of bytes, or an allocation failure.
pub fn text_of_bytes(alloc: Global, bytes: &[u8]) -> Result<Utf16String, Utf16BytesError>
    ensures string { IfOk result (λ s. s.units ≡ units_of_bytes bytes.now) }
    ensures even { OnOk result (is_odd bytes.now ≡ false) }
    ensures text { OnOk result (IsWellFormed Utf16 (units_of_bytes bytes.now)) }
    ensures reported { IfErr result (ReportsOfBytes bytes.now) }
{
    include_utf16str(alloc, bytes)
}
